//! Raw words and lists of items.
use crate::Answer;
use pool_region::Region;
use std::alloc::{AllocError, Global};

/// A region is zero at first, a write changes one word, and a part of it can be lent and written.
pub(crate) fn region(alloc: Global) -> Result<[Answer; 5], AllocError> {
    let mut region = Region::new(alloc, 5)?;
    let zero = region.get(4);
    region.set(1, 7);
    region.view_mut(2, 2).fill(8);
    Ok([
        Answer::Number(region.len() as u64),
        Answer::Number(zero),
        Answer::Number(region.get(1)),
        Answer::Number(region.get(3)),
        Answer::Number(region.get(4)),
    ])
}
