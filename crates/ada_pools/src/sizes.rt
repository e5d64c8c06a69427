//! The sizes that a run is given for declared pools.

ghost use Rattle.std.specs.Prelude.{◌≡◌, IfOk, slice_index};
ghost use Rattle.ada_pools.specs.Sizes.{is_for, is_for_some, size_of, sizes_of, all_for_pools};

use ada_program::program::Pool;
use ada_program::{PoolNo, Program};
use std::alloc::{AllocError, Global};

/// A size in words for each pool of a name, in upper or lower case.
#[derive(Debug, Drop)]
pub struct PoolSize {
    pub name: String,
    pub words: u32,
}

impl PoolSize {
    /// Is it for this pool?
    fn is_for(&self, pool: &Pool) -> bool
        ensures { result ≡ is_for pool.now self.now }
    {
        self.name.as_str().eq_ignore_ascii_case(pool.name.as_str())
    }

    /// Is it for one of these pools?
    fn is_for_some(&self, pools: &[Pool]) -> bool
        ensures { result ≡ is_for_some pools.now self.now }
    {
        pools.iter().any(|pool| self.is_for(pool))
    }
}

/// Is each of these sizes for a pool of the program?
pub fn name_pools(program: &Program, sizes: &[PoolSize]) -> bool
    ensures { result ≡ all_for_pools program.now sizes.now }
{
    sizes.iter().all(|size| size.is_for_some(&program.pools))
}

/// The sizes of all pools that a program declares, by number.
///
/// # Errors
/// Where the list of them cannot grow.
pub(crate) fn sizes_of(
    alloc: Global,
    program: &Program,
    sizes: &[PoolSize],
) -> Result<Vec<u32>, AllocError>
    ensures { IfOk result (λ found. found.items ≡ sizes_of program.now sizes.now) }
{
    program
        .pools
        .iter()
        .map(|pool| size_of(pool, sizes))
        .collect(alloc)
}

/// The size of a declared pool: the last that is given for it, or else that of its declaration.
fn size_of(pool: &Pool, sizes: &[PoolSize]) -> u32
    ensures { result ≡ size_of sizes.now pool.now }
{
    let mut words = pool.words;
    for size in sizes {
        if size.is_for(pool) {
            words = size.words;
        }
    }
    words
}

/// The size of the pool of a declaration, where the declarations have these sizes.
pub(crate) fn size_at(sizes: &[u32], declaration: PoolNo) -> u32
    ensures { result ≡ slice_index sizes.now declaration.0 }
{
    match sizes.get(declaration.0) {
        Some(words) => *words,
        None => 0,
    }
}
