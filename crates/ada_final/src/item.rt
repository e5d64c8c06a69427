// What a list holds.

/// What is to be finalized, as the one word by which the list's owner knows it again.
///
/// The lists compare items and never look into them. One item may stand in a list several times.
#[derive(Clone, Copy, Debug, PartialEq, Eq)]
pub struct Item {
    pub word: u64,
}
