//! The header of a tile: its first four words, as the drawing at the head of the crate shows them.
ghost use Rattle.std.specs.Prelude.{◌≡◌, ℕ, ◌+◌, ◌*◌, ◌^◌, ◌<◌, ◌≤◌, ◌↔◌, ◌⊎◌, length, slice_index, slice_set, IsTrue};
ghost use Rattle.pool_tiles.specs.Tiling.{length_of, owner_of};
ghost use Rattle.pool_tiles.specs.Headers.{hole_mark, owner_unit, owner_limit, tile_at};

use pool_region::Region;

/// The words of a header. No tile is shorter.
pub const HEADER: usize = 4;

/// What the first word of a hole has above its length.
pub(crate) const HOLE_MARK: u64 = 0x8000_0000_0000_0000;

/// What the first word of a block has above its length, for each 1 of its owner's number.
pub(crate) const OWNER_UNIT: u64 = 0x1_0000_0000;

/// The words of a block before those of its user.
pub(crate) const OWN: usize = 2;

/// The numbers of the other words.
pub(crate) const BEFORE: usize = 1;

pub(crate) const NEXT: usize = 2;

pub(crate) const PREVIOUS: usize = 3;

pub(crate) fn is_hole(words: &Region, place: usize) -> bool
    requires { place < length words.now }
    ensures { IsTrue result ↔ (hole_mark ≤ slice_index words.now place) }
{
    words.get(place) >= HOLE_MARK
}

/// The length of the tile, be it a block or a hole.
pub(crate) fn tile_length(words: &Region, place: usize) -> usize
    requires { place < length words.now }
    ensures { result ≡ length_of (tile_at words.now place) }
{
    let size = words.get(place);
    if size < HOLE_MARK {
        (size % OWNER_UNIT) as usize
    } else {
        (size - HOLE_MARK) as usize
    }
}

/// The owner of the block, or 0 at a hole.
pub(crate) fn tile_owner(words: &Region, place: usize) -> u64
    requires { place < length words.now }
    ensures { result ≡ owner_of (tile_at words.now place) }
{
    let size = words.get(place);
    if size < HOLE_MARK {
        size / OWNER_UNIT
    } else {
        0
    }
}

/// Is it a block of this owner?
pub(crate) fn is_block_of(words: &Region, place: usize, owner: u32) -> bool
    requires { place < length words.now }
    ensures { IsTrue result ↔ (slice_index words.now place < hole_mark)
        × (owner_of (tile_at words.now place) ≡ owner) }
{
    !is_hole(words, place) && tile_owner(words, place) == u64::from(owner)
}

/// The first word of a block.
pub(crate) fn block_word(length: usize, owner: u32) -> u64
    requires { (length < 2 ^ 32) × (owner < owner_limit) }
    ensures { result ≡ length + owner * owner_unit }
{
    length as u64 + u64::from(owner) * OWNER_UNIT
}

/// One of the other words of the header at the place.
pub(crate) fn part(words: &Region, place: usize, number: usize) -> usize
    requires { (place + number < length words.now) × (length words.now < 2 ^ 32) }
    ensures { result ≡ slice_index words.now (place + number) }
{
    words.get(place + number) as usize
}

/// Writes one of them; where the place is past the end there is no header, and nothing is written.
pub(crate) fn set_part(words: &mut Region, place: usize, number: usize, value: usize)
    requires { (place ≤ length words.old) × (length words.old < 2 ^ 32) × (number < 4) }
    ensures { words.new ≡ slice_set words.old (place + number) value }
{
    if place + number < words.len() {
        words.set(place + number, value as u64);
    }
}

/// Writes 0 into the `n` words from the place on.
pub(crate) fn clear(words: &mut Region, from: usize, n: usize)
    requires { from + n ≤ length words.old }
    ensures length { length words.new ≡ length words.old }
    ensures zero { (k : ℕ) → from ≤ k → k < from + n → slice_index words.new k ≡ 0 }
    ensures others { (k : ℕ) → (k < from) ⊎ (from + n ≤ k)
        → slice_index words.new k ≡ slice_index words.old k }
{
    words.view_mut(from, n).fill(0);
}
