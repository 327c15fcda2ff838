// The table of holds. Its methods are in the module below, since their contracts speak of it.
ghost use Rattle.std.specs.Prelude.{◌≡◌, ◌≤◌, length};

use crate::moves::SlipState;

mod calls;

// How many holds a table takes.
pub const CAPACITY: usize = 512;

// A hold that was accepted: its depot, its pallets and where it stands.
#[derive(Clone, Copy)]
pub struct Entry {
    depot: u8,
    pallets: u16,
    state: SlipState,
}

// The holds accepted so far, in the order of their numbers: the entries below `count`.
// An array with a count beside it, not a `Vec`: a rule of the project wants the table as a plain struct of 512 entries in fixed
// memory, so that neither `new` nor `hold` can run out of it. (The kit's `ArrayVec` would bring a crate of its own for one list.)
#[derive(Drop)]
pub struct SlipTable {
    entries: [Entry; CAPACITY],
    count: u16,
    ghost long: { length entries ≡ 512 },
    ghost within: { count ≤ 512 },
}
