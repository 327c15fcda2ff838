// What is written by a few numbers: a number of 16 or of 32 bits, a rank, an arc.
ghost use Rattle.std.specs.Prelude.{◌≡◌, ℕ, ◌*◌, List, drop, IfOk, OnOk, slice_index};
ghost use Rattle.search_trial.specs.Numbers.{left};
ghost use Rattle.search_trial.specs.Entries.{arc_of, entries, rank_of, short};

use crate::numbers::Numbers;
use flow::Arc;
use std::alloc::{AllocError, Global};

pub(crate) trait FromNumbers: Sized {
    // by how many numbers it is written
    ghost width: { ℕ };

    // what the first of the numbers write
    ghost entry: { List ℕ → Self };

    // Reads it.
    fn from_numbers(numbers: &mut Numbers) -> Self
        ensures value { result ≡ entry (left numbers.old) }
        ensures rest { left numbers.new ≡ drop width (left numbers.old) };
}

// A larger number counts as the largest, and so does one that is missing.
impl FromNumbers for u16 {
    ghost width = { 1 };

    ghost entry = { λ ns. short ns 0 };

    fn from_numbers(numbers: &mut Numbers) -> u16 {
        numbers
            .next()
            .and_then(|number| u16::try_from(number).ok())
            .unwrap_or(u16::MAX)
    }
}

// A missing number counts as 0.
impl FromNumbers for u32 {
    ghost width = { 1 };

    ghost entry = { λ ns. slice_index ns 0 };

    fn from_numbers(numbers: &mut Numbers) -> u32 {
        numbers.next().unwrap_or(0)
    }
}

// A rank comes as one more than it, and as 0 where there is none.
impl FromNumbers for Option<u16> {
    ghost width = { 1 };

    ghost entry = { rank_of };

    fn from_numbers(numbers: &mut Numbers) -> Option<u16> {
        u16::from_numbers(numbers).checked_sub(1)
    }
}

// An arc: its tail, its head and its capacity.
impl FromNumbers for Arc {
    ghost width = { 3 };

    ghost entry = { arc_of };

    fn from_numbers(numbers: &mut Numbers) -> Arc {
        let tail = u16::from_numbers(numbers);
        let head = u16::from_numbers(numbers);
        let capacity = u32::from_numbers(numbers);
        Arc {
            tail,
            head,
            capacity,
        }
    }
}

// So many entries. (`take` would stop where the numbers end, and an entry that is missing counts. Tried: `(0..count).map(..)` with
// `collect`, where both clauses stay open, since what the closure leaves in `numbers` has no name of its own.)
pub(crate) fn read_list<E: FromNumbers + Drop>(
    heap: Global,
    count: u32,
    numbers: &mut Numbers,
) -> Result<Vec<E>, AllocError>
    ensures items { IfOk result (λ v. v.items ≡ entries E.entry E.width count (left numbers.old)) }
    ensures rest { OnOk result (left numbers.new ≡ drop (E.width * count) (left numbers.old)) }
{
    let mut list = Vec::new(heap);
    for _i in 0..count {
        list.push(E::from_numbers(numbers))?;
    }
    Ok(list)
}
