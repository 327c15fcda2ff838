// The periods of a yard that lie inside a cut.
ghost use Rattle.std.specs.Prelude.{◌≡◌, ◌≤◌, length, nat_lt, slice_index};
ghost use Rattle.cut_sheet.specs.Bits.{bits_of};
ghost use Rattle.cut_sheet.specs.Sheets.{Answers};

use refusals::Refusal;
use timetable::{LAST_PERIOD, LAST_YARD};

// How many yards there are.
const YARDS: usize = LAST_YARD as usize + 1;

// How many periods of a yard lie inside a cut, and the first of them: the one after the horizon where none does.
#[derive(Clone, Copy, Debug, PartialEq, Eq)]
pub struct Inside {
    pub count: u8,
    pub first: u8,
}

// The bit of each period is set whose mark is above k.
fn bits_above(row: &[u8], k: u16) -> u64
    requires { length row.now ≤ 48 }
    ensures { result ≡ bits_of (λ t. nat_lt k (slice_index row.now t)) (length row.now) }
{
    let mut bits = 0;
    for (period, mark) in row.iter().enumerate() {
        if u16::from(*mark) > k {
            bits |= 1u64 << period;
        }
    }
    bits
}

// Reads marks: that of the yard y in the period t is at y × (horizon + 1) + t, and counts the k whose cut holds the place. Tells
// which periods of the yard lie inside the cut of k.
pub fn periods_inside(horizon: u8, marks: &[u8], yard: u8, k: u16) -> Result<Inside, Refusal>
    ensures { Answers horizon marks.now yard k result }
{
    if horizon < 1 || horizon > LAST_PERIOD {
        return Err(Refusal::BadHorizon);
    }
    if yard > LAST_YARD {
        return Err(Refusal::BadYard);
    }
    let periods = horizon as usize + 1;
    if marks.len() < YARDS * periods {
        return Err(Refusal::ListTooShort);
    }
    let start = yard as usize * periods;
    let bits = bits_above(&marks[start..start + periods], k);
    Ok(Inside {
        count: bits.count_ones() as u8,
        first: bits.trailing_zeros().min(u32::from(horizon) + 1) as u8,
    })
}
