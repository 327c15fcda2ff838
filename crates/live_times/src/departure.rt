// Up to which period a pallet at a yard can still be at a depot by the horizon.
ghost use Rattle.std.specs.Prelude.{◌≡◌, ℕ, ◌+◌, ◌<◌, ◌≤◌, ◌==◌, ◌&&◌, ◌||◌, length, nat_le, slice_index};
ghost use Rattle.timetable.specs.Plans.{Timetable, Sound, some_below};
ghost use Rattle.live_times.specs.Times.{until, time_of, takes, GoUntil};

use crate::times::{Times, later, no_times, time_at};
use timetable::Lane;

// When a pallet has to leave that arrives by a time: none where the way takes longer.
fn departure(arrives: Option<u8>, transit: u8) -> Option<u8>
    ensures { (t : ℕ) → until result t ≡ until arrives (t + transit) }
{
    arrives?.checked_sub(transit)
}

// The horizon at each depot, and no time elsewhere.
fn at_depots(horizon: u8, depots: &[u8]) -> Times
    ensures { (y t : ℕ) → y < 32 → until (time_of result y) t ≡ (nat_le t horizon && some_below (length depots.now) (λ d. slice_index depots.now d == y)) }
{
    let mut times = no_times();
    for depot in depots {
        let depot = usize::from(*depot);
        if depot < times.len() {
            times[depot] = Some(horizon);
        }
    }
    times
}

// The times by one more lane than `times`, or by none from the start. (A lane from a yard past the last is left out.)
fn by_one_more(lanes: &[Lane], start: &Times, times: &Times) -> Times
    ensures { (y t : ℕ) → y < 32 → until (time_of result y) t ≡ (until (time_of start.now y) t || some_below (length lanes.now) (takes lanes.now times.now y t)) }
{
    let mut next = *start;
    for lane in lanes {
        let from = usize::from(lane.from);
        if from < next.len() {
            let leaves = departure(time_at(times, lane.to), lane.transit);
            next[from] = later(next[from], leaves);
        }
    }
    next
}

// For each yard the latest period from which a pallet there can still be at a depot by the horizon, and
// none where that is too late in each.
pub fn latest(horizon: u8, lanes: &[Lane], depots: &[u8]) -> Times
    ensures { (S : Timetable) → Sound S → S.horizon ≡ horizon → S.lanes ≡ lanes.now → S.depots ≡ depots.now → GoUntil S horizon result }
{
    let start = at_depots(horizon, depots);
    let mut times = start;
    for _ in 0..horizon {
        times = by_one_more(lanes, &start, &times);
    }
    times
}
