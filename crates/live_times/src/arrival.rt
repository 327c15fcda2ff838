// From which period on a pallet can be at a yard.
ghost use Rattle.std.specs.Prelude.{◌≡◌, ℕ, ◌-◌, ◌<◌, ◌≤◌, ◌==◌, ◌&&◌, ◌||◌, length, nat_le};
ghost use Rattle.timetable.specs.Plans.{Timetable, Sound, some_below};
ghost use Rattle.live_times.specs.Times.{by, time_of, brings, ComeFrom};

use crate::times::{Times, earlier, no_times, time_at};
use timetable::Lane;

// When a pallet arrives that leaves at a time: none past the horizon.
fn arrival(leaves: Option<u8>, transit: u8, horizon: u8) -> Option<u8>
    ensures { (t : ℕ) → t ≤ horizon → by result t ≡ (nat_le transit t && by leaves (t - transit)) }
{
    match leaves?.checked_add(transit) {
        Some(arrives) if arrives <= horizon => Some(arrives),
        _ => None,
    }
}

// No time but at the origin, which is reached at once.
fn at_origin(origin: u8) -> Times
    ensures { (y t : ℕ) → y < 32 → by (time_of result y) t ≡ (y == origin) }
{
    let mut times = no_times();
    let origin = usize::from(origin);
    if origin < times.len() {
        times[origin] = Some(0);
    }
    times
}

// The times by one more lane than `times`, or by none from the start. (A lane to a yard past the last is left out.)
fn by_one_more(horizon: u8, lanes: &[Lane], start: &Times, times: &Times) -> Times
    ensures { (y t : ℕ) → y < 32 → t ≤ horizon → by (time_of result y) t ≡ (by (time_of start.now y) t || some_below (length lanes.now) (brings lanes.now times.now y t)) }
{
    let mut next = *start;
    for lane in lanes {
        let to = usize::from(lane.to);
        if to < next.len() {
            let arrives = arrival(time_at(times, lane.from), lane.transit, horizon);
            next[to] = earlier(next[to], arrives);
        }
    }
    next
}

// For each yard the earliest period at which a pallet from the origin can be there, and none where that
// is past the horizon. (Each lane takes a period, so as many rounds as there are periods are enough.)
pub fn earliest(horizon: u8, origin: u8, lanes: &[Lane]) -> Times
    ensures { (S : Timetable) → Sound S → S.horizon ≡ horizon → S.origin ≡ origin → S.lanes ≡ lanes.now → ComeFrom S horizon result }
{
    let start = at_origin(origin);
    let mut times = start;
    for _ in 0..horizon {
        times = by_one_more(horizon, lanes, &start, &times);
    }
    times
}
