// The day network of a timetable. Its methods are in the module below, since their contracts speak of it.
ghost use Rattle.std.specs.Prelude.{◌≡◌, ℕ, ◌≤◌, length, slice_index};
ghost use Rattle.live_times.specs.Told.{TimesOf};
ghost use Rattle.expanded.specs.Schedules.{timetable_of};

use crate::schedule::Schedule;
use live_times::LiveTimes;

mod answers;
mod making;

pub use making::OwedError;

// What is owed is told depot by depot. Nothing is kept of the timetable but the periods between which its yards are live.
#[derive(Drop)]
pub struct DayNetwork<'a, R> {
    schedule: Schedule<'a>,
    owed: &'a [u32],
    ranking: Option<R>,
    live: LiveTimes,
    ghost counted: { length owed.now ≡ length schedule.depots.now },
    ghost low: { (d : ℕ) → slice_index owed.now d ≤ 5119488 },
    ghost timed: { TimesOf (timetable_of schedule) live },
}
