// How a day network is made.
ghost use Rattle.std.specs.Prelude.{◌≡◌};
ghost use Rattle.std.specs.List.{list_all};
ghost use Rattle.expanded.specs.Made.{Shows, is_within};

use super::DayNetwork;
use crate::schedule::Schedule;
use live_times::LiveTimes;

// The most that can be owed at a depot: 512 holds of 9,999 pallets.
const MOST_OWED: u32 = 5119488;

// Why what is owed is not that of a timetable.
#[derive(Clone, Copy, Debug, PartialEq, Eq)]
pub enum OwedError {
    // there is not a number for each depot
    NotByDepot,
    // more than 5,119,488 are owed at a depot
    TooMuch,
}

// Whether no number is too large.
fn all_within(owed: &[u32]) -> bool
    ensures { result ≡ list_all is_within owed.now }
{
    owed.iter().all(|pallets| *pallets <= MOST_OWED)
}

impl<'a, R: Drop> DayNetwork<'a, R> {
    // The day network of a timetable, of what is owed at each depot, and of a ranking if there is one.
    pub fn new(
        schedule: Schedule<'a>,
        owed: &'a [u32],
        ranking: Option<R>,
    ) -> Result<DayNetwork<'a, R>, OwedError>
        ensures { Shows schedule.entry owed.now ranking result }
    {
        if owed.len() != schedule.depots.len() {
            return Err(OwedError::NotByDepot);
        }
        if !all_within(owed) {
            return Err(OwedError::TooMuch);
        }
        let live = LiveTimes::new(
            schedule.horizon,
            schedule.origin,
            schedule.lanes,
            schedule.depots,
        );
        Ok(DayNetwork {
            schedule,
            owed,
            ranking,
            live,
        })
    }
}
