// The calls on the times of a timetable.
ghost use Rattle.std.specs.Prelude.{◌≡◌};
ghost use Rattle.timetable.specs.Plans.{Timetable, Sound};
ghost use Rattle.timetable.specs.Live.{is_live};
ghost use Rattle.live_times.specs.Told.{TimesOf};

use crate::arrival::earliest;
use crate::departure::latest;
use crate::live::LiveTimes;
use crate::times::{is_between, time_at};
use timetable::Lane;

impl LiveTimes {
    // The times of a timetable with this horizon and origin, these lanes and these depots.
    pub fn new(horizon: u8, origin: u8, lanes: &[Lane], depots: &[u8]) -> LiveTimes
        ensures { (S : Timetable) → Sound S → S.horizon ≡ horizon → S.origin ≡ origin → S.lanes ≡ lanes.now → S.depots ≡ depots.now → TimesOf S result }
    {
        LiveTimes {
            come: earliest(horizon, origin, lanes),
            leave: latest(horizon, lanes, depots),
        }
    }

    // Whether a yard is live in a period.
    pub fn is_live(&self, yard: u8, period: u8) -> bool
        ensures { (S : Timetable) → TimesOf S self.now → result ≡ is_live S yard period }
    {
        let first = time_at(&self.come, yard);
        let last = time_at(&self.leave, yard);
        is_between(first, last, period)
    }
}
