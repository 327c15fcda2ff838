// Questions to roads, which change nothing.
ghost use Rattle.std.specs.Prelude.{◌≡◌, ◌&&◌, length, nat_lt, Some, None, if◌then◌else◌};
ghost use Rattle.timetable.specs.Plans.{departs, is_depot};
ghost use Rattle.expanded.specs.Schedules.{timetable_of};
ghost use Rattle.roads.specs.Grids.{grid_of, timetable};

use super::Roads;
use expanded::Schedule;
use timetable::Lane;

impl Roads {
    // The last period.
    pub fn horizon(&self) -> u8
        ensures { result ≡ (grid_of self.now).horizon }
    {
        self.horizon
    }

    // The yard that sends.
    pub fn origin(&self) -> u8
        ensures { result ≡ (grid_of self.now).origin }
    {
        self.origin
    }

    // The lanes, by their numbers.
    pub fn lanes(&self) -> &[Lane]
        ensures { result.now ≡ (grid_of self.now).lanes }
    {
        &self.lanes
    }

    // The depots in their order.
    pub fn depots(&self) -> &[u8]
        ensures { result.now ≡ (grid_of self.now).depots }
    {
        &self.depots
    }

    // Whether the yard is a depot.
    pub fn is_depot(&self, yard: u8) -> bool
        ensures { result ≡ is_depot (timetable (grid_of self.now)) yard }
    {
        self.depots.contains(&yard)
    }

    // Whether there is such a lane and it departs in the period.
    pub fn departs(&self, lane: u8, period: u8) -> bool
        ensures { result ≡ (nat_lt lane (length (grid_of self.now).lanes) && departs (timetable (grid_of self.now)) lane period) }
    {
        self.lanes.get(usize::from(lane)).is_some_and(|lane| {
            u16::from(period) + u16::from(lane.transit) <= u16::from(self.horizon)
        })
    }

    // The capacity of a departure.
    pub fn capacity(&self, lane: u8, period: u8) -> Option<u16>
        ensures { result ≡ (if nat_lt lane (length (grid_of self.now).lanes) && departs (timetable (grid_of self.now)) lane period then Some ((timetable (grid_of self.now)).capacity lane period) else None) }
    {
        if self.departs(lane, period) {
            Some(self.capacities[lane as usize][period as usize])
        } else {
            None
        }
    }

    // The same as lists that are lent.
    pub fn schedule(&self) -> Schedule<'_>
        ensures { timetable_of result ≡ timetable (grid_of self.now) }
    {
        Schedule {
            horizon: self.horizon,
            origin: self.origin,
            lanes: &self.lanes,
            capacities: &self.capacities,
            depots: &self.depots,
        }
    }
}
