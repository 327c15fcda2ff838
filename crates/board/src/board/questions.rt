// Questions to a board, which change nothing.
ghost use Rattle.std.specs.Prelude.{◌≡◌};
ghost use Rattle.slips.specs.Holds.{state_of};
ghost use Rattle.slips.specs.Owed.{owed_at};
ghost use Rattle.board.specs.Questions.{capacity_told, load_told};
ghost use Rattle.lane_network.specs.Lanes.{Rate};
ghost use Rattle.board.specs.States.{day, plan_on};
ghost use Rattle.board.specs.States as states;

use super::Board;
use lane_network::standing_rate;
use slips::moves::SlipState;
use timetable::Lane;

impl Board {
    // The last period.
    pub fn horizon(&self) -> u8
        ensures { result ≡ (states.state_of self.now).grid.horizon }
    {
        self.roads.horizon()
    }

    // The yard that sends.
    pub fn origin(&self) -> u8
        ensures { result ≡ (states.state_of self.now).grid.origin }
    {
        self.roads.origin()
    }

    // The lanes, by their numbers.
    pub fn lanes(&self) -> &[Lane]
        ensures { result.now ≡ (states.state_of self.now).grid.lanes }
    {
        self.roads.lanes()
    }

    // The depots in their order.
    pub fn depots(&self) -> &[u8]
        ensures { result.now ≡ (states.state_of self.now).grid.depots }
    {
        self.roads.depots()
    }

    // The capacity of a departure; `None` where there is none.
    pub fn capacity(&self, lane: u8, period: u8) -> Option<u16>
        ensures { result ≡ capacity_told (states.state_of self.now) lane period }
    {
        self.roads.capacity(lane, period)
    }

    // The load of a departure in the standing plan; `None` where there is none.
    pub fn load(&self, lane: u8, period: u8) -> Option<u32>
        ensures { result ≡ load_told (states.state_of self.now) (plan_on self.now) lane period }
    {
        if self.roads.departs(lane, period) {
            Some(self.loads.load(lane, period))
        } else {
            None
        }
    }

    // How many pallets are owed at a yard.
    pub fn owed(&self, yard: u8) -> u32
        ensures { result ≡ owed_at yard (states.state_of self.now).holds }
    {
        self.slips.owed(yard)
    }

    // Where the hold of a number stands; `None` where the number was never given.
    pub fn slip_state(&self, number: u16) -> Option<SlipState>
        ensures { result ≡ state_of (states.state_of self.now).holds number }
    {
        self.slips.state_of(number)
    }

    // The standing rate: the most pallets that the lanes can bring from the origin to all depots in each period, where each lane
    // takes as many as in its smallest departure.
    pub fn standing_rate(&self) -> u64
        ensures { Rate (day (states.state_of self.now)) result }
    {
        standing_rate(self.roads.schedule())
    }
}
