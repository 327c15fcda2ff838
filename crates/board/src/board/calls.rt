// The calls that change roads, and quotes.
ghost use Rattle.std.specs.Prelude.{◌≡◌, IfOk, false, is_ok, length};
ghost use Rattle.board.specs.States.{plan_on, state_of};
ghost use Rattle.board.specs.Calls.{Adds, Names, Quotes, Sets, Unladen};

use super::Board;
use crate::owing::owed_now;
use ranking::Ranking;
use refusals::Refusal;
use timetable::Lane;

impl Board {
    // Adds a lane, all of whose departures get the capacity, and gives its number. It carries nothing yet.
    pub fn add_lane(&mut self, lane: Lane, capacity: u16) -> Result<u8, Refusal>
        ensures answer { Adds (state_of self.old) lane capacity result (state_of self.new) }
        ensures unladen { IfOk result (Unladen (plan_on self.old) (plan_on self.new)) }
        ensures kept { is_ok result ≡ false → plan_on self.new ≡ plan_on self.old }
    {
        let number = self.roads.add_lane(lane, capacity)?;
        self.loads.clear_lane(number);
        Ok(number)
    }

    // Names a depot, and gives its place in their order.
    pub fn name_depot(&mut self, yard: u8) -> Result<u8, Refusal>
        ensures answer { Names (state_of self.old) yard result (state_of self.new) }
        ensures kept { plan_on self.new ≡ plan_on self.old }
    {
        self.roads.name_depot(yard)
    }

    // Sets the capacity of a departure. Where no plan then delivers all owed, it is as it was.
    pub fn set_departure(&mut self, lane: u8, period: u8, capacity: u16) -> Result<(), Refusal>
        ensures answer { Sets (state_of self.old) lane period capacity result (state_of self.new) }
        ensures kept { is_ok result ≡ false → plan_on self.new ≡ plan_on self.old }
    {
        let had = self.roads.set_capacity(lane, period, capacity)?;
        let found = self
            .loads
            .find_again(&mut self.planner, &self.roads, &self.slips);
        if found.is_err() {
            self.roads.set_capacity(lane, period, had).unwrap();
        }
        found
    }

    // The quote by a ranking: what each rank can still get once all owed is delivered, and the mark of each place, that of the
    // yard y in the period t at y × (horizon + 1) + t.
    pub fn quote<R: Ranking + Drop>(
        &mut self,
        ranking: R,
        figures: &mut [u64],
        marks: &mut [u8],
    ) -> Result<(), Refusal>
        ensures answer { Quotes (state_of self.old) (R.meaning ranking (length (state_of self.old).grid.depots) (state_of self.old).grid.horizon) figures.old figures.new marks.old marks.new result (state_of self.new) }
        ensures kept { plan_on self.new ≡ plan_on self.old }
    {
        let owed = owed_now(&self.roads, &self.slips);
        let depots = self.roads.depots().len();
        let told = self.planner.quote(
            self.roads.schedule(),
            &owed[..depots],
            ranking,
            figures,
            marks,
        );
        // What is owed can be delivered, so only a list can be too short.
        if told.is_err() {
            return Err(Refusal::ListTooShort);
        }
        Ok(())
    }
}
