// The calls on a run sheet.
ghost use Rattle.std.specs.Prelude.{◌≡◌};
ghost use Rattle.board.specs.States.{plan_on, state_of};
ghost use Rattle.run_sheet.specs.Calls.{Lays, Takes};
ghost use Rattle.run_sheet.specs.Sheets.{list_in, loads_in, state_in};

use super::RunSheet;
use crate::laying::{copy_loads, load_count};
use crate::leg::Leg;
use crate::next::take_next;
use board::Board;
use refusals::Refusal;

impl<'a> RunSheet<'a> {
    // Lays the loads of the standing plan out: that of the lane l in the period t is at l × (horizon + 1) + t. A list that is too
    // short is left as it was.
    pub fn lay(board: &'a Board, loads: &'a mut [u32]) -> RunSheet<'a>
        ensures laid { Lays (state_of board.now) (plan_on board.now) loads.old (loads_in result) }
        ensures board { state_in result ≡ state_of board.now }
        ensures same_list { list_in result ≡ loads.entry.ghost_name }
    {
        let count = load_count(board);
        if count <= loads.len() {
            copy_loads(board, &mut loads[..count]);
        }
        RunSheet { board, loads }
    }

    // Takes one run off, writes its legs, and says how many there are; or says that no pallets are left.
    pub fn take_run(&mut self, legs: &mut [Leg]) -> Result<Option<usize>, Refusal>
        ensures answer { Takes (state_in self.old) (loads_in self.old) (loads_in self.new) legs.old legs.new result }
        ensures board { state_in self.new ≡ state_in self.old }
        ensures same_list { list_in self.new ≡ list_in self.old }
    {
        take_next(self.board, self.loads, legs)
    }
}
