// How a board is made, and opened again.
ghost use Rattle.std.specs.Prelude.{◌≡◌, IfOk, false, is_ok};
ghost use Rattle.board.specs.States.{fresh, plan_on, state_of};
ghost use Rattle.board.specs.Calls.{Opens};

use super::Board;
use crate::loads::Loads;
use planning::Planner;
use refusals::Refusal;
use roads::Roads;
use slips::table::SlipTable;
use std::alloc::{AllocError, Global};

impl Board {
    // A board that is opened with the horizon 1 and the origin 0. It has all the memory that it will ever need.
    pub fn new(heap: Global) -> Result<Board, AllocError>
        ensures { IfOk result (λ b. state_of b ≡ fresh 1 0) }
    {
        Ok(Board {
            roads: Roads::new(heap)?,
            slips: SlipTable::new(),
            loads: Loads::new(heap)?,
            planner: Planner::new(heap)?,
        })
    }

    // Opens the board afresh, with this horizon and this origin and nothing else.
    pub fn open(&mut self, horizon: u8, origin: u8) -> Result<(), Refusal>
        ensures answer { Opens (state_of self.old) horizon origin result (state_of self.new) }
        ensures kept { is_ok result ≡ false → plan_on self.new ≡ plan_on self.old }
    {
        self.roads.open(horizon, origin)?;
        self.slips = SlipTable::new();
        Ok(())
    }
}
