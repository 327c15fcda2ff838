// How loads are made, read and found.
ghost use Rattle.std.specs.Prelude.{◌≡◌, ℕ, ◌+◌, ◌<◌, ◌≤◌, length, true, All};
ghost use Rattle.std.specs.List.{list_all};
ghost use Rattle.expanded.specs.Made.{is_within};
ghost use Rattle.roads.specs.Grids.{grid_of};
ghost use Rattle.slips.specs.Holds.{holds};
ghost use Rattle.board.specs.Owing.{owed_by};
ghost use Rattle.board.specs.Planned.{Planned, plan_in};

use super::Loads;
use crate::owing::owed_now;
use planning::Planner;
use refusals::Refusal;
use roads::Roads;
use slips::table::SlipTable;
use std::alloc::{AllocError, Global};

// The departures of 96 lanes in 48 periods.
const MOST_LOADS: usize = 96 * 48;

impl Loads {
    // No loads yet; or memory is wanting.
    pub(crate) fn new(heap: Global) -> Result<Loads, AllocError> {
        Ok(Loads {
            list: vec![in heap; 0u32; MOST_LOADS]?,
        })
    }

    // The load on a lane in a period.
    pub(crate) fn load(&self, lane: u8, period: u8) -> u32
        requires lane { lane < 96 }
        requires period { period < 48 }
        ensures { result ≡ plan_in self.now lane period }
    {
        self.list[lane as usize * 48 + period as usize]
    }

    // Sets all loads of a lane to 0.
    pub(crate) fn clear_lane(&mut self, lane: u8)
        requires { lane < 96 }
        ensures others { (l t : ℕ) → l < lane → t < 48 → plan_in self.new l t ≡ plan_in self.old l t }
        ensures own { (t : ℕ) → t < 48 → plan_in self.new lane t ≡ 0 }
    {
        let first = lane as usize * 48;
        self.list[first..first + 48].fill(0);
    }

    // Looks for a plan that delivers just what is owed. Where there is none, the loads are as they were.
    pub(crate) fn find(
        &mut self,
        planner: &mut Planner,
        roads: &Roads,
        owed: &[u32],
    ) -> Result<(), Refusal>
        requires owed { length owed.now ≡ length (grid_of roads.now).depots }
        requires within { list_all is_within owed.now ≡ true }
        ensures { Planned (grid_of roads.now) owed.now self.old result self.new }
    {
        planner
            .plan(roads.schedule(), owed, &mut self.list)
            .map_err(|_| Refusal::NoPlan)
    }

    // The same for what is owed now.
    pub(crate) fn find_again(
        &mut self,
        planner: &mut Planner,
        roads: &Roads,
        slips: &SlipTable,
    ) -> Result<(), Refusal>
        requires { All (λ e. e.pallets ≤ 9999) (holds slips.now) }
        ensures { Planned (grid_of roads.now) (owed_by (grid_of roads.now).depots (holds slips.now)) self.old result self.new }
    {
        let owed = owed_now(roads, slips);
        let depots = roads.depots().len();
        self.find(planner, roads, &owed[..depots])
    }
}
