// Holds and their slips.
ghost use Rattle.std.specs.Prelude.{◌≡◌, ◌≢◌, false, is_ok};
ghost use Rattle.slips.specs.declared.moves.Act.TheVariants.{Release};
ghost use Rattle.board.specs.States.{plan_on, state_of};
ghost use Rattle.board.specs.Calls.{Checked, Holds, PicksUp, Spends};
ghost use Rattle.board.specs.Rules.{holding_checks};

use super::Board;
use crate::owing::owed_with;
use refusals::Refusal;
use slips::moves::Act;
use slips::refusal::Returned;
use slips::slip::Slip;
use slips::table::CAPACITY;
use timetable::LAST_YARD;

// The most pallets of a hold.
const MOST_PALLETS: u16 = 9999;

impl Board {
    // Tries the rules of a hold, but for the search.
    fn check_hold(&self, yard: u8, pallets: u16) -> Result<(), Refusal>
        ensures { Checked (holding_checks (state_of self.now) yard pallets) result }
    {
        if yard > LAST_YARD {
            Err(Refusal::BadYard)
        } else if pallets < 1 || pallets > MOST_PALLETS {
            Err(Refusal::BadPallets)
        } else if self.slips.count() as usize >= CAPACITY {
            Err(Refusal::NoneLeft)
        } else if !self.roads.is_depot(yard) {
            Err(Refusal::NoDepot)
        } else {
            Ok(())
        }
    }

    // Holds pallets for a depot, and gives the slip.
    pub fn hold(&mut self, yard: u8, pallets: u16) -> Result<Slip, Refusal>
        ensures answer { Holds (state_of self.old) yard pallets result (state_of self.new) }
        ensures kept { is_ok result ≡ false → plan_on self.new ≡ plan_on self.old }
    {
        self.check_hold(yard, pallets)?;
        let owed = owed_with(&self.roads, &self.slips, yard, pallets);
        let depots = self.roads.depots().len();
        let found = self
            .loads
            .find(&mut self.planner, &self.roads, &owed[..depots]);
        if found.is_err() {
            return Err(Refusal::NoPlan);
        }
        Ok(self.slips.hold(yard, pallets).unwrap())
    }

    // Gives up a slip, to have this done with it. A refusal hands it back.
    pub fn spend(&mut self, slip: Slip, act: Act) -> Result<(), Returned>
        ensures answer { Spends (state_of self.old) slip act result (state_of self.new) }
        ensures kept { act ≢ Release → plan_on self.new ≡ plan_on self.old }
        ensures refused { is_ok result ≡ false → plan_on self.new ≡ plan_on self.old }
    {
        let spent = self.slips.spend(slip, act);
        if spent.is_ok() && act == Act::Release {
            // With less owed there is still a plan.
            self.loads
                .find_again(&mut self.planner, &self.roads, &self.slips)
                .unwrap();
        }
        spent
    }

    // Takes down the slip of a pinned hold.
    pub fn pick_up(&mut self, number: u16) -> Result<Slip, Refusal>
        ensures answer { PicksUp (state_of self.old) number result (state_of self.new) }
        ensures kept { plan_on self.new ≡ plan_on self.old }
    {
        self.slips.pick_up(number).map_err(|_| Refusal::NotAsNeeded)
    }
}
