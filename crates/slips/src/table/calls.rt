// The calls on a table of holds.
ghost use Rattle.std.specs.Prelude.{◌≡◌, ◌<◌, ◌≤◌, [], length, IsSome, slice_get, slice_set};
ghost use Rattle.slips.specs.declared.slip.Slip.{Slip};
ghost use Rattle.slips.specs.declared.moves.Act.TheVariants.{TearUp};
ghost use Rattle.slips.specs.declared.moves.SlipCall.TheVariants.{Spend};
ghost use Rattle.slips.specs.Holds.{holds, state_of, standing_of, stands_for, entry_of, Held, Spent, PickedUp};
ghost use Rattle.slips.specs.Owed.{owes, owed_at, OwedLaws};
ghost use Rattle.slips.specs.Slips.{most_holds};

use crate::moves::{Act, Move, SlipCall, SlipState, decide};
use crate::refusal::{Returned, SlipRefusal};
use crate::slip::Slip;
use crate::table::{CAPACITY, Entry, SlipTable};

impl Entry {
    // Where the hold stands for a slip of its number: nowhere unless depot and pallets agree.
    fn stands_for(self, slip: &Slip) -> Option<SlipState>
        ensures { result ≡ stands_for slip.now self }
    {
        let agrees = slip.depot() == self.depot && slip.pallets() == self.pallets;
        agrees.then_some(self.state)
    }

    // What the hold adds to what is owed at a depot.
    fn owes(self, depot: u8) -> u16
        ensures { result ≡ owes depot self }
    {
        if self.depot == depot && self.state != SlipState::Released {
            self.pallets
        } else {
            0
        }
    }
}

impl SlipTable {
    // A table with no hold.
    #[tactic(auto, unfolding(crate::specs::Holds::holds))]
    pub fn new() -> SlipTable
        ensures { holds result ≡ [] }
    {
        let unused = Entry {
            depot: 0,
            pallets: 0,
            state: SlipState::InHand,
        };
        SlipTable {
            entries: [unused; CAPACITY],
            count: 0,
        }
    }

    // The holds accepted so far.
    #[tactic(auto, unfolding(crate::specs::Holds::holds))]
    fn listed(&self) -> &[Entry]
        ensures holds { result.now ≡ holds self.now }
        ensures few { length result.now ≤ most_holds }
    {
        &self.entries[..usize::from(self.count)]
    }

    // How many holds were accepted.
    #[tactic(auto, using(crate::proofs::Tables::counted))]
    pub fn count(&self) -> u16
        ensures { result ≡ length (holds self.now) }
    {
        self.count
    }

    // The hold of a number.
    fn find(&self, number: u16) -> Option<Entry>
        ensures { result ≡ slice_get (holds self.now) number }
    {
        self.listed().get(usize::from(number)).copied()
    }

    // Where the hold of a number stands; `None` where the number was never given.
    pub fn state_of(&self, number: u16) -> Option<SlipState>
        ensures { result ≡ state_of (holds self.now) number }
    {
        self.find(number).map(|entry| entry.state)
    }

    // Where the hold of a slip stands; `None` unless the table has all three of its numbers.
    pub fn standing(&self, slip: &Slip) -> Option<SlipState>
        ensures { result ≡ standing_of (holds self.now) slip.now }
    {
        self.find(slip.number())
            .and_then(|entry| entry.stands_for(slip))
    }

    // Accepts a hold, and gives its slip: the next number, while one is left.
    pub fn hold(&mut self, depot: u8, pallets: u16) -> Result<Slip, SlipRefusal>
        ensures { Held self.old depot pallets result self.new }
    {
        // Numbers are cast where they index: `usize::from` is a call, and each index then known by an equation alone.
        let number = self.count;
        if number as usize >= CAPACITY {
            return Err(SlipRefusal::NoneLeft);
        }
        self.entries[number as usize] = Entry {
            depot,
            pallets,
            state: SlipState::InHand,
        };
        self.count += 1;
        Ok(Slip::new(number, depot, pallets))
    }

    // Has the hold of a number stand so.
    fn stand(&mut self, number: u16, state: SlipState)
        requires { number < length (holds self.old) }
        ensures { (s : Slip) → s.number ≡ number → IsSome (standing_of (holds self.old) s) → holds self.new ≡ slice_set (holds self.old) number (entry_of s state) }
    {
        self.entries[number as usize].state = state;
    }

    // Gives up a slip, to have this done with it. A tear-up leaves the table as it was.
    pub fn spend(&mut self, slip: Slip, act: Act) -> Result<(), Returned>
        ensures answer { Spent (Spend act) self.old slip result self.new }
        ensures same { act ≡ TearUp → self.new ≡ self.old }
    {
        match decide(self.standing(&slip), SlipCall::Spend(act)) {
            Move::To(state) => {
                self.stand(slip.end(), state);
                Ok(())
            }
            Move::Stay => {
                slip.end();
                Ok(())
            }
            Move::Refused => Err(Returned {
                why: SlipRefusal::NotAsNeeded,
                slip,
            }),
        }
    }

    // Takes down the slip of a pinned hold.
    pub fn pick_up(&mut self, number: u16) -> Result<Slip, SlipRefusal>
        ensures { PickedUp self.old number result self.new }
    {
        let present = self.state_of(number);
        match (decide(present, SlipCall::PickUp), self.find(number)) {
            (Move::To(state), Some(entry)) => {
                self.stand(number, state);
                Ok(Slip::new(number, entry.depot, entry.pallets))
            }
            _ => Err(SlipRefusal::NotAsNeeded),
        }
    }

    // How many pallets are owed at a depot.
    pub fn owed(&self, depot: u8) -> u32
        ensures value { result ≡ owed_at depot (holds self.now) }
        ensures laws { OwedLaws }
    {
        self.listed()
            .iter()
            .map(|entry| u32::from(entry.owes(depot)))
            .sum()
    }
}
