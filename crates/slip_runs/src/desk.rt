// A table with the slips of a hand, and the requests made on them.
ghost use Rattle.std.specs.Prelude.{◌<◌};
ghost use Rattle.slip_runs.specs.declared.request.Request.TheVariants.{Hold, PickUp, Give};
ghost use Rattle.slip_runs.specs.Rules.{Turned, spare_places};

use crate::request::{Answer, Request};
use slips::moves::Act;
use slips::refusal::Returned;
use slips::slip::Slip;
use slips::table::SlipTable;

// A table, and the slips in a hand.
pub(crate) struct Desk {
    pub(crate) table: SlipTable,
    pub(crate) hand: Vec<Slip>,
}

impl Desk {
    // Makes one request. The hand has a place for one slip more, which each request may use up; so it is said at each, and is no
    // invariant of a desk.
    // By a match: each request has values of its own, which a table of functions could not hand on.
    pub(crate) fn turn(&mut self, request: Request) -> Answer
        requires { 0 < spare_places self.old }
        ensures { Turned self.old request result self.new }
    {
        match request {
            Request::Hold { depot, pallets } => self.hold(depot, pallets),
            Request::PickUp { number } => self.pick_up(number),
            Request::Give { place, act } => self.give(place, act),
        }
    }

    // A hold: its slip goes to the end of the hand.
    fn hold(&mut self, depot: u8, pallets: u16) -> Answer
        requires { 0 < spare_places self.old }
        ensures { Turned self.old (Hold depot pallets) result self.new }
    {
        match self.table.hold(depot, pallets) {
            Ok(slip) => {
                let number = slip.number();
                self.hand.push_reserved(slip);
                Answer::Held { number }
            }
            Err(why) => Answer::Refused(why),
        }
    }

    // A pick-up: the slip goes to the end of the hand.
    fn pick_up(&mut self, number: u16) -> Answer
        requires { 0 < spare_places self.old }
        ensures { Turned self.old (PickUp number) result self.new }
    {
        match self.table.pick_up(number) {
            Ok(slip) => {
                self.hand.push_reserved(slip);
                Answer::PickedUp
            }
            Err(why) => Answer::Refused(why),
        }
    }

    // An act with the slip at a place of the hand. A refused slip goes back to its place.
    fn give(&mut self, place: usize, act: Act) -> Answer
        requires { 0 < spare_places self.old }
        ensures { Turned self.old (Give place act) result self.new }
    {
        if place >= self.hand.len() {
            return Answer::NoSlip;
        }
        let slip = self.hand.remove(place);
        let spent = Answer::Spent {
            number: slip.number(),
            depot: slip.depot(),
            pallets: slip.pallets(),
        };
        match self.table.spend(slip, act) {
            Ok(()) => spent,
            Err(Returned { why, slip }) => {
                self.hand.insert(place, slip).unwrap();
                Answer::Refused(why)
            }
        }
    }
}
