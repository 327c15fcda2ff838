// A board with the slips of a hand, and the calls made on them.
ghost use Rattle.std.specs.Prelude.{◌<◌};
ghost use Rattle.board_runs.specs.Asks.{add_lane, asked, hold, name_depot, pick_up, quote, set_departure, spend, told};
ghost use Rattle.board_runs.specs.Steps.{Turned, spare_places};

use crate::call::{Answer, Call};
use board::Board;
use ranking::Ranking;
use refusals::Refusal;
use slips::moves::Act;
use slips::refusal::Returned;
use slips::slip::Slip;
use timetable::Lane;

// A board, and the slips in a hand.
pub(crate) struct Desk {
    pub(crate) board: Board,
    pub(crate) hand: Vec<Slip>,
}

impl Desk {
    // Makes one call. The hand has a place for one slip more, which each call may use up; so it is said at each, and is no
    // invariant of a desk.
    pub(crate) fn turn<R: Ranking + Drop>(&mut self, call: Call<R>) -> Answer
        requires { 0 < spare_places self.old }
        ensures { Turned self.old (asked R.meaning call) (told result) self.new }
    {
        match call {
            Call::AddLane { lane, capacity } => self.add_lane(lane, capacity),
            Call::NameDepot { yard } => self.name_depot(yard),
            Call::SetDeparture {
                lane,
                period,
                capacity,
            } => self.set_departure(lane, period, capacity),
            Call::Hold { yard, pallets } => self.hold(yard, pallets),
            Call::PickUp { number } => self.pick_up(number),
            Call::Spend { place, act } => self.spend(place, act),
            Call::Quote {
                ranking,
                figures,
                marks,
            } => self.quote(ranking, figures, marks),
        }
    }

    // A lane is added.
    fn add_lane(&mut self, lane: Lane, capacity: u16) -> Answer
        requires { 0 < spare_places self.old }
        ensures { Turned self.old (add_lane lane capacity) (told result) self.new }
    {
        match self.board.add_lane(lane, capacity) {
            Ok(lane) => Answer::Added { lane },
            Err(why) => Answer::Refused(why),
        }
    }

    // A depot is named.
    fn name_depot(&mut self, yard: u8) -> Answer
        requires { 0 < spare_places self.old }
        ensures { Turned self.old (name_depot yard) (told result) self.new }
    {
        match self.board.name_depot(yard) {
            Ok(order) => Answer::Named { order },
            Err(why) => Answer::Refused(why),
        }
    }

    // The capacity of a departure is set.
    fn set_departure(&mut self, lane: u8, period: u8, capacity: u16) -> Answer
        requires { 0 < spare_places self.old }
        ensures { Turned self.old (set_departure lane period capacity) (told result) self.new }
    {
        match self.board.set_departure(lane, period, capacity) {
            Ok(()) => Answer::Done,
            Err(why) => Answer::Refused(why),
        }
    }

    // A hold: its slip goes to the end of the hand.
    fn hold(&mut self, yard: u8, pallets: u16) -> Answer
        requires { 0 < spare_places self.old }
        ensures { Turned self.old (hold yard pallets) (told result) self.new }
    {
        match self.board.hold(yard, pallets) {
            Ok(slip) => {
                let number = slip.number();
                self.hand.push_reserved(slip);
                Answer::Held { number }
            }
            Err(why) => Answer::Refused(why),
        }
    }

    // A pick-up: the slip goes to the end of the hand.
    fn pick_up(&mut self, number: u16) -> Answer
        requires { 0 < spare_places self.old }
        ensures { Turned self.old (pick_up number) (told result) self.new }
    {
        match self.board.pick_up(number) {
            Ok(slip) => {
                self.hand.push_reserved(slip);
                Answer::Done
            }
            Err(why) => Answer::Refused(why),
        }
    }

    // An act with the slip at a place of the hand. A refused slip goes back to its place.
    fn spend(&mut self, place: usize, act: Act) -> Answer
        requires { 0 < spare_places self.old }
        ensures { Turned self.old (spend place act) (told result) self.new }
    {
        if place >= self.hand.len() {
            return Answer::NoSlip;
        }
        let slip = self.hand.remove(place);
        match self.board.spend(slip, act) {
            Ok(()) => Answer::Done,
            Err(Returned { why: _, slip }) => {
                self.hand.insert(place, slip).unwrap();
                Answer::Refused(Refusal::NotAsNeeded)
            }
        }
    }

    // A quote, in lists that are handed in.
    fn quote<R: Ranking + Drop>(
        &mut self,
        ranking: R,
        mut figures: Vec<u64>,
        mut marks: Vec<u8>,
    ) -> Answer
        requires { 0 < spare_places self.old }
        ensures { Turned self.old (quote (R.meaning ranking) figures.items marks.items) (told result) self.new }
    {
        match self.board.quote(ranking, &mut figures, &mut marks) {
            Ok(()) => Answer::Quoted { figures, marks },
            Err(why) => Answer::NotQuoted {
                why,
                figures,
                marks,
            },
        }
    }
}
