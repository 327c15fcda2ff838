// What can be called in a list, and what is answered.
use refusals::Refusal;
use slips::moves::Act;
use timetable::Lane;

// A call: those of a board, where a slip is that at a place of the hand, counted from 0, and a quote is lent its lists.
#[derive(Drop)]
pub enum Call<R> {
    AddLane {
        lane: Lane,
        capacity: u16,
    },
    NameDepot {
        yard: u8,
    },
    SetDeparture {
        lane: u8,
        period: u8,
        capacity: u16,
    },
    Hold {
        yard: u8,
        pallets: u16,
    },
    PickUp {
        number: u16,
    },
    Spend {
        place: usize,
        act: Act,
    },
    Quote {
        ranking: R,
        figures: Vec<u64>,
        marks: Vec<u8>,
    },
}

// What a call got: a lane its number, a depot its place in their order, a hold its slip's number, a quote its lists, the others
// no more than that they were done; or the call was refused, and a quote's lists came back; or there is no slip at that place.
#[derive(Drop)]
pub enum Answer {
    Added {
        lane: u8,
    },
    Named {
        order: u8,
    },
    Held {
        number: u16,
    },
    Done,
    Quoted {
        figures: Vec<u64>,
        marks: Vec<u8>,
    },
    Refused(Refusal),
    NotQuoted {
        why: Refusal,
        figures: Vec<u64>,
        marks: Vec<u8>,
    },
    NoSlip,
}
