// What can be asked in a list of slip calls, and what is answered.
use slips::moves::Act;
use slips::refusal::SlipRefusal;

// A request: a hold, a pick-up by number, or an act with the slip at a place of the hand, counted from 0.
#[derive(Clone, Copy, Debug, PartialEq, Eq)]
pub enum Request {
    Hold { depot: u8, pallets: u16 },
    PickUp { number: u16 },
    Give { place: usize, act: Act },
}

// What happened: a hold was accepted with this number, a slip was picked up, the slip with these three numbers was
// spent, the request was refused, or there is no slip at that place. (Three numbers and no slip, since a slip cannot be
// copied; and no struct of them, since a hold, an entry and this answer have other ones of the three.)
#[derive(Clone, Copy, Debug, PartialEq, Eq)]
pub enum Answer {
    Held {
        number: u16,
    },
    PickedUp,
    Spent {
        number: u16,
        depot: u8,
        pallets: u16,
    },
    Refused(SlipRefusal),
    NoSlip,
}
