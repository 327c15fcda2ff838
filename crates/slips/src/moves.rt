// Where a hold can stand, the calls on it, and what each call makes of it.
ghost use Rattle.std.specs.Prelude.{◌≡◌};
ghost use Rattle.slips.specs.Moves.{becomes};

// Where an accepted hold stands: its slip is out in a seller's hand; its slip is pinned up, to be picked up by number; it
// is booked; it is released. Once booked or released, it stays so.
#[derive(Clone, Copy, Debug, PartialEq, Eq)]
pub enum SlipState {
    InHand,
    Pinned,
    Booked,
    Released,
}

// What is done with a slip.
#[derive(Clone, Copy, Debug, PartialEq, Eq)]
pub enum Act {
    Pin,
    Book,
    Release,
    TearUp,
}

// A call on a hold that was accepted: its slip is picked up, by the hold's number, or is spent.
#[derive(Clone, Copy, Debug, PartialEq, Eq)]
pub enum SlipCall {
    PickUp,
    Spend(Act),
}

// What a call makes of a hold: it comes to stand so, it stays as it was, or the call is refused.
// Named as the table of moves reads: `Result<Option<SlipState>, SlipRefusal>` is no plainer, `Ok(None)` being `Stay`.
#[derive(Clone, Copy, Debug, PartialEq, Eq)]
pub enum Move {
    To(SlipState),
    Stay,
    Refused,
}

// What a call makes of a hold that stands so at present, or of a slip that the table does not have (`None`).
pub(crate) fn decide(present: Option<SlipState>, call: SlipCall) -> Move
    ensures { result ≡ becomes call present }
{
    match (present, call) {
        (Some(SlipState::InHand), SlipCall::Spend(Act::Pin)) => Move::To(SlipState::Pinned),
        (Some(SlipState::Pinned), SlipCall::PickUp) => Move::To(SlipState::InHand),
        (Some(SlipState::InHand), SlipCall::Spend(Act::Book)) => Move::To(SlipState::Booked),
        (Some(SlipState::InHand), SlipCall::Spend(Act::Release)) => Move::To(SlipState::Released),
        (
            Some(SlipState::Pinned | SlipState::Booked | SlipState::Released) | None,
            SlipCall::Spend(Act::TearUp),
        ) => Move::Stay,
        _ => Move::Refused,
    }
}
