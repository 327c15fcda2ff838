// Why a call is refused, and what a refused call hands back.
ghost use Rattle.std.specs.Prelude.{◌≡◌};
ghost use Rattle.slips.specs.Refusals.{refusal_number};

use crate::slip::Slip;

// Why a call is refused: every number is given, or the hold does not stand as the call needs.
#[derive(Clone, Copy, Debug, PartialEq, Eq)]
pub enum SlipRefusal {
    NoneLeft,
    NotAsNeeded,
}

impl SlipRefusal {
    // The number that the refusal is known by. (By name: `u8::from(why)` would not say what the number is.)
    pub fn number(self) -> u8
        ensures { result ≡ refusal_number self }
    {
        match self {
            SlipRefusal::NoneLeft => 13,
            SlipRefusal::NotAsNeeded => 17,
        }
    }
}

// A refused call hands its slip back. It cannot be let go, since the slip in it cannot.
pub struct Returned {
    pub why: SlipRefusal,
    pub slip: Slip,
}
