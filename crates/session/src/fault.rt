// Why a record of a day is turned away: it has a fault by itself, or the board refuses what it asks.
ghost use Rattle.std.specs.Prelude.{◌≡◌};
ghost use Rattle.session.specs.declared.fault.DayFault.TheVariants.{Record};
ghost use Rattle.session.specs.Faults.{day_layer, day_number, day_position};

use dayfile::fault::{Layer, Position, RecordFault};
use refusals::Refusal;

// A record's fault holds its position. A board knows of no file, so its refusal gets the position of the record here.
#[derive(Clone, Copy, Debug, PartialEq, Eq)]
pub enum DayFault {
    Record(RecordFault),
    Board { why: Refusal, at: Position },
}

impl DayFault {
    // The fault's number. (By name: `u8::from(fault)` would not say what the number is.)
    pub fn number(self) -> u8
        ensures { result ≡ day_number self }
    {
        match self {
            DayFault::Record(fault) => fault.number(),
            DayFault::Board { why, .. } => why.number(),
        }
    }

    // The layer at which the fault was met.
    pub fn layer(self) -> Layer
        ensures { result ≡ day_layer self }
    {
        match self {
            DayFault::Record(fault) => fault.layer(),
            DayFault::Board { .. } => Layer::Board,
        }
    }

    // Where the fault was met.
    pub fn position(self) -> Position
        ensures { result ≡ day_position self }
    {
        match self {
            DayFault::Record(fault) => fault.position(),
            DayFault::Board { at, .. } => at,
        }
    }
}

impl From<RecordFault> for DayFault {
    ghost from_gives = { λ f r. r ≡ Record f };

    fn from(fault: RecordFault) -> DayFault {
        DayFault::Record(fault)
    }
}
