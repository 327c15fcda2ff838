// What can end the lines of a day before its file ends.
ghost use Rattle.std.specs.Prelude.{◌≡◌};
ghost use Rattle.lines.specs.declared.ending.Ending.TheVariants.{Fault, Memory};

use dayfile::fault::RecordFault;
use std::alloc::AllocError;

// No record can be read from here on, or there is no memory left.
#[derive(Clone, Copy, Debug, PartialEq, Eq)]
pub enum Ending {
    Fault(RecordFault),
    Memory(AllocError),
}

impl From<RecordFault> for Ending {
    ghost from_gives = { λ f r. r ≡ Fault f };

    fn from(fault: RecordFault) -> Ending {
        Ending::Fault(fault)
    }
}

impl From<AllocError> for Ending {
    ghost from_gives = { λ e r. r ≡ Memory e };

    fn from(error: AllocError) -> Ending {
        Ending::Memory(error)
    }
}
