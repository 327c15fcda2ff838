// What can be wrong with a day file, in layers. A fault of a layer holds the fault of the layer below it whole.
ghost use Rattle.std.specs.Prelude.{◌≡◌, Some};
ghost use Rattle.dayfile.specs.declared.fault.RecordFault.TheVariants.{File};
ghost use Rattle.dayfile.specs.Faults.{file_number, file_position, record_layer, record_number, record_position};
ghost use Rattle.dayfile.specs.Texts.{fault_text};

use std::error::Error;
use std::fmt;

// A layer at which a fault is met: the bytes of the file, a record by itself, or the board that a record asks something of.
#[derive(Clone, Copy, Debug, PartialEq, Eq)]
pub enum Layer {
    File,
    Record,
    Board,
}

// Where a fault is met: the number of the record, from 1, and the offset at which the record begins.
// Both are 0 for a fault of the whole file, and no `Option`: so the program prints them.
#[derive(Clone, Copy, Debug, PartialEq, Eq)]
pub struct Position {
    pub nth: usize,
    pub offset: usize,
}

// What can be wrong with the bytes: they begin with no mark, they end within a record, there are too many of them.
#[derive(Clone, Copy, Debug, PartialEq, Eq)]
pub enum FileFault {
    UnknownMark(Position),
    CutShort(Position),
    TooLong,
}

// What can be wrong with a record: its bytes; the name in it; the byte of a quote, which names no ranking; or the time at which it
// comes, before the board is open or, for an opening, after.
#[derive(Clone, Copy, Debug, PartialEq, Eq)]
pub enum RecordFault {
    File(FileFault),
    BadName(Position),
    NoRanking(Position),
    OutOfTurn(Position),
}

impl FileFault {
    // The fault's number. (By name: `u8::from(fault)` would not say what the number is.)
    pub fn number(self) -> u8
        ensures { result ≡ file_number self }
    {
        match self {
            FileFault::UnknownMark(_) => 7,
            FileFault::CutShort(_) => 8,
            FileFault::TooLong => 10,
        }
    }

    // Where the fault was met.
    pub fn position(self) -> Position
        ensures { result ≡ file_position self }
    {
        match self {
            FileFault::UnknownMark(position) | FileFault::CutShort(position) => position,
            FileFault::TooLong => Position { nth: 0, offset: 0 },
        }
    }
}

impl RecordFault {
    // The fault's number. (By name, as that of a fault of the file.)
    pub fn number(self) -> u8
        ensures { result ≡ record_number self }
    {
        match self {
            RecordFault::File(fault) => fault.number(),
            RecordFault::BadName(_) => 9,
            RecordFault::NoRanking(_) => 11,
            RecordFault::OutOfTurn(_) => 19,
        }
    }

    // The layer at which the fault was met.
    pub fn layer(self) -> Layer
        ensures { result ≡ record_layer self }
    {
        match self {
            RecordFault::File(_) => Layer::File,
            RecordFault::BadName(_) | RecordFault::NoRanking(_) | RecordFault::OutOfTurn(_) => {
                Layer::Record
            }
        }
    }

    // Where the fault was met.
    pub fn position(self) -> Position
        ensures { result ≡ record_position self }
    {
        match self {
            RecordFault::File(fault) => fault.position(),
            RecordFault::BadName(position)
            | RecordFault::NoRanking(position)
            | RecordFault::OutOfTurn(position) => position,
        }
    }
}

impl From<FileFault> for RecordFault {
    ghost from_gives = { λ f r. r ≡ File f };

    fn from(fault: FileFault) -> RecordFault {
        RecordFault::File(fault)
    }
}

// A fault as its number, and the offset at which it was met.
impl fmt::Display for RecordFault {
    ghost output = { λ f. Some (fault_text (record_number f) (record_position f)) };

    fn fmt<W: fmt::Write>(&self, f: &mut fmt::Formatter<W>) -> fmt::Result {
        let number = self.number();
        let offset = self.position().offset;
        write!(f, "no {number} at {offset}")
    }
}

// So callers can pass it on by `?` as any error of std.
impl Error for RecordFault {}
