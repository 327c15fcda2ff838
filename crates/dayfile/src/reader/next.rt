// What stands at the reader's offset, and the step to the next record.
ghost use Rattle.std.specs.Prelude.{◌≡◌, ◌+◌, ◌^◌, ◌<◌, length};
ghost use Rattle.dayfile.specs.Reading.{Fresh, Next, OneReading, Within, beginning, here, is_too_long, place_of, seen};
ghost use Rattle.dayfile.specs.Records.{view, well_named};

use crate::fault::{FileFault, Position, RecordFault};
use crate::mark::Mark;
use crate::name::is_name;
use crate::reader::Reader;
use crate::record::{Record, of_fields};

// The most bytes that a day file may have.
const FILE_LIMIT: usize = 32768;

impl<'a> Reader<'a> {
    // A reader at the start of a file.
    pub fn new(file: &'a [u8]) -> Reader<'a>
        ensures { Fresh file.now result }
    {
        Reader {
            file,
            offset: 0,
            count: 0,
        }
    }

    // The number and the offset of the next record.
    pub fn position(&self) -> Position
        ensures { result ≡ place_of self.now }
    {
        Position {
            nth: self.count + 1,
            offset: self.offset,
        }
    }

    // The next record and the offset after it, or `None` at the end of the file.
    fn peek(&self) -> Result<Option<(Record<'a>, usize)>, FileFault>
        ensures stands { seen result ≡ here self.now }
        ensures within { Within self.now.offset (length self.now.file.now) result }
    {
        if is_too_long(self.file) {
            return Err(FileFault::TooLong);
        }
        first(self.position(), &self.file[self.offset..])
    }

    // The next record, or `None` at the end of the file. At a fault and at the end the reader stays where it is.
    pub fn next(&mut self) -> Result<Option<Record<'a>>, RecordFault>
        ensures { Next self.old result self.new }
    {
        let Some((record, next)) = self.peek()? else {
            return Ok(None);
        };
        if !is_well_named(record) {
            return Err(RecordFault::BadName(self.position()));
        }
        self.offset = next;
        self.count += 1;
        Ok(Some(record))
    }
}

// Whether a file has more bytes than a day file may have.
fn is_too_long(file: &[u8]) -> bool
    ensures { result ≡ is_too_long file.now }
{
    file.len() > FILE_LIMIT
}

// The record that the bytes, which stand at the given position of the file, begin with, and the offset after it.
fn first<'a>(position: Position, bytes: &'a [u8]) -> Result<Option<(Record<'a>, usize)>, FileFault>
    requires { position.offset + length bytes.now < 2 ^ 64 }
    ensures begins { seen result ≡ beginning position bytes.now }
    ensures within { Within position.offset (position.offset + length bytes.now) result }
{
    match bytes {
        [] => Ok(None),
        [_] => Err(FileFault::CutShort(position)),
        [a, b, fields @ ..] => {
            let mark = Mark::try_from([*a, *b]).map_err(|_| FileFault::UnknownMark(position))?;
            let at = position.offset + 2;
            let (record, size) = of_fields(mark, at, fields).ok_or(FileFault::CutShort(position))?;
            Ok(Some((record, at + size)))
        }
    }
}

// A file has one reading: the theorem in the contract.
pub fn one_reading()
    ensures { OneReading }
{}

// Whether the record has no name, or one that is as a name should be.
fn is_well_named(found: Record) -> bool
    ensures { result ≡ well_named (view found.entry) }
{
    match found {
        Record::YardName { name, .. } => is_name(name),
        _ => true,
    }
}
