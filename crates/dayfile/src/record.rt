// The records of a day file, and how each is made of the bytes after its mark.
ghost use Rattle.std.specs.Prelude.{◌≡◌, ◌+◌, ◌^◌, ◌<◌, length, take, drop, MatchOption};
ghost use Rattle.std.specs.Option.{option_map};
ghost use Rattle.dayfile.specs.declared.mark.Mark.TheVariants.{Yn};
ghost use Rattle.dayfile.specs.Records.{Fielded, Took, byte, mark_of_record, view, word};

use crate::mark::Mark;

#[derive(Clone, Copy, Debug, PartialEq, Eq)]
pub enum Record<'a> {
    // HZ: open the board with this horizon and origin.
    Open {
        horizon: u8,
        origin: u8,
    },
    // YN: name a yard. The name is the part of the file that begins at the offset.
    YardName {
        yard: u8,
        offset: usize,
        name: &'a [u8],
    },
    // LN: add a lane.
    Lane {
        from: u8,
        to: u8,
        transit: u8,
        capacity: u16,
    },
    // DP: name a depot.
    Depot {
        yard: u8,
    },
    // SD: set the capacity of one departure.
    Departure {
        lane: u8,
        period: u8,
        capacity: u16,
    },
    // HD: hold pallets for a depot.
    Hold {
        yard: u8,
        pallets: u16,
    },
    // BK: book the hold of this slip.
    Book {
        slip: u16,
    },
    // RL: release the hold of this slip.
    Release {
        slip: u16,
    },
    // QT: quote by this ranking.
    Quote {
        ranking: u8,
    },
    // RS: lay the run sheet.
    RunSheet,
}

impl Record<'_> {
    // The mark that the record begins with.
    pub fn mark(self) -> Mark
        ensures { result ≡ mark_of_record (view self.entry) }
    {
        match self {
            Record::Open { .. } => Mark::Hz,
            Record::YardName { .. } => Mark::Yn,
            Record::Lane { .. } => Mark::Ln,
            Record::Depot { .. } => Mark::Dp,
            Record::Departure { .. } => Mark::Sd,
            Record::Hold { .. } => Mark::Hd,
            Record::Book { .. } => Mark::Bk,
            Record::Release { .. } => Mark::Rl,
            Record::Quote { .. } => Mark::Qt,
            Record::RunSheet => Mark::Rs,
        }
    }
}

// The bytes after a mark, of which the first `taken` were read. (Counted, and not the rest of the bytes alone: how many were
// taken is the size of the record.)
#[derive(Drop)]
struct Fields<'a> {
    bytes: &'a [u8],
    taken: usize,
}

impl<'a> Fields<'a> {
    // The next byte.
    fn byte(&mut self) -> Option<u8>
        ensures { MatchOption result
            (length self.old.bytes.now < self.old.taken + 1)
            (λ b. (b ≡ byte self.old.bytes.now self.old.taken) × Took 1 self.old self.new) }
    {
        let byte = *self.bytes.get(self.taken)?;
        self.taken += 1;
        Some(byte)
    }

    // The next two bytes as a number, the more significant first.
    fn word(&mut self) -> Option<u16>
        ensures { MatchOption result
            (length self.old.bytes.now < self.old.taken + 2)
            (λ w. (w ≡ word self.old.bytes.now self.old.taken) × Took 2 self.old self.new) }
    {
        Some(u16::from_be_bytes([self.byte()?, self.byte()?]))
    }

    // The next bytes, as many as asked.
    fn part(&mut self, len: usize) -> Option<&'a [u8]>
        ensures { MatchOption result
            (length self.old.bytes.now < self.old.taken + len)
            (λ s. (s.now ≡ take len (drop self.old.taken self.old.bytes.now)) × Took len self.old self.new) }
    {
        let part = self.bytes.get(self.taken..)?.get(..len)?;
        self.taken += len;
        Some(part)
    }

    // The record of the mark YN, whose first field stands at offset `at` of the file.
    fn yard_name(&mut self, at: usize) -> Option<Record<'a>>
        requires start { self.old.taken ≡ 0 }
        requires fits { at + length self.old.bytes.now < 2 ^ 64 }
        ensures { Fielded Yn at self.old.bytes.now (option_map (λ x. (x, self.new.taken)) result) }
    {
        let yard = self.byte()?;
        let len = usize::from(self.byte()?);
        Some(Record::YardName {
            yard,
            offset: at + self.taken,
            name: self.part(len)?,
        })
    }

    // The record of a mark, whose first field stands at offset `at` of the file.
    fn record(&mut self, mark: Mark, at: usize) -> Option<Record<'a>>
        requires start { self.old.taken ≡ 0 }
        requires fits { at + length self.old.bytes.now < 2 ^ 64 }
        ensures { Fielded mark at self.old.bytes.now (option_map (λ x. (x, self.new.taken)) result) }
    {
        match mark {
            Mark::Hz => Some(Record::Open {
                horizon: self.byte()?,
                origin: self.byte()?,
            }),
            Mark::Yn => self.yard_name(at),
            Mark::Ln => Some(Record::Lane {
                from: self.byte()?,
                to: self.byte()?,
                transit: self.byte()?,
                capacity: self.word()?,
            }),
            Mark::Dp => Some(Record::Depot { yard: self.byte()? }),
            Mark::Sd => Some(Record::Departure {
                lane: self.byte()?,
                period: self.byte()?,
                capacity: self.word()?,
            }),
            Mark::Hd => Some(Record::Hold {
                yard: self.byte()?,
                pallets: self.word()?,
            }),
            Mark::Bk => Some(Record::Book { slip: self.word()? }),
            Mark::Rl => Some(Record::Release { slip: self.word()? }),
            Mark::Qt => Some(Record::Quote {
                ranking: self.byte()?,
            }),
            Mark::Rs => Some(Record::RunSheet),
        }
    }
}

// The record that a mark and the bytes after it, at offset `at`, begin with, and how many of these bytes are its fields.
pub(crate) fn of_fields<'a>(mark: Mark, at: usize, bytes: &'a [u8]) -> Option<(Record<'a>, usize)>
    requires { at + length bytes.now < 2 ^ 64 }
    ensures { Fielded mark at bytes.now result }
{
    let mut fields = Fields { bytes, taken: 0 };
    let record = fields.record(mark, at)?;
    Some((record, fields.taken))
}
