// Marks: the two letters that each record begins with.
ghost use Rattle.std.specs.Prelude.{Some};
ghost use Rattle.dayfile.specs.Marks.{ReadsMark, letters};

use std::fmt;

#[derive(Clone, Copy, Debug, PartialEq, Eq)]
pub enum Mark {
    Hz,
    Yn,
    Ln,
    Dp,
    Sd,
    Hd,
    Bk,
    Rl,
    Qt,
    Rs,
}

// Two bytes that are the letters of no mark.
#[derive(Clone, Copy, Debug, PartialEq, Eq)]
pub struct NoMark(pub [u8; 2]);

// The mark with these letters, if there is one.
impl TryFrom<[u8; 2]> for Mark {
    type Error = NoMark;

    ghost try_from_gives = { ReadsMark };

    fn try_from(letters: [u8; 2]) -> Result<Mark, NoMark> {
        match &letters {
            b"HZ" => Ok(Mark::Hz),
            b"YN" => Ok(Mark::Yn),
            b"LN" => Ok(Mark::Ln),
            b"DP" => Ok(Mark::Dp),
            b"SD" => Ok(Mark::Sd),
            b"HD" => Ok(Mark::Hd),
            b"BK" => Ok(Mark::Bk),
            b"RL" => Ok(Mark::Rl),
            b"QT" => Ok(Mark::Qt),
            b"RS" => Ok(Mark::Rs),
            _ => Err(NoMark(letters)),
        }
    }
}

// A mark as its letters.
impl fmt::Display for Mark {
    ghost output = { λ m. Some (letters m) };

    fn fmt<W: fmt::Write>(&self, f: &mut fmt::Formatter<W>) -> fmt::Result {
        match *self {
            Mark::Hz => write!(f, "HZ"),
            Mark::Yn => write!(f, "YN"),
            Mark::Ln => write!(f, "LN"),
            Mark::Dp => write!(f, "DP"),
            Mark::Sd => write!(f, "SD"),
            Mark::Hd => write!(f, "HD"),
            Mark::Bk => write!(f, "BK"),
            Mark::Rl => write!(f, "RL"),
            Mark::Qt => write!(f, "QT"),
            Mark::Rs => write!(f, "RS"),
        }
    }
}
