// What is wrong with lists of arcs and ranks, in words.
ghost use Rattle.std.specs.Prelude.{Some};
ghost use Rattle.network.specs.Faults.{fault_text};

use super::NetworkError;
use std::error::Error;
use std::fmt;

impl fmt::Display for NetworkError {
    ghost output = { λ e. Some (fault_text e) };

    fn fmt<W: fmt::Write>(&self, f: &mut fmt::Formatter<W>) -> fmt::Result {
        f.write_str(match self {
            NetworkError::TooManyNodes => "too many nodes",
            NetworkError::TooManyArcs => "too many arcs",
            NetworkError::SourceIsNoNode => "the source is no node",
            NetworkError::SourceHasRank => "the source has a rank",
            NetworkError::EndIsNoNode => "an end is no node",
            NetworkError::CapacityTooLarge => "a capacity is too large",
            NetworkError::RankTooHigh => "a rank is too high",
        })
    }
}

impl Error for NetworkError {}
