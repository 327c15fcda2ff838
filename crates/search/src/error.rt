// Why a search is not made.
ghost use Rattle.std.specs.Prelude.{Some};
ghost use Rattle.search.specs.Errors.{error_text};

use std::error::Error;
use std::fmt;

// Why a search is not made.
#[derive(Clone, Copy, Debug, PartialEq, Eq)]
pub enum SearchError {
    // more than 1,024 ranks are asked for
    TooManyRanks,
    // there is not a load for each arc
    LoadsTooShort,
    // there is not a mark for each node
    MarksTooShort,
    // there is not a figure for each rank
    FiguresTooShort,
    // a list to work in is too short
    WorkTooShort,
}

impl fmt::Display for SearchError {
    ghost output = { λ e. Some (error_text e) };

    fn fmt<W: fmt::Write>(&self, f: &mut fmt::Formatter<W>) -> fmt::Result {
        f.write_str(match self {
            SearchError::TooManyRanks => "too many ranks",
            SearchError::LoadsTooShort
            | SearchError::MarksTooShort
            | SearchError::FiguresTooShort
            | SearchError::WorkTooShort => "a list is too short",
        })
    }
}

impl Error for SearchError {}
