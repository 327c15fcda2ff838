// Why there is no plan, and why there is no quote.
ghost use Rattle.std.specs.Prelude.{◌≡◌};
ghost use Rattle.planning.specs.declared.error.PlanError.TheVariants as plan;
ghost use Rattle.planning.specs.declared.error.QuoteError.TheVariants as quote;

use expanded::OwedError;

// Why there is no plan.
#[derive(Clone, Copy, Debug, PartialEq, Eq)]
pub enum PlanError {
    // what is owed is not that of the timetable
    Owed(OwedError),
    // there is not a load for each lane and each of 48 periods
    PlanTooShort,
    // no feasible plan delivers all owed
    Unservable,
}

// Why there is no quote.
#[derive(Clone, Copy, Debug, PartialEq, Eq)]
pub enum QuoteError {
    // what is owed is not that of the timetable
    Owed(OwedError),
    // there is not a figure for each rank, or not a mark for each of 32 yards and each period
    ListTooShort,
    // no feasible plan delivers all owed
    Unservable,
}

impl From<OwedError> for PlanError {
    ghost from_gives = { λ a e. e ≡ plan.Owed a };

    fn from(error: OwedError) -> PlanError {
        PlanError::Owed(error)
    }
}

impl From<OwedError> for QuoteError {
    ghost from_gives = { λ a e. e ≡ quote.Owed a };

    fn from(error: OwedError) -> QuoteError {
        QuoteError::Owed(error)
    }
}
