// Why no trial is read.
ghost use Rattle.std.specs.Prelude.{◌≡◌};
ghost use Rattle.search_trial.specs.Errors.{error_text};
ghost use Rattle.search_trial.specs.declared.trial.error.TrialError.TheVariants.{NoNetwork, OutOfMemory};

use network::NetworkError;
use std::alloc::AllocError;
use std::error::Error;
use std::fmt;

#[derive(Clone, Copy, Debug, PartialEq, Eq)]
pub enum TrialError {
    // memory ran out
    OutOfMemory(AllocError),
    // the numbers make no network
    NoNetwork(NetworkError),
}

impl From<AllocError> for TrialError {
    ghost from_gives = { λ a e. e ≡ OutOfMemory a };

    fn from(memory: AllocError) -> TrialError {
        TrialError::OutOfMemory(memory)
    }
}

impl From<NetworkError> for TrialError {
    ghost from_gives = { λ f e. e ≡ NoNetwork f };

    fn from(error: NetworkError) -> TrialError {
        TrialError::NoNetwork(error)
    }
}

impl fmt::Display for TrialError {
    ghost output = { error_text };

    fn fmt<W: fmt::Write>(&self, f: &mut fmt::Formatter<W>) -> fmt::Result {
        match self {
            TrialError::OutOfMemory(error) => write!(f, "{error}"),
            TrialError::NoNetwork(fault) => write!(f, "{fault}"),
        }
    }
}

impl Error for TrialError {}
