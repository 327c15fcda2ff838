// How a day begins.
ghost use Rattle.std.specs.Prelude.{◌≡◌, IfOk};
ghost use Rattle.session.specs.Days.{beginning, day_of};

use super::Session;
use crate::names::Names;
use board::Board;
use std::alloc::{AllocError, Global};

impl<'a> Session<'a> {
    // A day whose board is not opened yet.
    pub fn new(heap: Global) -> Result<Session<'a>, AllocError>
        ensures { IfOk result (λ s. day_of s ≡ beginning) }
    {
        Ok(Session {
            board: Board::new(heap)?,
            opened: false,
            names: Names::new(),
        })
    }
}
