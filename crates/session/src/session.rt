// The day at a board. Its methods are in the modules below, since their contracts speak of it.
use crate::names::Names;
use board::Board;

mod making;
mod performing;
mod sheets;

// The board, whether a record has opened it, and the names of the yards.
#[derive(Drop)]
pub struct Session<'a> {
    board: Board,
    opened: bool,
    names: Names<'a>,
}
