// Day files: the marks, the records, what can be wrong with them, and a reader over a file's bytes.
#![tactic(auto)]

pub mod fault;
pub mod mark;
pub mod name;
pub mod reader;
pub mod record;
