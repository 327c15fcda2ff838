// Flows that serve the ranks of a network in their order, with the smallest of the narrowest cuts, over any network.
#![tactic(auto)]

mod copying;
mod end;
mod entry;
mod error;
mod flood;
mod layout;
mod rounds;
mod serving;
mod visit;
mod way;

pub use end::End;
pub use entry::{Links, NodeEntry};
pub use error::SearchError;
pub use serving::{Work, serve};
pub use visit::Visit;
