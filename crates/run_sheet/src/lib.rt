// A run sheet takes the standing plan of a board apart into runs: pallets that go together from the origin to a depot.
#![tactic(auto)]

mod finding;
mod laying;
mod leg;
mod next;
mod sheet;
mod splitting;
mod taking;

pub use leg::Leg;
pub use sheet::RunSheet;
pub use splitting::all_runs;
