// Networks as a search sees them: an interface, and a network that is stored as a list of arcs and a list of ranks.
#![tactic(auto)]

mod network;
mod stored;

pub use network::Network;
pub use stored::{NetworkError, StoredNetwork};
