// What the lane network answers.
ghost use Rattle.lane_network.specs.Kept.{kept, kept_proper};

use super::LaneNetwork;
use flow::Arc;
use network::Network;

impl Network for LaneNetwork {
    ghost meaning = { kept };

    ghost proper = { kept_proper };

    fn node_count(&self) -> usize {
        self.ranks.len()
    }

    fn source(&self) -> usize {
        self.source.into()
    }

    fn arc_count(&self) -> usize {
        self.count
    }

    fn arc(&self, number: usize) -> Arc {
        self.arcs[number]
    }

    fn rank(&self, node: usize) -> Option<u16> {
        self.ranks[node]
    }
}
