// The interface. What an implementation means is a network of the theory; every question is answered by that meaning.
ghost use Rattle.std.specs.Prelude.{◌≡◌, ◌<◌, length, slice_index_or};
ghost use Rattle.flow.specs.Network.{Network};
ghost use Rattle.flow.specs.Pushing.{no_arc};
ghost use Rattle.network.specs.Proper.{Proper};

use flow::Arc;

pub trait Network {
    // what it means: a number of nodes, a source, a list of arcs, and a rank or none for each node
    ghost meaning: { Self → Network };

    // the law: the meaning is sound, and no larger than a search has room for
    ghost proper: { (n : Self) → Proper (meaning n) };

    // The number of nodes.
    fn node_count(&self) -> usize
        ensures { result ≡ (meaning self.now).nodes };

    // The source.
    fn source(&self) -> usize
        ensures { result ≡ (meaning self.now).source };

    // The number of arcs.
    fn arc_count(&self) -> usize
        ensures { result ≡ length (meaning self.now).arcs };

    // The arc of that number.
    fn arc(&self, number: usize) -> Arc
        requires { number < length (meaning self.now).arcs }
        ensures { result ≡ slice_index_or (meaning self.now).arcs number no_arc };

    // The rank of the node, if it has one.
    fn rank(&self, node: usize) -> Option<u16>
        requires { node < (meaning self.now).nodes }
        ensures { result ≡ (meaning self.now).rank node };
}
