// Sending more to what was reached.
ghost use Rattle.std.specs.Prelude.{◌≡◌, ℕ, ◌+◌, ◌<◌, true};
ghost use Rattle.flow.specs.Network.{Flow, below};
ghost use Rattle.search.specs.Gains.{Gained, Idle, Unserved};
ghost use Rattle.search.specs.Layouts.{laid};
ghost use Rattle.search.specs.Visits.{Open, level};

use super::Ways;

impl Ways<'_> {
    // Sends as much more to the node as the way to it has room for, and says how much that is.
    pub(crate) fn augment(&self, loads: &mut [u32], node: usize) -> u32
        requires flow { Flow (laid self.now.map) loads.old }
        requires reached { 0 < level self.now.visits.now node }
        ensures gained { (k : ℕ) → Idle (laid self.now.map) k loads.old → below (laid self.now.map) k node ≡ true → Gained (laid self.now.map) k loads.old loads.new result }
        ensures none { result ≡ 0 → (loads.new ≡ loads.old) × (Open (laid self.now.map) loads.old self.now.visits.now → ⊥) }
    {
        let amount = self.bottleneck(loads, node);
        if amount > 0 {
            self.push(loads, node, amount);
        }
        amount
    }

    // Sends more to the node if it is reached and has a rank below k, and says how much.
    fn feed(&self, k: u16, loads: &mut [u32], node: usize) -> u32
        requires flow { Flow (laid self.now.map) loads.old }
        requires idle { Idle (laid self.now.map) k loads.old }
        requires within { node < (laid self.now.map).nodes }
        ensures gained { Gained (laid self.now.map) k loads.old loads.new result }
        ensures none { result ≡ 0 → Unserved (laid self.now.map) k loads.old loads.new self.now.visits.now node (node + 1) }
    {
        if self.visits[node].level > 0 && self.map.nodes[node].is_below(k) {
            self.augment(loads, node)
        } else {
            0
        }
    }

    // Sends more to each node of a rank below k that is reached, and says how much in all.
    pub(crate) fn drain(&self, k: u16, loads: &mut [u32]) -> u64
        requires flow { Flow (laid self.now.map) loads.old }
        requires idle { Idle (laid self.now.map) k loads.old }
        ensures gained { Gained (laid self.now.map) k loads.old loads.new result }
        ensures none { result ≡ 0 → Unserved (laid self.now.map) k loads.old loads.new self.now.visits.now 0 (laid self.now.map).nodes }
    {
        let mut total = 0;
        // By number, since `feed` asks for the visit and for the entry of a node.
        for node in 0..self.visits.len() {
            total += u64::from(self.feed(k, loads, node));
        }
        total
    }
}
