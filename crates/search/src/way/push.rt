// Pushing along the way by which a node was reached. That it was reached is said of the node handed in, so at each function.
ghost use Rattle.std.specs.Prelude.{◌≡◌, ◌-◌, ◌<◌};
ghost use Rattle.flow.specs.Pushing.{Fitting};
ghost use Rattle.search.specs.Layouts.{laid};
ghost use Rattle.search.specs.Visits.{Open, level};
ghost use Rattle.search.specs.Ways.{Ample, Sent};

use super::Ways;

impl Ways<'_> {
    // How much more may go along the way to the node.
    pub(crate) fn bottleneck(&self, loads: &[u32], node: usize) -> u32
        requires fits { Fitting (laid self.now.map) loads.now }
        requires reached { 0 < level self.now.visits.now node }
        ensures some { Open (laid self.now.map) loads.now self.now.visits.now → 0 < result }
        ensures ample { Ample (laid self.now.map) loads.now self.now.visits.now result (level self.now.visits.now node - 1) node }
    {
        let mut at = node;
        let mut amount = u32::MAX;
        while self.visits[at].level > 1 {
            let visit = self.visits[at];
            let arc = self.map.arc(visit.arc);
            amount = amount.min(visit.side.spare(arc, loads[visit.arc as usize]));
            at = visit.side.of(arc) as usize;
        }
        amount
    }

    // Sends that much more along the way to the node.
    pub(crate) fn push(&self, loads: &mut [u32], node: usize, amount: u32)
        requires fits { Fitting (laid self.now.map) loads.old }
        requires reached { 0 < level self.now.visits.now node }
        requires some { 0 < amount }
        requires ample { Ample (laid self.now.map) loads.old self.now.visits.now amount (level self.now.visits.now node - 1) node }
        ensures { Sent (laid self.now.map) loads.old loads.new amount node }
    {
        let mut at = node;
        while self.visits[at].level > 1 {
            let visit = self.visits[at];
            let arc = self.map.arc(visit.arc);
            let load = &mut loads[visit.arc as usize];
            *load = visit.side.raised(arc, *load, amount);
            at = visit.side.of(arc) as usize;
        }
    }
}
