// Other ways to the nodes that a search reached, on the levels that it gave them.
// Which nodes are shut is only a hint, as is what `reopen` answers: whoever sends along a way finds what it has room for. So it may
// be given up at any time, and is once the patience that it is given has gone: a number of steps. Each arc that is looked at takes
// one, and so does each node on the way back, as often as it is gone over, to send along the way too.
ghost use Rattle.std.specs.Prelude.{◌≡◌, ◌<◌, IfSome, length};
ghost use Rattle.search.specs.Layouts.{laid};
ghost use Rattle.search.specs.Visits.{Enters, Reentered, Tree, level};

use super::Residual;
use crate::end::End;
use crate::visit::Visit;

impl Residual<'_> {
    // Whether the node can be entered as it was: along an arc that may be crossed, from a node that is not shut.
    fn is_entered(&self, visits: &[Visit], shut: &[u16], node: usize) -> bool
        requires tree { Tree (laid self.now.map) visits.now }
        requires shut { length shut.now ≡ (laid self.now.map).nodes }
        requires above { 1 < level visits.now node }
    {
        let visit = visits[node];
        let arc = self.map.arc(visit.arc);
        let from = visit.side.of(arc);
        shut[from as usize] == 0 && visit.side.may_cross(arc, self.loads[visit.arc as usize])
    }

    // A visit by which the node can be entered on its level, along an arc that has its start at the given end, if one is found while
    // patience lasts.
    fn entry_from(
        &self,
        end: End,
        visits: &[Visit],
        shut: &[u16],
        node: usize,
        patience: &mut u32,
    ) -> Option<Visit>
        requires tree { Tree (laid self.now.map) visits.now }
        requires shut { length shut.now ≡ (laid self.now.map).nodes }
        requires reached { 0 < level visits.now node }
        ensures { IfSome result (Enters (laid self.now.map) visits.now node) }
    {
        let level = visits[node].level;
        let mut at = self.map.nodes[node].first.at(end.other());
        while let Some(e) = at {
            *patience = patience.checked_sub(1)?;
            let arc = self.map.arc(e);
            let from = end.of(arc) as usize;
            let below = visits[from].level;
            let is_next = below > 0 && below == level - 1 && shut[from] == 0;
            if is_next && end.may_cross(arc, self.loads[e as usize]) {
                return Some(Visit {
                    level,
                    arc: e,
                    side: end,
                });
            }
            at = self.map.next(end.other(), e);
        }
        None
    }

    // Enters the node along another arc, if one is found on its level while patience lasts, and says whether one is.
    fn reenter(&self, visits: &mut [Visit], shut: &[u16], node: usize, patience: &mut u32) -> bool
        requires tree { Tree (laid self.now.map) visits.old }
        requires shut { length shut.now ≡ (laid self.now.map).nodes }
        requires reached { 0 < level visits.old node }
        ensures { Reentered (laid self.now.map) visits.old visits.new }
    {
        let found = match self.entry_from(End::Tail, visits, shut, node, patience) {
            None => self.entry_from(End::Head, visits, shut, node, patience),
            found => found,
        };
        let Some(visit) = found else {
            return false;
        };
        visits[node] = visit;
        true
    }

    // Goes back from the node to the source, entering nodes along other arcs where that is needed, and gives the first node for which
    // no such arc is found, if there is one.
    fn go_back(
        &self,
        visits: &mut [Visit],
        shut: &[u16],
        node: usize,
        patience: &mut u32,
    ) -> Option<usize>
        requires tree { Tree (laid self.now.map) visits.old }
        requires shut { length shut.now ≡ (laid self.now.map).nodes }
        requires reached { 0 < level visits.old node }
        ensures again { Reentered (laid self.now.map) visits.old visits.new }
        ensures within { IfSome result (λ v. v < (laid self.now.map).nodes) }
    {
        let mut at = node;
        while visits[at].level > 1 {
            if !self.is_entered(visits, shut, at) && !self.reenter(visits, shut, at, patience) {
                return Some(at);
            }
            let visit = visits[at];
            at = visit.side.of(self.map.arc(visit.arc)) as usize;
        }
        None
    }

    // Opens a way to the node, if one is found on the levels of the search while patience lasts, and says whether one is. Each turn
    // shuts a node for which no arc was found, so there are no more turns than nodes. A way is not looked for where patience would
    // not last to go over it three times: to find it, to find its room, and to send.
    pub(crate) fn reopen(
        &self,
        visits: &mut [Visit],
        shut: &mut [u16],
        node: usize,
        patience: &mut u32,
    ) -> bool
        requires tree { Tree (laid self.now.map) visits.old }
        requires shut { length shut.old ≡ (laid self.now.map).nodes }
        requires reached { 0 < level visits.old node }
        ensures { Reentered (laid self.now.map) visits.old visits.new }
    {
        let length = u32::from(visits[node].level);
        for _ in 0..self.map.nodes.len() {
            if *patience < 3 * length {
                return false;
            }
            let Some(at) = self.go_back(visits, shut, node, patience) else {
                *patience = patience.saturating_sub(3 * length);
                return true;
            };
            shut[at] = 1;
            if at == node {
                return false;
            }
            *patience = patience.saturating_sub(length);
        }
        false
    }
}
