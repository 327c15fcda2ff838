// How a search goes on from node to node.
ghost use Rattle.std.specs.Prelude.{◌≡◌, [], ◌∷◌, length};
ghost use Rattle.queue.specs.Items.{items, slot_count};
ghost use Rattle.search.specs.Layouts.{laid};
ghost use Rattle.search.specs.Visits.{Done, Found, Keeps, Paced, Searching};

use super::Residual;
use crate::end::End;
use crate::visit::{Visit, clear, reach};
use queue::Queue;

impl Residual<'_> {
    // Reaches what can be reached from the node along the arcs that have it at the given end, and counts these arcs.
    fn scan(&self, end: End, node: u16, visits: &mut [Visit], waiting: &mut Queue<u16>) -> u32
        requires slots { slot_count waiting.old ≡ (laid self.now.map).nodes }
        requires so { Searching (laid self.now.map) self.now.loads.now visits.old (node ∷ items waiting.old) }
        ensures so { Searching (laid self.now.map) self.now.loads.now visits.new (node ∷ items waiting.new) }
        ensures done { Done (laid self.now.map) self.now.loads.now visits.new end node }
        ensures keeps { Keeps visits.old visits.new }
        ensures paced { Paced visits.old visits.new (items waiting.old) (items waiting.new) }
        ensures slots { slot_count waiting.new ≡ slot_count waiting.old }
    {
        let level = visits[node as usize].level + 1;
        let mut arcs = 0u32;
        let mut at = self.map.nodes[node as usize].first.at(end);
        while let Some(e) = at {
            let arc = self.map.arc(e);
            if end.may_cross(arc, self.loads[e as usize]) {
                let target = end.other().of(arc);
                let visit = Visit {
                    level,
                    arc: e,
                    side: end,
                };
                reach(visits, waiting, target, visit);
            }
            arcs = arcs.wrapping_add(1);
            at = self.map.next(end, e);
        }
        arcs
    }

    // Reaches what can be reached from the node along one arc, and counts the arcs at it.
    fn expand(&self, node: u16, visits: &mut [Visit], waiting: &mut Queue<u16>) -> u32
        requires slots { slot_count waiting.old ≡ (laid self.now.map).nodes }
        requires so { Searching (laid self.now.map) self.now.loads.now visits.old (node ∷ items waiting.old) }
        ensures so { Searching (laid self.now.map) self.now.loads.now visits.new (items waiting.new) }
        ensures paced { Paced visits.old visits.new (items waiting.old) (items waiting.new) }
        ensures slots { slot_count waiting.new ≡ slot_count waiting.old }
    {
        let leaving = self.scan(End::Tail, node, visits, waiting);
        let entering = self.scan(End::Head, node, visits, waiting);
        leaving.wrapping_add(entering)
    }

    // Goes on until no node waits, and counts the nodes and the arcs at them.
    fn flood(&self, visits: &mut [Visit], waiting: &mut Queue<u16>) -> u32
        requires slots { slot_count waiting.old ≡ (laid self.now.map).nodes }
        requires so { Searching (laid self.now.map) self.now.loads.now visits.old (items waiting.old) }
        ensures { Searching (laid self.now.map) self.now.loads.now visits.new [] }
    {
        let mut steps = 0u32;
        while let Some(node) = waiting.pop() {
            let arcs = self.expand(node, visits, waiting);
            steps = steps.wrapping_add(arcs).wrapping_add(1);
        }
        steps
    }

    // Visits each node that can be reached from the source along arcs that may be crossed, and says in how many steps: one for each
    // such node and one for each of its ends of an arc. (They are a hint of what a search costs, on which nothing rests.)
    pub(crate) fn explore(&self, visits: &mut [Visit], slots: &mut [u16]) -> u32
        requires visits { length visits.old ≡ (laid self.now.map).nodes }
        requires slots { length slots.old ≡ (laid self.now.map).nodes }
        ensures { Found (laid self.now.map) self.now.loads.now visits.new }
    {
        let source = self.map.source;
        clear(visits);
        visits[source as usize] = Visit {
            level: 1,
            arc: 0,
            side: End::Tail,
        };
        let mut waiting = Queue::new(slots);
        waiting.push(source).unwrap();
        self.flood(visits, &mut waiting)
    }
}
