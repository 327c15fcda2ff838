// How the nodes were reached.
ghost use Rattle.std.specs.Prelude.{◌≡◌, ℕ, ◌<◌, [], ◌∷◌, ◌++◌, length, if◌then◌else◌, nat_eq, slice_set};
ghost use Rattle.queue.specs.Items.{items, slot_count};
ghost use Rattle.search.specs.Visits.{level, unvisited};

use crate::end::End;
use queue::Queue;

// The level is one more than that of the node that it was reached from, 1 at the source, and 0 where the node was not
// reached; the node was reached along the arc, from that end of it.
// (An `Option` of it would take two bytes more, and a search has 16 bytes for each node.)
#[derive(Clone, Copy, Default)]
pub struct Visit {
    pub level: u16,
    pub arc: u16,
    pub side: End,
}

// Forgets each visit.
pub(crate) fn clear(visits: &mut [Visit])
    ensures { (v : ℕ) → level visits.new v ≡ 0 }
{
    visits.fill(Visit::default());
}

// Notes and queues a node that was not reached yet.
pub(crate) fn reach(visits: &mut [Visit], waiting: &mut Queue<u16>, node: u16, visit: Visit)
    requires within { node < length visits.old }
    requires room { level visits.old node ≡ 0 → length (items waiting.old) < slot_count waiting.old }
    ensures visits { visits.new ≡ (if nat_eq (level visits.old node) 0 then slice_set visits.old node visit else visits.old) }
    ensures waiting { items waiting.new ≡ (if nat_eq (level visits.old node) 0 then items waiting.old ++ (node ∷ []) else items waiting.old) }
    ensures slots { slot_count waiting.new ≡ slot_count waiting.old }
{
    let seen = &mut visits[usize::from(node)];
    if seen.level == 0 {
        *seen = visit;
        waiting.push(node).unwrap();
    }
}
