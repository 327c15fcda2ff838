// What a search keeps of each node. The arcs that have a node at one of their ends are linked: the node has the number of the last
// of them, and each of them that of the one before it.
ghost use Rattle.std.specs.Prelude.{◌≡◌};
ghost use Rattle.flow.specs.Network.{is_below};
ghost use Rattle.search.specs.Entries.{link_at, linked, relinked};

use crate::end::End;
use std::mem;

// Links to two arcs, the last that leaves a node and the last that enters it.
// A link is one more than the number of an arc, and 0 for none: in 16 bits, where an `Option` would take 32, since a search has
// 16 bytes for each arc.
#[derive(Clone, Copy, Default)]
pub struct Links {
    pub out: u16,
    pub back: u16,
}

// The rank of a node, and the links to its arcs.
#[derive(Clone, Copy, Default)]
pub struct NodeEntry {
    pub rank: Option<u16>,
    pub first: Links,
}

impl Links {
    // The arc that is linked by that end.
    pub(crate) fn at(&self, end: End) -> Option<u16>
        ensures { result ≡ linked (link_at end self.now) }
    {
        match end {
            End::Tail => self.out.checked_sub(1),
            End::Head => self.back.checked_sub(1),
        }
    }

    // Links another arc by that end, and gives the link that was there.
    pub(crate) fn relink(&mut self, end: End, link: u16) -> u16
        ensures had { result ≡ link_at end self.old }
        ensures has { self.new ≡ relinked end self.old link }
    {
        match end {
            End::Tail => mem::replace(&mut self.out, link),
            End::Head => mem::replace(&mut self.back, link),
        }
    }
}

impl NodeEntry {
    // Whether the node has a rank below k.
    pub(crate) fn is_below(&self, k: u16) -> bool
        ensures { result ≡ is_below k self.now.rank }
    {
        self.rank.is_some_and(|rank| rank < k)
    }
}
