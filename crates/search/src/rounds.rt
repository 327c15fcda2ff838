// Rounds of sending more to what was reached and of a search.
ghost use Rattle.std.specs.Prelude.{◌≡◌, length};
ghost use Rattle.flow.specs.Network.{Cut, Flow};
ghost use Rattle.flow.specs.Theory.{Smallest};
ghost use Rattle.search.specs.Gains.{Gained, Idle};
ghost use Rattle.search.specs.Layouts.{laid};
ghost use Rattle.search.specs.Visits.{Found, reached};

use crate::flood::Residual;
use crate::layout::Layout;
use crate::visit::Visit;
use crate::way::{Ways, drain_again};

// Other ways are looked for in at most this part of the steps of a search.
pub(crate) const SHARE: u32 = 8;

// Sends more to the nodes of the ranks below k until none of them is reached, and says how much in all. The visits say what can be
// reached, before and after it.
// (How long slots are is said of the list handed in: it is written, so no struct holds it. Between searches the slots tell which
// nodes are shut. Other ways are looked for with patience: in half as many steps as before after a round that found none, in twice as
// many after one that did, and in no more than a share of those of the last search. How many is a hint that nothing rests on.)
pub(crate) fn saturate(
    map: Layout,
    k: u16,
    loads: &mut [u32],
    visits: &mut [Visit],
    slots: &mut [u16],
    patience: &mut u32,
) -> u64
    requires slots { length slots.old ≡ (laid map).nodes }
    requires flow { Flow (laid map) loads.old }
    requires idle { Idle (laid map) k loads.old }
    requires found { Found (laid map) loads.old visits.old }
    ensures gained { Gained (laid map.entry) k loads.old loads.new result }
    ensures found { Found (laid map.entry) loads.new visits.new }
    ensures cut { Cut (laid map.entry) k (reached visits.new) }
    ensures smallest { Smallest (laid map.entry) k loads.new (reached visits.new) }
{
    let mut total = 0;
    'rounds: loop {
        let more = Ways { map, visits }.drain(k, loads);
        if more == 0 {
            return total;
        }
        total += more;
        let again = drain_again(map, k, loads, visits, slots, *patience);
        total += again;
        let steps = Residual { map, loads }.explore(visits, slots);
        let next = if again > 0 {
            patience.saturating_mul(2)
        } else {
            *patience / 2
        };
        *patience = next.min(steps / SHARE);
    }
}
