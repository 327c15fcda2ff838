// Sending more along other ways than those by which nodes were reached.
ghost use Rattle.std.specs.Prelude.{◌≡◌, ◌<◌, true, length};
ghost use Rattle.flow.specs.Network.{Flow, below};
ghost use Rattle.search.specs.Gains.{Gained, Idle};
ghost use Rattle.search.specs.Layouts.{laid};
ghost use Rattle.search.specs.Visits.{Reentered, Tree, level};

use super::Ways;
use crate::flood::Residual;
use crate::layout::Layout;
use crate::visit::Visit;

// Sends more to the node, as long as a way to it is opened on the levels of the search, and says how much in all.
// Each time an arc is filled, and stays so on these levels: that is at most as often as there are arcs.
fn press(
    map: Layout,
    k: u16,
    loads: &mut [u32],
    visits: &mut [Visit],
    shut: &mut [u16],
    node: usize,
    patience: &mut u32,
) -> u64
    requires flow { Flow (laid map) loads.old }
    requires idle { Idle (laid map) k loads.old }
    requires tree { Tree (laid map) visits.old }
    requires shut { length shut.old ≡ (laid map).nodes }
    requires reached { 0 < level visits.old node }
    requires below { below (laid map) k node ≡ true }
    ensures gained { Gained (laid map.entry) k loads.old loads.new result }
    ensures again { Reentered (laid map.entry) visits.old visits.new }
{
    let mut total = 0;
    for _ in 0..map.arcs.len() {
        if !(Residual { map, loads }).reopen(visits, shut, node, patience) {
            break;
        }
        total += u64::from(Ways { map, visits }.augment(loads, node));
    }
    total
}

// Sends more to each node of a rank below k that is reached, along whatever ways can be opened with this patience, and says how
// much in all.
pub(crate) fn drain_again(
    map: Layout,
    k: u16,
    loads: &mut [u32],
    visits: &mut [Visit],
    shut: &mut [u16],
    mut patience: u32,
) -> u64
    requires flow { Flow (laid map) loads.old }
    requires idle { Idle (laid map) k loads.old }
    requires tree { Tree (laid map) visits.old }
    requires shut { length shut.old ≡ (laid map).nodes }
    ensures gained { Gained (laid map.entry) k loads.old loads.new result }
{
    if patience == 0 {
        return 0;
    }
    shut.fill(0);
    let mut total = 0;
    for node in 0..map.nodes.len() {
        if visits[node].level > 0 && map.nodes[node].is_below(k) {
            total += press(map, k, loads, visits, shut, node, &mut patience);
        }
    }
    total
}
