// What is owed at each depot, as a list.
ghost use Rattle.std.specs.Prelude.{◌≡◌, ◌≤◌, ◌+◌, ◌*◌, length, take, true, All};
ghost use Rattle.std.specs.List.{list_all};
ghost use Rattle.slips.specs.Holds.{holds};
ghost use Rattle.expanded.specs.Made.{is_within};
ghost use Rattle.roads.specs.Grids.{grid_of};
ghost use Rattle.board.specs.Owing.{owed_by, owed_with};

use roads::Roads;
use slips::table::SlipTable;

// What is owed at each depot, with so many pallets more at one of the yards.
pub(crate) fn owed_with(roads: &Roads, slips: &SlipTable, yard: u8, pallets: u16) -> [u32; 16]
    requires bounded { All (λ e. e.pallets ≤ 9999) (holds slips.now) }
    requires fits { length (holds slips.now) * 9999 + pallets ≤ 5119488 }
    ensures list { take (length (grid_of roads.now).depots) result ≡ owed_with (grid_of roads.now).depots (holds slips.now) yard pallets }
    ensures long { length result ≡ 16 }
    ensures within { list_all is_within (owed_with (grid_of roads.now).depots (holds slips.now) yard pallets) ≡ true }
{
    let mut owed = [0; 16];
    for (order, depot) in roads.depots().iter().enumerate() {
        let more = if yard == *depot { pallets } else { 0 };
        owed[order] = slips.owed(*depot) + u32::from(more);
    }
    owed
}

// What is owed at each depot.
pub(crate) fn owed_now(roads: &Roads, slips: &SlipTable) -> [u32; 16]
    requires { All (λ e. e.pallets ≤ 9999) (holds slips.now) }
    ensures list { take (length (grid_of roads.now).depots) result ≡ owed_by (grid_of roads.now).depots (holds slips.now) }
    ensures long { length result ≡ 16 }
    ensures within { list_all is_within (owed_by (grid_of roads.now).depots (holds slips.now)) ≡ true }
{
    owed_with(roads, slips, 0, 0)
}
