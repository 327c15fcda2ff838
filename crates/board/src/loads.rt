// The loads of a plan. Their methods are in the module below, since their contracts speak of them.
ghost use Rattle.std.specs.Prelude.{◌≡◌, length};

mod works;

// The load on the lane l in the period t is at l × 48 + t; there is one for each of 96 lanes and 48 periods.
#[derive(Drop)]
pub struct Loads {
    list: Vec<u32>,
    ghost long: { length list.items ≡ 4608 },
}
