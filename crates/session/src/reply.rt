// What a record that is not turned away is answered.
ghost use Rattle.std.specs.Prelude.{◌≡◌, ◌≤◌, length};

// The figures of a quote, in the order of their ranks: the first `count` of the list.
#[derive(Clone, Copy, Debug, PartialEq, Eq)]
pub struct Figures {
    pub(crate) list: [u64; 48],
    pub(crate) count: u16,
    ghost long: { length list ≡ 48 },
    ghost within: { count ≤ 48 },
}

impl Figures {
    ghost use Rattle.session.specs.Replies.{figures_of};

    // The figures as a slice.
    pub fn as_slice(&self) -> &[u64]
        ensures { result.now ≡ figures_of self.now }
    {
        &self.list[..usize::from(self.count)]
    }
}

// A lane has a number, a depot its place in their order and the name of its yard, if that has one; a hold has its slip's number.
#[derive(Clone, Copy, Debug, PartialEq, Eq)]
pub enum Reply<'a> {
    Done,
    Lane(u8),
    Depot { order: u8, name: Option<&'a [u8]> },
    Slip(u16),
    Figures(Figures),
}
