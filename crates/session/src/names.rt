// The names of yards.
ghost use Rattle.std.specs.Prelude.{◌≡◌, ◌<◌, Some, length, replicate, slice_index_or, slice_set, None};
ghost use Rattle.std.specs.Option.{option_copied};

// The name of each yard that has one, which is a part of the day file.
#[derive(Drop)]
pub(crate) struct Names<'a> {
    list: [Option<&'a [u8]>; 32],
    ghost long: { length list ≡ 32 },
}

impl<'a> Names<'a> {
    ghost use Rattle.session.specs.Names.{names_of};

    // No yard has a name.
    pub(crate) fn new() -> Names<'a>
        ensures { names_of result ≡ replicate 32 None }
    {
        Names { list: [None; 32] }
    }

    // The name of a yard, if it has one.
    pub(crate) fn of(&self, yard: u8) -> Option<&'a [u8]>
        requires { yard < 32 }
        ensures { option_copied result ≡ slice_index_or (names_of self.now) yard None }
    {
        self.list[yard as usize]
    }

    // Names a yard, or names it again.
    pub(crate) fn set(&mut self, yard: u8, name: &'a [u8])
        requires { yard < 32 }
        ensures { names_of self.new ≡ slice_set (names_of self.old) yard (Some name.entry.now) }
    {
        self.list[yard as usize] = Some(name);
    }
}
