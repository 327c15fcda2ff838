// A reader over the bytes of a day file. Its methods are in the module below, since their contracts speak of it.
ghost use Rattle.std.specs.Prelude.{◌*◌, ◌≤◌, length};

mod next;

// The reader stands before the record at `offset`, with `count` records behind it. Each of them has at least two bytes.
// The file is kept whole with the offset in it, and not the rest of it alone, since each fault tells the offset.
#[derive(Clone, Copy)]
pub struct Reader<'a> {
    file: &'a [u8],
    offset: usize,
    count: usize,
    ghost within: { offset ≤ length file.now },
    ghost counted: { 2 * count ≤ offset },
}
