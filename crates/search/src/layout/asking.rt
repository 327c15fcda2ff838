// What a layout is asked in the innermost loops.
ghost use Rattle.std.specs.Prelude.{◌≡◌, ◌<◌, length, slice_index_or};
ghost use Rattle.flow.specs.Pushing.{no_arc};
ghost use Rattle.search.specs.Entries.{linked, next_at};
ghost use Rattle.search.specs.Layouts.{laid};

use super::Layout;
use crate::end::End;
use flow::Arc;

impl Layout<'_> {
    // The arc of that number.
    pub(crate) fn arc(&self, number: u16) -> Arc
        requires { number < length (laid self.now).arcs }
        ensures { result ≡ slice_index_or (laid self.now).arcs number no_arc }
    {
        self.arcs[number as usize]
    }

    // The arc before that one, of those that have the same node at that end.
    pub(crate) fn next(&self, end: End, number: u16) -> Option<u16>
        requires { number < length (laid self.now).arcs }
        ensures { result ≡ linked (next_at end self.now.next_out.now self.now.next_in.now number) }
    {
        match end {
            End::Tail => self.next_out[number as usize].checked_sub(1),
            End::Head => self.next_in[number as usize].checked_sub(1),
        }
    }
}
