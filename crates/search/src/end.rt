// The two ends of an arc.
ghost use Rattle.std.specs.Prelude.{◌≡◌, ◌≤◌};
ghost use Rattle.search.specs.Ends.{end_of, other, raised_by, spare_by, usable_by};

use flow::Arc;

#[derive(Clone, Copy, Default)]
pub enum End {
    #[default]
    Tail,
    Head,
}

impl End {
    // The other end.
    pub(crate) fn other(self) -> End
        ensures { result ≡ other self }
    {
        match self {
            End::Tail => End::Head,
            End::Head => End::Tail,
        }
    }

    // The node at this end of the arc.
    pub(crate) fn of(self, arc: Arc) -> u16
        ensures { result ≡ end_of self arc }
    {
        match self {
            End::Tail => arc.tail,
            End::Head => arc.head,
        }
    }

    // Whether an arc with that load may be crossed from this end.
    pub(crate) fn may_cross(self, arc: Arc, load: u32) -> bool
        ensures { result ≡ usable_by self arc load }
    {
        match self {
            End::Tail => load < arc.capacity,
            End::Head => load > 0,
        }
    }

    // How much more may go over an arc with that load from this end.
    pub(crate) fn spare(self, arc: Arc, load: u32) -> u32
        requires { load ≤ arc.capacity }
        ensures { result ≡ spare_by self arc load }
    {
        match self {
            End::Tail => arc.capacity - load,
            End::Head => load,
        }
    }

    // The load of an arc once that much more has gone over it from this end.
    pub(crate) fn raised(self, arc: Arc, load: u32, amount: u32) -> u32
        requires fits { load ≤ arc.capacity }
        requires room { amount ≤ spare_by self arc load }
        ensures { result ≡ raised_by self load amount }
    {
        match self {
            End::Tail => load + amount,
            End::Head => load - amount,
        }
    }
}
