// Why a board turns a call away. The rules by which it does are in specs/.
#![tactic(auto)]

ghost use Rattle.std.specs.Prelude.{◌≡◌};
ghost use Rattle.refusals.specs.Refusals.{number_of};

// A refusal leaves all as it was. Where several would do, the one with the smallest number is given.
#[derive(Clone, Copy, Debug, PartialEq, Eq)]
pub enum Refusal {
    // the horizon is not 1 to 47
    BadHorizon,
    // a yard is above 31
    BadYard,
    // the transit time is not 1 to 47
    BadTransit,
    // the capacity is above 9,999
    BadCapacity,
    // the pallets are 0 or above 9,999
    BadPallets,
    // the lane would lead into the origin or into its own yard
    BadEnds,
    // a list handed in is too short
    ListTooShort,
    // there are 96 lanes, 16 depots or 512 accepted holds
    NoneLeft,
    // there is no such lane or departure
    NoDeparture,
    // the yard is not a depot
    NoDepot,
    // the yard is the origin, or a depot already
    NamedBefore,
    // the slip does not stand as the call needs
    NotAsNeeded,
    // no feasible plan delivers all owed with this call
    NoPlan,
}

impl Refusal {
    // The number that the refusal is known by.
    pub fn number(self) -> u8
        ensures { result ≡ number_of self }
    {
        match self {
            Refusal::BadHorizon => 1,
            Refusal::BadYard => 2,
            Refusal::BadTransit => 3,
            Refusal::BadCapacity => 4,
            Refusal::BadPallets => 5,
            Refusal::BadEnds => 6,
            Refusal::ListTooShort => 12,
            Refusal::NoneLeft => 13,
            Refusal::NoDeparture => 14,
            Refusal::NoDepot => 15,
            Refusal::NamedBefore => 16,
            Refusal::NotAsNeeded => 17,
            Refusal::NoPlan => 18,
        }
    }
}
