// The slip of a hold.
ghost use Rattle.std.specs.Prelude.{◌≡◌};
ghost use Rattle.slips.specs.Slips.{slip_of};

// The slip of a hold: the hold's number, the depot (a yard's number) and the pallets promised to it.
// It is a linear token: with neither `Drop` nor `Copy` it can be neither let go nor doubled, and only this crate makes
// one or ends one.
pub struct Slip {
    number: u16,
    depot: u8,
    pallets: u16,
}

impl Slip {
    // Only a hold and a pick-up make a slip.
    pub(crate) fn new(number: u16, depot: u8, pallets: u16) -> Slip
        ensures { result ≡ slip_of number depot pallets }
    {
        Slip {
            number,
            depot,
            pallets,
        }
    }

    // Ends the slip, and gives its number. Only an accepted call ends a slip.
    pub(crate) fn end(self) -> u16
        ensures { result ≡ self.number }
    {
        let Slip {
            number,
            depot: _,
            pallets: _,
        } = self;
        number
    }

    // The number of its hold.
    pub fn number(&self) -> u16
        ensures { result ≡ self.now.number }
    {
        self.number
    }

    // The yard that the pallets are promised to.
    pub fn depot(&self) -> u8
        ensures { result ≡ self.now.depot }
    {
        self.depot
    }

    // How many pallets are promised.
    pub fn pallets(&self) -> u16
        ensures { result ≡ self.now.pallets }
    {
        self.pallets
    }
}
