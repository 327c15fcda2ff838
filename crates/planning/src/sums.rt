// Sums of what is owed.
ghost use Rattle.std.specs.Prelude.{◌≡◌, ◌≤◌, length, sum};

// All that is owed, at 16 depots or fewer.
pub(crate) fn sum_of(owed: &[u32]) -> u64
    requires { length owed.now ≤ 16 }
    ensures { result ≡ sum owed.now }
{
    owed.iter().map(|pallets| u64::from(*pallets)).sum()
}
