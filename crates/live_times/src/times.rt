// Times of yards, in fixed memory: yards are the numbers 0 to 31.
ghost use Rattle.std.specs.Prelude.{◌≡◌, ℕ, ◌&&◌, ◌||◌, ◌≤◌};
ghost use Rattle.live_times.specs.Times.{by, until, time_of};

// For each yard a period, or none.
pub type Times = [Option<u8>; 32];

// The time of a yard, none past the last.
pub fn time_at(times: &Times, yard: u8) -> Option<u8>
    ensures at { result ≡ time_of times.now yard }
    ensures past { 32 ≤ yard → result ≡ None }
{
    times.get(usize::from(yard)).copied().flatten()
}

// The earlier of two times.
pub fn earlier(one: Option<u8>, other: Option<u8>) -> Option<u8>
    ensures { (t : ℕ) → by result t ≡ (by one t || by other t) }
{
    match (one, other) {
        (Some(a), Some(b)) => Some(a.min(b)),
        (None, time) | (time, None) => time,
    }
}

// The later of two times.
pub fn later(one: Option<u8>, other: Option<u8>) -> Option<u8>
    ensures { (t : ℕ) → until result t ≡ (until one t || until other t) }
{
    match (one, other) {
        (Some(a), Some(b)) => Some(a.max(b)),
        (None, time) | (time, None) => time,
    }
}

// No time at any yard.
pub fn no_times() -> Times
    ensures { (y : ℕ) → time_of result y ≡ None }
{
    [None; 32]
}

// Whether the period lies between two times, both of which there have to be.
pub fn is_between(first: Option<u8>, last: Option<u8>, period: u8) -> bool
    ensures { result ≡ (by first period && until last period) }
{
    first.is_some_and(|first| first <= period) && last.is_some_and(|last| period <= last)
}
