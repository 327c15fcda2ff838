// Rankings: in which order depots are served, period by period.
#![tactic(auto)]

ghost use Rattle.std.specs.Prelude.{◌≡◌, ℕ, ◌≤◌};
ghost use Rattle.ranking.specs.Ranking.{Lawful, Ranking, by_depot, by_depot_lawful, by_period, by_period_lawful};

// A ranking gives each pair of a depot, by its place in the order of the depots, and a period one of a number of ranks.
// The lowest rank is served first. Depots are counted from 0, and periods go from 0 to the horizon.
pub trait Ranking {
    // what it means, for a number of depots and a horizon
    ghost meaning: { Self → ℕ → ℕ → Ranking };

    // the law: there are at most 48 ranks, and each rank is below their number
    ghost lawful: { (r : Self) (depots horizon : ℕ) → depots ≤ 16 → horizon ≤ 47 → Lawful depots horizon (meaning r depots horizon) };

    // The number of ranks.
    fn rank_count(&self, depots: u8, horizon: u8) -> u16
        ensures { result ≡ (meaning self.now depots horizon).ranks };

    // The rank of a depot in a period.
    fn rank(&self, depots: u8, horizon: u8, depot: u8, period: u8) -> u16
        ensures { result ≡ (meaning self.now depots horizon).rank depot period };
}

// All of the first depot, then all of the second, and so on.
#[derive(Clone, Copy, Debug, PartialEq, Eq)]
pub struct DepotOrder;

impl Ranking for DepotOrder {
    ghost meaning = { λ _ depots horizon. by_depot depots };

    ghost lawful = { λ _. by_depot_lawful };

    fn rank_count(&self, depots: u8, _horizon: u8) -> u16 {
        u16::from(depots)
    }

    fn rank(&self, _depots: u8, _horizon: u8, depot: u8, _period: u8) -> u16 {
        u16::from(depot)
    }
}

// Everything as early as possible: all depots in period 0, then in period 1, and so on.
#[derive(Clone, Copy, Debug, PartialEq, Eq)]
pub struct PeriodOrder;

impl Ranking for PeriodOrder {
    ghost meaning = { λ _ depots horizon. by_period horizon };

    ghost lawful = { λ _. by_period_lawful };

    fn rank_count(&self, _depots: u8, horizon: u8) -> u16 {
        u16::from(horizon) + 1
    }

    fn rank(&self, _depots: u8, _horizon: u8, _depot: u8, period: u8) -> u16 {
        u16::from(period)
    }
}
