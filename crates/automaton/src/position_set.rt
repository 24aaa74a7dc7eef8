ghost use Rattle.std.specs.Prelude.{◌≡◌, ℕ, ◌==◌, ◌||◌, false};

/// A set of positions, which are numbers from 0 to 255.
#[derive(Clone, Copy)]
pub struct PositionSet {
    low: u128,
    high: u128,
}

impl PositionSet {
    ghost use Rattle.automaton.specs.inside.Sets.{has};

    pub fn empty() -> PositionSet
        ensures { has result ≡ (λ (q : ℕ). false) }
    {
        PositionSet { low: 0, high: 0 }
    }

    /// The set of this position alone.
    pub fn just(position: u8) -> PositionSet
        ensures { has result ≡ (λ q. q == position) }
    {
        if position < 128 {
            PositionSet {
                low: 1 << position,
                high: 0,
            }
        } else {
            PositionSet {
                low: 0,
                high: 1 << (position - 128),
            }
        }
    }

    /// The positions of both sets.
    pub fn or(self, other: PositionSet) -> PositionSet
        ensures { has result ≡ (λ q. has self q || has other q) }
    {
        PositionSet {
            low: self.low | other.low,
            high: self.high | other.high,
        }
    }

    pub fn contains(self, position: u8) -> bool
        ensures { result ≡ has self position }
    {
        if position < 128 {
            self.low >> position & 1 == 1
        } else {
            self.high >> (position - 128) & 1 == 1
        }
    }
}
