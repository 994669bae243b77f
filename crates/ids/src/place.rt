//! The places of ids on one line: lower clients first, then lower clocks.

ghost use Rattle.std.specs.Prelude.{◌≡◌, ℕ, ◌+◌, ◌*◌, ◌<◌};
ghost use Rattle.std.proofs.Common.{rules};
ghost use Rattle.tables.specs.Answers.{Says};
ghost use Rattle.ids.specs.Places.{number_of};
ghost use Rattle.ids.specs.Lines.{client_of, final};

use tables::rows::Place;
use tables::{Client, Clock};

/// The id of one unit: a clock of a client. Ids rise by client, then by clock.
#[derive(Clone, Copy, Debug, PartialEq, Eq, PartialOrd, Ord, Hash)]
pub struct Id {
    /// The client that made the unit.
    pub client: Client,
    /// The unit's clock among those of its client.
    pub clock: Clock,
}

impl Id {
    /// Whether the id comes before another: `<`, with no jump. The pass over a table's rows becomes SIMD where the machine compares clients so.
    pub fn is_before(self, other: Id) -> bool
        ensures { Says (number_of self.client.0 self.clock.0 < number_of other.client.0 other.clock.0) result }
    {
        (self.client.0 < other.client.0)
            | ((self.client.0 == other.client.0) & (self.clock.0 < other.clock.0))
    }

    // The id as one number, for comparisons: they take two subtractions and no jump.
    fn wide(self) -> u128
        ensures { result ≡ self.client.0 * 18446744073709551616 + self.clock.0 }
    {
        self.client.0 as u128 * 18446744073709551616 + self.clock.0 as u128
    }
}

impl Place for Id {
    ghost number = { λ p. number_of p.client.0 p.clock.0 };

    ghost line = { client_of };

    ghost top = { final };

    ghost rises = { Prim.search rules };

    ghost wide = { Prim.search rules };

    fn first() -> Id {
        Id {
            client: Client(0),
            clock: Clock(0),
        }
    }

    fn last() -> Id {
        Id {
            client: Client(u64::MAX),
            clock: Clock(u32::MAX),
        }
    }

    fn precedes(self, other: Id) -> bool {
        self.wide() < other.wide()
    }

    fn earlier(self, other: Id) -> Id {
        if other.precedes(self) { other } else { self }
    }

    fn later(self, other: Id) -> Id {
        if self.precedes(other) { other } else { self }
    }
}
