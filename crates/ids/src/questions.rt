//! What a table is asked: whether it holds an id or no row, and how many clients it has.

ghost use Rattle.std.specs.Prelude.{◌≡◌, [], ℕ, ◌-◌, ◌≤◌, ◌<◌};
ghost use Rattle.tables.specs.Answers.{Says};
ghost use Rattle.tables.specs.Inner.Rows.{at, span};
ghost use Rattle.ids.specs.Rows.{Holds};
ghost use Rattle.ids.specs.Tables.{rows, Clients};
ghost use Rattle.ids.specs.Places.{number_of};
ghost use Rattle.ids.specs.Inner.{Fresh};
ghost use Rattle.ids.specs.View.{shown, placed};

use crate::place::Id;
use crate::view::Ids;
use tables::{Client, Clock};

impl<'a> Ids<'a> {
    /// Whether the table holds the clock of the client.
    pub fn contains(self, client: Client, clock: Clock) -> bool
        ensures { Says (Holds (rows (shown self.entry)) client.0 clock.0) result }
    {
        self.search(0, self.count, Id { client, clock })
    }

    /// Whether the table has no row.
    pub fn is_empty(self) -> bool
        ensures { Says (rows (shown self.entry) ≡ []) result }
    {
        self.count == 0
    }

    /// How many clients the table has.
    pub fn len(self) -> usize
        ensures { Clients (rows (shown self.entry)) result }
    {
        let Some(last) = self.count.checked_sub(1) else {
            return 0;
        };
        let mut many = 1;
        for i in (0..last).rev() {
            many += fresh(self.clients[i], self.clients[i + 1]);
        }
        many
    }

    // Whether one of the rows lo, .., hi - 1 holds the id: each look halves the rows still possible.
    // The table is lent: by value, its slices would be copied at each look.
    fn search(&self, lo: usize, hi: usize, id: Id) -> bool
        requires { hi ≤ self.now.count }
        ensures { Says (0 < at (span (placed self.now) lo (hi - lo)) (number_of id.client.0 id.clock.0)) result }
    {
        if hi <= lo {
            return false;
        }
        let mid = (lo + (hi - 1)) / 2;
        if id.is_before(self.start_of(mid)) {
            return self.search(lo, mid, id);
        }
        if id.is_before(self.end_of(mid)) {
            return true;
        }
        self.search(mid + 1, hi, id)
    }
}

// 1 where a client differs from the one before it.
fn fresh(c: u64, d: u64) -> usize
    ensures { Fresh c d result }
{
    if c == d { 0 } else { 1 }
}
