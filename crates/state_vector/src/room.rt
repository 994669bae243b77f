//! How a vector's rows are written. The methods are inlined: so the room stays in registers, and decoding takes two thirds of the time.
#![tactic(auto)]

ghost use Rattle.std.specs.Prelude.{◌≡◌, ◌≤◌};
ghost use Rattle.tables.specs.Inner.Rows.{span};
ghost use Rattle.state_vector.specs.Rows.{row};
ghost use Rattle.state_vector.specs.Vectors.{two, held, rows_of, room, Table, filled};
ghost use Rattle.state_vector.specs.Lent.{lends, Kept};
ghost use Rattle.state_vector.specs.Inner.{row_at, put, Holds, Stores, Fits};

use crate::lookup::{place, stands};
use crate::vector::VectorRoom;
use tables::{Client, Clock};
use varint::Refusal;

impl<'a> VectorRoom<'a> {
    /// The first k rows stay, and every later element becomes zero.
    #[inline(always)]
    pub(crate) fn settle(&mut self, k: usize)
        requires { k ≤ room (lends self.old) }
        ensures rows { lends self.new ≡ filled (lends self.old) (span (row_at (lends self.old)) 0 k) }
        ensures kept { Kept self.old self.new }
    {
        self.clients[k..].fill(0);
        self.clocks[k..].fill(0);
    }

    /// Whether there is room for k rows.
    ///
    /// # Errors
    /// [`Refusal::Full`] where there is not.
    #[inline(always)]
    pub(crate) fn fitting(&self, k: usize) -> Result<usize, Refusal>
        ensures { Fits self.now.most k result }
    {
        if self.most < k {
            return Err(Refusal::Full);
        }
        Ok(k)
    }

    /// One row more, while there is room.
    #[inline(always)]
    pub(crate) fn store(&mut self, k: usize, client: u64, clock: u32)
        ensures stores { Stores self.old.most k (row client clock) (lends self.old) (lends self.new) }
        ensures kept { Kept self.old self.new }
    {
        if k < self.most {
            self.clients[k] = client;
            self.clocks[k] = clock;
        }
    }

    /// Puts a row in its place among n rows, where it takes the place of a row of its client: how many rows there are then. Where it needs
    /// a row and there is none, it is only counted.
    #[inline(always)]
    pub(crate) fn put(&mut self, n: usize, client: Client, clock: Clock) -> usize
        requires table { Table (held self.old.clients.now self.old.clocks.now n) }
        requires n_le_most { n ≤ self.old.most }
        ensures holds { Holds self.old.most (lends self.new) result (put (row client.0 clock.0) (rows_of n self.old.clients.now self.old.clocks.now)) }
        ensures kept { Kept self.old self.new }
    {
        put_row(self.clients, self.clocks, n, self.most, client, clock)
    }
}

// The same of two slices: through the fields of `self`, each look at a slice lends it anew, and its proof did not close.
fn put_row(
    clients: &mut [u64],
    clocks: &mut [u32],
    n: usize,
    most: usize,
    client: Client,
    clock: Clock,
) -> usize
    requires table { Table (held clients.old clocks.old n) }
    requires n_le_most { (n ≤ most) × (most ≤ room (two clients.old clocks.old)) }
    ensures { Holds most (two clients.new clocks.new) result (put (row client.0 clock.0) (rows_of n clients.old clocks.old)) }
{
    let i = place(&clients[..n], client);
    if stands(&clients[..n], i, client) {
        clocks[i] = clock.0;
        return n;
    }
    if most <= n {
        return n + 1;
    }
    if n <= i {
        // Behind the last row nothing moves: rows that come in order cost no call.
        clients[i] = client.0;
        clocks[i] = clock.0;
        return n + 1;
    }
    clients.copy_within(i..n, i + 1);
    clocks.copy_within(i..n, i + 1);
    clients[i] = client.0;
    clocks[i] = clock.0;
    n + 1
}
