//! A vector that is checked, and the clock of a client.
#![tactic(auto)]

ghost use Rattle.std.specs.Prelude.{◌≡◌, ◌≤◌, length, IfOk};
ghost use Rattle.tables.specs.Answers.{Says};
ghost use Rattle.tables.specs.Inner.Climb.{Climbs};
ghost use Rattle.state_vector.specs.Rows.{at, smaller};
ghost use Rattle.state_vector.specs.Vectors.{held, rows, Table, Checks, Get};
ghost use Rattle.state_vector.specs.Lent.{lent};
ghost use Rattle.state_vector.specs.Inner.{Finds, Stands};

use crate::vector::Vector;
use tables::{Client, Clock, VECTOR_LIMIT};
use varint::Refusal;

/// The clock of a client, which is 0 where the vector has no row of it. After `get` of yrs.
///
/// # Errors
/// [`Refusal::Malformed`] where the first `count` rows are no vector.
pub fn get(clients: &[u64], clocks: &[u32], count: usize, client: Client) -> Result<Clock, Refusal>
    ensures { Get (held clients.now clocks.now count) client.0 result }
{
    Ok(Vector::checked(clients, clocks, count)?.get(client))
}

impl<'a> Vector<'a> {
    /// The first `count` rows of two slices.
    ///
    /// # Errors
    /// [`Refusal::Malformed`] where they are no vector: more than 256 rows, more than a slice has elements, or clients that do not rise.
    #[inline(always)]
    pub fn checked(
        clients: &'a [u64],
        clocks: &'a [u32],
        count: usize,
    ) -> Result<Vector<'a>, Refusal>
        ensures same { IfOk result (λ v. lent v ≡ held clients.now clocks.now count) }
        ensures vector { Checks (Table (held clients.now clocks.now count)) result }
    {
        if VECTOR_LIMIT < count || clients.len() < count || clocks.len() < count {
            return Err(Refusal::Malformed);
        }
        if !is_rising(clients, count) {
            return Err(Refusal::Malformed);
        }
        Ok(Vector {
            clients,
            clocks,
            count,
        })
    }

    /// How many rows it has, at most 256.
    pub fn len(self) -> usize
        ensures { result ≡ (lent self.entry).count }
    {
        self.count
    }

    /// The clock of a client, which is 0 where the vector has no row of it.
    pub fn get(self, client: Client) -> Clock
        ensures { result.0 ≡ at (rows (lent self.entry)) client.0 }
    {
        let clients = &self.clients[..self.count];
        let i = find(clients, client);
        if stands(clients, i, client) {
            return Clock(self.clocks[i]);
        }
        Clock(0)
    }

    /// The smaller of a client's clock and another one, which it is where the client has no row.
    pub(crate) fn smaller(self, client: Client, clock: Clock) -> Clock
        ensures { result.0 ≡ smaller (rows (lent self.entry)) client.0 clock.0 }
    {
        let clients = &self.clients[..self.count];
        let i = find(clients, client);
        if !stands(clients, i, client) {
            return clock;
        }
        Clock(self.clocks[i].min(clock.0))
    }
}

/// The place among rising clients where one stands, or would stand; one behind the last is found at once.
pub(crate) fn place(clients: &[u64], client: Client) -> usize
    requires { Climbs clients.now (length clients.now) }
    ensures { Finds clients.now (length clients.now) client.0 result }
{
    let n = clients.len();
    if n == 0 {
        return 0;
    }
    if clients[n - 1] < client.0 {
        return n;
    }
    find(clients, client)
}

// The same by halving: std's `binary_search` takes twice as long.
fn find(clients: &[u64], client: Client) -> usize
    requires { Climbs clients.now (length clients.now) }
    ensures { Finds clients.now (length clients.now) client.0 result }
{
    let mut lo: usize = 0;
    let mut hi = clients.len();
    while lo < hi {
        let mid = lo + (hi - lo) / 2;
        if clients[mid] < client.0 {
            lo = mid + 1;
        } else {
            hi = mid;
        }
    }
    lo
}

/// Whether a client stands at a place.
pub(crate) fn stands(clients: &[u64], i: usize, client: Client) -> bool
    ensures { Says (Stands clients.now (length clients.now) i client.0) result }
{
    if clients.len() <= i {
        return false;
    }
    if clients[i] == client.0 {
        return true;
    }
    false
}

// Whether the first n clients strictly rise.
fn is_rising(clients: &[u64], n: usize) -> bool
    requires { n ≤ length clients.now }
    ensures { Says (Climbs clients.now n) result }
{
    let mut ok = true;
    for i in 1..n {
        ok = ok & (clients[i - 1] < clients[i]);
    }
    ok
}
