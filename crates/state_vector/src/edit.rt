//! A client's clock set.
#![tactic(auto)]

ghost use Rattle.std.specs.Prelude.{◌≡◌};
ghost use Rattle.state_vector.specs.Rows.{Set, SetMin, SetMax};
ghost use Rattle.state_vector.specs.Vectors.{two, held, rows, rows_of, Table, MinSet, MaxSet};
ghost use Rattle.state_vector.specs.Lent.{lent, lends, Kept};
ghost use Rattle.state_vector.specs.Inner.{Makes};

use crate::vector::{Vector, VectorRoom};
use tables::{Client, Clock};
use varint::Refusal;

/// Writes the vector with the smaller of a client's clock and `clock`, and with `clock` itself for a client that has no row: how many
/// rows it has. Every later element becomes zero. After `set_min` of yrs.
///
/// # Errors
/// [`Refusal::Malformed`] where the first `count` rows are no vector, [`Refusal::Full`] where the result has more rows than the output
/// holds or than a vector may have. Then every element of the output is zero.
pub fn set_min(
    clients: &[u64],
    clocks: &[u32],
    count: usize,
    client: Client,
    clock: Clock,
    to_clients: &mut [u64],
    to_clocks: &mut [u32],
) -> Result<usize, Refusal>
    ensures { MinSet (held clients.now clocks.now count) client.0 clock.0
        (two to_clients.old to_clocks.old) (two to_clients.new to_clocks.new) result }
{
    let mut room = VectorRoom::new(to_clients, to_clocks);
    let made = smaller_set(clients, clocks, count, client, clock, &mut room);
    room.settle(made.unwrap_or(0));
    made
}

/// Writes the vector with the larger of a client's clock and `clock`, with a row for the client where it had none: how many rows it has.
/// Every later element becomes zero. After `set_max` of yrs.
///
/// # Errors
/// [`Refusal::Malformed`] where the first `count` rows are no vector, [`Refusal::Full`] where the result has more rows than the output
/// holds or than a vector may have. Then every element of the output is zero.
pub fn set_max(
    clients: &[u64],
    clocks: &[u32],
    count: usize,
    client: Client,
    clock: Clock,
    to_clients: &mut [u64],
    to_clocks: &mut [u32],
) -> Result<usize, Refusal>
    ensures { MaxSet (held clients.now clocks.now count) client.0 clock.0
        (two to_clients.old to_clocks.old) (two to_clients.new to_clocks.new) result }
{
    let mut room = VectorRoom::new(to_clients, to_clocks);
    let made = larger_set(clients, clocks, count, client, clock, &mut room);
    room.settle(made.unwrap_or(0));
    made
}

// The vector with the smaller clock of a client, before what stands behind it is settled.
fn smaller_set(
    clients: &[u64],
    clocks: &[u32],
    count: usize,
    client: Client,
    clock: Clock,
    room: &mut VectorRoom<'_>,
) -> Result<usize, Refusal>
    ensures makes { Makes (Table (held clients.now clocks.now count)) (SetMin (rows_of count clients.now clocks.now) client.0 clock.0)
        (lends room.old) (lends room.new) result }
    ensures kept { Kept room.old room.new }
{
    let vector = Vector::checked(clients, clocks, count)?;
    vector.set(client, vector.smaller(client, clock), room)
}

// The vector with the larger clock of a client, before what stands behind it is settled.
fn larger_set(
    clients: &[u64],
    clocks: &[u32],
    count: usize,
    client: Client,
    clock: Clock,
    room: &mut VectorRoom<'_>,
) -> Result<usize, Refusal>
    ensures makes { Makes (Table (held clients.now clocks.now count)) (SetMax (rows_of count clients.now clocks.now) client.0 clock.0)
        (lends room.old) (lends room.new) result }
    ensures kept { Kept room.old room.new }
{
    let vector = Vector::checked(clients, clocks, count)?;
    let k = vector.get(client).0.max(clock.0);
    vector.set(client, Clock(k), room)
}

impl<'a> Vector<'a> {
    // The vector with one client's clock set.
    fn set(self, client: Client, clock: Clock, room: &mut VectorRoom<'_>) -> Result<usize, Refusal>
        ensures makes { Makes (Table (lent self.entry)) (Set (rows (lent self.entry)) client.0 clock.0) (lends room.old) (lends room.new) result }
        ensures kept { Kept room.old room.new }
    {
        let n = self.count;
        room.fitting(n)?;
        room.clients[..n].copy_from_slice(&self.clients[..n]);
        room.clocks[..n].copy_from_slice(&self.clocks[..n]);
        let k = room.put(n, client, clock);
        room.fitting(k)
    }
}
