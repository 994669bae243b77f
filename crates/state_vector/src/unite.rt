//! The vector of two.
#![tactic(auto)]

ghost use Rattle.std.specs.Prelude.{◌≡◌, cond, ◌*◌, ◌≤◌, ◌<◌, max, eqb, length};
ghost use Rattle.tables.specs.Limits.{vector_limit};
ghost use Rattle.state_vector.specs.Rows.{Merge};
ghost use Rattle.state_vector.specs.Vectors.{two, held, rows, rows_of, Table, Merged};
ghost use Rattle.state_vector.specs.Lent.{lent, lends, Kept};
ghost use Rattle.state_vector.specs.Inner.{Makes, Firsts, element, Passes, Rests, Fronts, Unites};

use crate::vector::{Vector, VectorRoom};
use varint::Refusal;

/// Writes the vector of every client of either side, with the larger clock: how many rows it has. Every later element becomes zero.
/// After `merge` of yrs.
///
/// # Errors
/// [`Refusal::Malformed`] where the first rows of either side are no vector, [`Refusal::Full`] where the result has more rows than the
/// output holds or than a vector may have. Then every element of the output is zero.
pub fn merge(
    clients: &[u64],
    clocks: &[u32],
    count: usize,
    b_clients: &[u64],
    b_clocks: &[u32],
    b_count: usize,
    to_clients: &mut [u64],
    to_clocks: &mut [u32],
) -> Result<usize, Refusal>
    ensures { Merged (held clients.now clocks.now count) (held b_clients.now b_clocks.now b_count)
        (two to_clients.old to_clocks.old) (two to_clients.new to_clocks.new) result }
{
    let mut room = VectorRoom::new(to_clients, to_clocks);
    let made = merged(
        clients, clocks, count, b_clients, b_clocks, b_count, &mut room,
    );
    room.settle(made.unwrap_or(0));
    made
}

// The vector of two, before what stands behind it is settled.
fn merged(
    clients: &[u64],
    clocks: &[u32],
    count: usize,
    b_clients: &[u64],
    b_clocks: &[u32],
    b_count: usize,
    room: &mut VectorRoom<'_>,
) -> Result<usize, Refusal>
    ensures makes { Makes (Table (held clients.now clocks.now count) × Table (held b_clients.now b_clocks.now b_count))
        (Merge (rows_of count clients.now clocks.now) (rows_of b_count b_clients.now b_clocks.now))
        (lends room.old) (lends room.new) result }
    ensures kept { Kept room.old room.new }
{
    let a = Vector::checked(clients, clocks, count)?;
    let b = Vector::checked(b_clients, b_clocks, b_count)?;
    let k = merge_rows(a, b, room);
    room.fitting(k)
}

// The rows of two vectors merged: how many they are. They stand in front where there is room for them. Behind the first rows it goes a
// client a step.
fn merge_rows(a: Vector<'_>, b: Vector<'_>, room: &mut VectorRoom<'_>) -> usize
    ensures unites { Unites (rows (lent a.entry)) (rows (lent b.entry)) room.old.most (lends room.new) result }
    ensures kept { Kept room.old room.new }
{
    let front = merge_front(a, b, room);
    let mut i = front;
    let mut j = front;
    let mut k = front;
    // No `for`: two indices, of which either moves or stays by the clients.
    while i < a.count {
        if b.count <= j {
            return rest(a, i, room, k);
        }
        let p = a.clients[i];
        let q = b.clients[j];
        let x = p.min(q);
        let y = counted(p, x, a.clocks[i]).max(counted(q, x, b.clocks[j]));
        room.store(k, x, y);
        i = passed(i, p, x);
        j = passed(j, q, x);
        k += 1;
    }
    rest(b, j, room, k)
}

// The first rows merged, by columns, as long as they have the same clients and there is room: how many.
fn merge_front(a: Vector<'_>, b: Vector<'_>, room: &mut VectorRoom<'_>) -> usize
    ensures fronts { Fronts (lent a.entry).slices a.entry.count (lent b.entry).slices b.entry.count room.old.most (lends room.new) result }
    ensures kept { Kept room.old room.new }
{
    let front = a.same_front(b).min(room.most);
    room.clients[..front].copy_from_slice(&a.clients[..front]);
    larger_front(a.clocks, b.clocks, front, room.clocks);
    front
}

// The larger of the first n clocks, one by one.
fn larger_front(clocks: &[u32], b_clocks: &[u32], n: usize, to_clocks: &mut [u32])
    requires { (n ≤ length clocks.now) × (n ≤ length b_clocks.now) × (n ≤ length to_clocks.old) }
    ensures { Firsts n (λ j. max (element clocks.now j) (element b_clocks.now j)) to_clocks.new }
{
    for i in 0..n {
        to_clocks[i] = clocks[i].max(b_clocks[i]);
    }
}

// The rows from a place on, behind k rows: how many there are then.
#[inline(always)]
fn rest(a: Vector<'_>, from: usize, room: &mut VectorRoom<'_>, have: usize) -> usize
    requires from_bound { from ≤ a.count }
    requires have_bound { have ≤ 2 * vector_limit }
    ensures rests { Rests room.old.most (lent a.entry).slices from a.entry.count (lends room.old) have (lends room.new) result }
    ensures kept { Kept room.old room.new }
{
    let mut k = have;
    for i in from..a.count {
        room.store(k, a.clients[i], a.clocks[i]);
        k += 1;
    }
    k
}

// The clock of a row of client p where it is that of client x; else 0.
fn counted(p: u64, x: u64, clock: u32) -> u32
    ensures { result ≡ cond (eqb p x) clock 0 }
{
    if p == x { clock } else { 0 }
}

// A row of client p is passed where it is that of client x.
pub(crate) fn passed(i: usize, p: u64, x: u64) -> usize
    requires { i < vector_limit }
    ensures { Passes i p x result }
{
    if p == x { i + 1 } else { i }
}
