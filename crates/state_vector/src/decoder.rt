//! Bytes read as a vector.
#![tactic(auto)]

ghost use Rattle.std.specs.Prelude.{◌≡◌, []};
ghost use Rattle.varint.specs.Answer.{said};
ghost use Rattle.state_vector.specs.Vectors.{two};
ghost use Rattle.state_vector.specs.Bytes.{pairs_at, vector_at, Decodes};
ghost use Rattle.state_vector.specs.Lent.{lends, Kept};
ghost use Rattle.state_vector.specs.Inner.{Reads, count_of};

use crate::vector::VectorRoom;
use tables::{Client, Clock};
use varint::{Read, Refusal};

/// Reads a vector at a place of the bytes: how many rows it has, and the place past it. Pairs stand in any order; of a client that comes
/// again the last clock counts. Every later element of the output becomes zero. After the `Decode` of yrs.
///
/// # Errors
/// The first refusal met, from left to right: [`Refusal::End`] or [`Refusal::Long`] of a number, or [`Refusal::Full`] at the first pair that
/// needs a row that is not there, whatever count is declared. Then every element of the output is zero.
pub fn decode(
    bytes: &[u8],
    at: usize,
    to_clients: &mut [u64],
    to_clocks: &mut [u32],
) -> Result<Read<usize>, Refusal>
    ensures { Decodes bytes.now at (two to_clients.old to_clocks.old) (two to_clients.new to_clocks.new)
        (said (λ n. n) at result) }
{
    let mut room = VectorRoom::new(to_clients, to_clocks);
    let read = decoded(bytes, at, &mut room);
    room.settle(count_of(read));
    read
}

// The vector at a place, before what stands behind it is settled.
fn decoded(bytes: &[u8], at: usize, room: &mut VectorRoom<'_>) -> Result<Read<usize>, Refusal>
    ensures reads { Reads room.old.most (vector_at room.old.most bytes.now at) (lends room.new) result }
    ensures kept { Kept room.old room.new }
{
    let Read { value: count, next } = varint::read_u32(bytes, at)?;
    decode_pairs(bytes, next, count, room)
}

// The pairs declared, each put in its place. A pair takes two bytes or more, so that they are read no further than the bytes go, whatever
// count is declared; one behind the last row costs no search.
fn decode_pairs(
    bytes: &[u8],
    start: usize,
    count: u32,
    room: &mut VectorRoom<'_>,
) -> Result<Read<usize>, Refusal>
    ensures reads { Reads room.old.most (pairs_at room.old.most bytes.now count [] start) (lends room.new) result }
    ensures kept { Kept room.old room.new }
{
    let mut next = start;
    let mut n = 0;
    for _ in 0..count {
        let client = varint::read_var_u64(bytes, next)?;
        let clock = varint::read_var_u32(bytes, client.next)?;
        let k = room.put(n, Client(client.value), Clock(clock.value));
        n = room.fitting(k)?;
        next = clock.next;
    }
    Ok(Read { value: n, next })
}

// How many rows were read.
fn count_of(read: Result<Read<usize>, Refusal>) -> usize
    ensures { result ≡ count_of read }
{
    read.map_or(0, |read| read.value)
}
