//! What the routines read and write: a vector that was checked, and room for one. Here are the types alone: a file of specs/ that names them
//! cannot be cited where they are declared.
#![tactic(auto)]

ghost use Rattle.std.specs.Prelude.{◌≡◌, ◌≤◌, min};
ghost use Rattle.tables.specs.Limits.{vector_limit};
ghost use Rattle.tables.specs.Inner.Climb.{Climbs};
ghost use Rattle.state_vector.specs.Bytes.{Typed};
ghost use Rattle.state_vector.specs.Vectors.{two, room, most};

use tables::VECTOR_LIMIT;

/// A vector in two lent slices that was checked: rows (client, clock), clients rising. Its methods check nothing.
#[derive(Clone, Copy, Debug)]
pub struct Vector<'a> {
    pub(crate) clients: &'a [u64],
    pub(crate) clocks: &'a [u32],
    pub(crate) count: usize,
    ghost few: { count ≤ most (two clients.now clocks.now) },
    ghost climbs: { Climbs clients.now count },
    ghost typed: { Typed (two clients.now clocks.now) },
}

/// Two lent slices for the rows of a vector, and how many rows they may hold.
#[derive(Drop)]
pub(crate) struct VectorRoom<'a> {
    pub(crate) clients: &'a mut [u64],
    pub(crate) clocks: &'a mut [u32],
    pub(crate) most: usize,
    ghost fits: { most ≡ min vector_limit (room (two clients.now clocks.now)) },
}

impl<'a> VectorRoom<'a> {
    /// Room for as many rows as the shorter slice has elements, and no more than a vector may have.
    #[inline(always)]
    pub(crate) fn new(clients: &'a mut [u64], clocks: &'a mut [u32]) -> VectorRoom<'a>
        ensures clients { result.clients ≡ clients.entry }
        ensures clocks { result.clocks ≡ clocks.entry }
    {
        let most = VECTOR_LIMIT.min(clients.len().min(clocks.len()));
        VectorRoom {
            clients,
            clocks,
            most,
        }
    }
}
