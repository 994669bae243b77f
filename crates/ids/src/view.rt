//! A table that was checked: a view of the three slices that it lies in.

ghost use Rattle.std.specs.Prelude.{◌≡◌, ℕ, ◌+◌, ◌≤◌, ◌<◌, length, get_or, min, MatchResult};
ghost use Rattle.tables.specs.Answers.{Says};
ghost use Rattle.tables.specs.Limits.{row_limit};
ghost use Rattle.ids.specs.Tables.{held, Table};
ghost use Rattle.tables.specs.Inner.Kinds.{Ruled};
ghost use Rattle.ids.specs.Places.{number_of, id_row, NoneEmpty, Apart, Typed, IdTable, Checked};
ghost use Rattle.ids.specs.Lines.{client_of, final};

use crate::place::Id;
use tables::rows::{Place, Rows, Slot, Table};
use tables::{Client, Clock, ROW_LIMIT};
use varint::Refusal;

/// An id table that lies in three lent slices, and was found to keep the rules of tables: its questions have no check left.
#[derive(Clone, Copy, Debug)]
pub struct Ids<'a> {
    pub(crate) clients: &'a [u64],
    pub(crate) starts: &'a [u32],
    pub(crate) ends: &'a [u32],
    pub(crate) count: usize,
    ghost typed: { Typed clients.now starts.now ends.now },
    ghost table: { IdTable clients.now starts.now ends.now count },
    ghost ruled: { Ruled client_of final (id_row clients.now starts.now ends.now) count },
}

impl<'a> Ids<'a> {
    ghost use Rattle.ids.specs.View.{shown, start_at, end_at};

    /// The first `count` rows of three slices, if they are a table.
    ///
    /// # Errors
    /// [`Refusal::Malformed`] where the count exceeds the limit or a slice's length, or the rows break the rules of tables.
    pub fn checked(
        clients: &'a [u64],
        starts: &'a [u32],
        ends: &'a [u32],
        count: usize,
    ) -> Result<Ids<'a>, Refusal>
        ensures { MatchResult result
            (λ t. (shown t ≡ held clients.now starts.now ends.now count) × Table (held clients.now starts.now ends.now count))
            (λ e. (e ≡ Refusal.Malformed) × (Table (held clients.now starts.now ends.now count) → ⊥)) }
    {
        if !is_table(clients, starts, ends, count) {
            return Err(Refusal::Malformed);
        }
        Ok(Ids {
            clients,
            starts,
            ends,
            count,
        })
    }

    /// Where the row `i` starts.
    pub(crate) fn start_of(self, i: usize) -> Id
        requires { i < self.count }
        ensures { result ≡ start_at self.entry i }
    {
        Id {
            client: Client(self.clients[i]),
            clock: Clock(self.starts[i]),
        }
    }

    /// The id behind the last one of the row `i`.
    pub(crate) fn end_of(self, i: usize) -> Id
        requires { i < self.count }
        ensures { result ≡ end_at self.entry i }
    {
        Id {
            client: Client(self.clients[i]),
            clock: Clock(self.ends[i]),
        }
    }
}

impl<'a> Rows<Id> for Ids<'a> {
    ghost use Rattle.ids.specs.View.{placed};

    ghost row_of = { placed };

    ghost count = { λ t. t.count };

    fn row_count(self) -> usize {
        self.count
    }

    fn start(self, at: Slot) -> Id {
        if self.count < at.most {
            return Id::first();
        }
        self.start_of(at.index)
    }

    fn end(self, at: Slot) -> Id {
        if self.count < at.most {
            return Id::first();
        }
        self.end_of(at.index)
    }
}

impl<'a> Table<Id> for Ids<'a> {
    ghost ruled = { λ t. t.ruled };
}

/// How many rows three slices of these lengths hold, within the limit.
pub(crate) fn fitting(clients: usize, starts: usize, ends: usize) -> usize
    ensures { result ≡ min row_limit (min clients (min starts ends)) }
{
    ROW_LIMIT.min(clients.min(starts.min(ends)))
}

// Whether none of the first `n` rows is empty.
fn none_empty(starts: &[u32], ends: &[u32], n: usize) -> bool
    requires { (n ≤ length starts.now) × (n ≤ length ends.now) }
    ensures { Says ((j : ℕ) → j < n → NoneEmpty starts.now ends.now j) result }
{
    let mut ok = true;
    for i in 0..n {
        ok = ok & (starts[i] < ends[i]);
    }
    ok
}

// Whether row `next` starts past the end of row `i`.
fn follows(clients: &[u64], starts: &[u32], ends: &[u32], i: usize, next: usize) -> bool
    requires { (i < length clients.now) × (next < length clients.now) × (i < length ends.now) × (next < length starts.now) }
    ensures { Says (number_of (get_or clients.now i 0) (get_or ends.now i 0) < number_of (get_or clients.now next 0) (get_or starts.now next 0)) result }
{
    let end = Id {
        client: Client(clients[i]),
        clock: Clock(ends[i]),
    };
    let start = Id {
        client: Client(clients[next]),
        clock: Clock(starts[next]),
    };
    end.is_before(start)
}

// Whether each of the first `n` rows starts past the end of the row before it.
fn apart(clients: &[u64], starts: &[u32], ends: &[u32], n: usize) -> bool
    requires { (n ≤ length clients.now) × (n ≤ length starts.now) × (n ≤ length ends.now) }
    ensures { Says ((j : ℕ) → j + 1 < n → Apart clients.now starts.now ends.now j) result }
{
    let mut ok = true;
    for next in 1..n {
        ok = ok & follows(clients, starts, ends, next - 1, next);
    }
    ok
}

// Whether the slices hold a table. No early exit.
fn is_table(clients: &[u64], starts: &[u32], ends: &[u32], count: usize) -> bool
    ensures { Checked clients.now starts.now ends.now count result }
{
    if fitting(clients.len(), starts.len(), ends.len()) < count {
        return false;
    }
    none_empty(starts, ends, count) & apart(clients, starts, ends, count)
}
