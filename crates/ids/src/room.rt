//! Where a routine writes its table.

ghost use Rattle.std.specs.Prelude.{◌≡◌, ℕ, ◌≤◌, ◌<◌, IfOk, length, get_or};
ghost use Rattle.std.specs.Result.{result_unwrap_or};
ghost use Rattle.ids.specs.Tables.{room};
ghost use Rattle.ids.specs.Room.{lent, Same, kept};

use crate::place::Id;
use crate::view::fitting;
use tables::rows::{Room, Slot, WholeRoom};
use varint::Refusal;

/// Three lent slices for the rows of a result.
#[derive(Drop)]
pub struct IdRoom<'a> {
    pub(crate) clients: &'a mut [u64],
    pub(crate) starts: &'a mut [u32],
    pub(crate) ends: &'a mut [u32],
}

impl<'a> IdRoom<'a> {
    // The start that is stored at row `k`.
    fn start_at(&self, k: usize) -> u32
        requires { k < length self.now.starts.now }
        ensures { result ≡ get_or self.now.starts.now k 0 }
    {
        self.starts[k]
    }

    // The clocks that stand there fit their type.
    fn clocks_fit(&self)
        ensures starts { (j : ℕ) → get_or self.now.starts.now j 0 < 4294967296 }
        ensures ends { (j : ℕ) → get_or self.now.ends.now j 0 < 4294967296 }
    {
        all_fit(self.starts);
        all_fit(self.ends);
    }

    /// Zeroes every element from row `k` on.
    fn zero_from(&mut self, k: usize)
        requires { k ≤ room (lent self.old) }
        ensures same { Same self.old self.new }
        ensures zeroed { lent self.new ≡ kept (lent self.old) k }
    {
        self.clients[k..].fill(0);
        self.starts[k..].fill(0);
        self.ends[k..].fill(0);
    }

    /// Zeroes every element behind the rows that were made, or all where the routine refused.
    pub(crate) fn settled(&mut self, made: Result<usize, Refusal>) -> Result<usize, Refusal>
        requires { IfOk made (λ k. k ≤ room (lent self.old)) }
        ensures same { Same self.old self.new }
        ensures made { result ≡ made }
        ensures zeroed { lent self.new ≡ kept (lent self.old) (result_unwrap_or made 0) }
    {
        let rows = made.unwrap_or(0);
        self.zero_from(rows);
        made
    }
}

impl<'a> Room<Id> for IdRoom<'a> {
    ghost use Rattle.std.proofs.Common.{refl};
    ghost use Rattle.ids.specs.Room.{lent, lent_row};
    ghost use Rattle.ids.specs.Lines.{shape_of, most_of};

    ghost row_of = { λ o. lent_row (lent o) };

    ghost shape = { shape_of };

    ghost most = { most_of };

    ghost plain = { λ o k. refl };

    fn capacity(&self) -> usize {
        fitting(self.clients.len(), self.starts.len(), self.ends.len())
    }

    /// Stores the start of a row, and with it the client of the row.
    fn set_start(&mut self, at: Slot, p: Id) {
        if at.most <= self.capacity() {
            self.clients[at.index] = p.client.0;
            self.starts[at.index] = p.clock.0;
        }
    }

    /// Stores the end of a row, of the client that its start has.
    fn set_end(&mut self, at: Slot, p: Id) {
        if at.most <= self.capacity() {
            // Read for the proof alone: the start fits its type, so it lies in the line of its client.
            let _start = self.start_at(at.index);
            self.ends[at.index] = clock_of(p);
        }
    }

    fn move_down(&mut self, from: usize, to: usize) {
        let most = self.capacity();
        if to <= from && from <= most {
            self.clients.copy_within(from..most, to);
            self.starts.copy_within(from..most, to);
            self.ends.copy_within(from..most, to);
        }
    }
}

impl<'a> WholeRoom<Id> for IdRoom<'a> {
    ghost use Rattle.ids.specs.Lines.{cells_of, fill_of};

    ghost cells = { cells_of };

    ghost fill = { fill_of };

    fn clear_behind(&mut self, count: usize) {
        if count <= self.capacity() {
            // For the proof alone: the clocks fit their type, so the rows read back.
            self.clocks_fit();
            self.zero_from(count);
        }
    }
}

// The clock of an id.
fn clock_of(p: Id) -> u32
    ensures { result ≡ p.clock.0 }
{
    p.clock.0
}

// The clocks of a slice fit their type: said for proofs, with nothing to do.
fn all_fit(clocks: &[u32])
    ensures { (j : ℕ) → get_or clocks.now j 0 < 4294967296 }
{}
