// Where a routine writes its table, and what it leaves there.
ghost use Rattle.std.specs.Prelude.{◌≡◌, ◌++◌, ℕ, ◌+◌, ◌-◌, ◌*◌, ◌<◌, ◌≤◌, length, take, replicate, IfOk};
ghost use Rattle.tables.specs.Inner.Edit.{Moved};
ghost use Rattle.ranges.specs.Tables.{most};
ghost use Rattle.ranges.specs.Inner.{row_at, remains};

use tables::rows::{Room, Slot, WholeRoom};
use tables::{Clock, ROW_LIMIT};
use varint::Refusal;

// How many rows a lent slice of `len` elements holds.
pub(crate) fn fitting(len: usize) -> usize
    ensures { result ≡ most len }
{
    ROW_LIMIT.min(len / 2)
}

// The rows from `j` on, down to row `c` on.
pub(crate) fn move_down(out: &mut [u32], j: usize, k: usize, c: usize)
    requires c_le_j { c ≤ j }
    requires j_le_k { j ≤ k }
    requires k_in_bounds { 2 * k ≤ length out.old }
    ensures { Moved (row_at out.old) j k (row_at out.old) c (row_at out.new) }
{
    out.copy_within(2 * j..2 * k, 2 * c);
}

// Room for the rows of a result, in a lent slice.
#[derive(Drop)]
pub(crate) struct RangeRoom<'a> {
    pub(crate) flat: &'a mut [u32],
}

impl<'a> Room<Clock> for RangeRoom<'a> {
    ghost use Rattle.std.proofs.Common.{refl};
    ghost use Rattle.std.specs.Prelude.{[], ◌∷◌, length, get_or};
    ghost use Rattle.ranges.specs.Ruled.{row_at};
    ghost use Rattle.ranges.specs.Tables.{most};

    ghost row_of = { λ r. row_at r.flat.now };

    ghost shape = { λ r. length r.flat.now ∷ r.flat.ghost_name ∷ [] };

    ghost most = { λ l. most (get_or l 0 0) };

    ghost plain = { λ r k. refl };

    fn capacity(&self) -> usize {
        fitting(self.flat.len())
    }

    fn set_start(&mut self, at: Slot, p: Clock) {
        if at.most <= self.capacity() {
            self.flat[2 * at.index] = p.0;
        }
    }

    fn set_end(&mut self, at: Slot, p: Clock) {
        if at.most <= self.capacity() {
            self.flat[2 * at.index + 1] = p.0;
        }
    }

    fn move_down(&mut self, from: usize, to: usize) {
        let most = self.capacity();
        if to <= from && from <= most {
            move_down(self.flat, from, most, to);
        }
    }
}

impl<'a> WholeRoom<Clock> for RangeRoom<'a> {
    ghost use Rattle.std.specs.Prelude.{[], ◌∷◌, get_or, map};
    ghost use Rattle.ranges.specs.Tables.{filled};
    ghost use Rattle.ranges.specs.Inner.{bare};

    ghost cells = { λ r. r.flat.now ∷ [] };

    ghost fill = { λ l rs. filled (get_or l 0 0) (map bare rs) ∷ [] };

    fn clear_behind(&mut self, count: usize) {
        if count <= self.capacity() {
            clear_behind(self.flat, count);
        }
    }
}

// Zero behind the first `count` rows.
fn clear_behind(out: &mut [u32], count: usize)
    requires { 2 * count ≤ length out.old }
    ensures { out.new ≡ take (2 * count) out.old ++ replicate (length out.old - 2 * count) 0 }
{
    out[2 * count..].fill(0);
}

// Zero behind the rows that a routine made, or everywhere if it refused.
pub(crate) fn settled(out: &mut [u32], made: Result<usize, Refusal>) -> Result<usize, Refusal>
    requires { IfOk made (λ k. 2 * k ≤ length out.old) }
    ensures same { result ≡ made }
    ensures left { out.new ≡ remains out.old made }
{
    clear_behind(out, made.unwrap_or(0));
    made
}
