// A range table that was checked once.
ghost use Rattle.std.specs.Prelude.{◌≡◌, ℕ, ◌<◌, MatchResult};
ghost use Rattle.tables.specs.Answers.{Says};
ghost use Rattle.tables.specs.Inner.Kinds as kinds;
ghost use Rattle.ranges.specs.Ruled.{row_at, Ruled};
ghost use Rattle.ranges.specs.Tables.{Table};

use tables::rows::{Rows, Slot, Table};
use tables::{Clock, ROW_LIMIT};
use varint::Refusal;

/// A range table that was checked: rows (start, end) in a lent slice, as start, end, start, end. What is asked of it is answered without another
/// check. After `IdRanges` of yrs, with rows that are lent.
#[derive(Clone, Copy, Debug)]
pub struct Ranges<'a> {
    pub(crate) flat: &'a [u32],
    pub(crate) count: usize,
    ghost ruled: { Ruled flat.now count },
    ghost lined: { kinds.Ruled (λ _. 0) 4294967295 (row_at flat.now) count },
}

/// A row of a range table: the clocks start, .., end - 1. Where start is not below end it holds none, and stands in no table.
#[derive(Clone, Copy, Debug, PartialEq, Eq, PartialOrd, Ord, Hash)]
pub struct Row {
    /// The first clock.
    pub start: Clock,
    /// One past the last clock.
    pub end: Clock,
}

impl<'a> Ranges<'a> {
    /// The first `count` rows of `rows`, as a table.
    ///
    /// # Errors
    ///
    /// `Malformed` if they are no table: there are more than 1,024 or more than `rows` holds, a start is not below its end, or an end not
    /// below the next start.
    pub fn checked(rows: &'a [u32], count: usize) -> Result<Ranges<'a>, Refusal>
        ensures { MatchResult result (λ t. Table rows.now count × (t.flat.now ≡ rows.now) × (t.count ≡ count)) (λ e. (e ≡ Refusal.Malformed) × (Table rows.now count → ⊥)) }
    {
        if !well_formed(rows, count) {
            return Err(Refusal::Malformed);
        }
        Ok(Ranges { flat: rows, count })
    }

    /// The start of row `i`.
    pub(crate) fn start_of(self, i: usize) -> Clock
        requires { i < self.count }
        ensures { result.0 ≡ (row_at self.entry.flat.now i).start }
    {
        Clock(self.flat[2 * i])
    }

    /// The end of row `i`.
    pub(crate) fn end_of(self, i: usize) -> Clock
        requires { i < self.count }
        ensures { result.0 ≡ (row_at self.entry.flat.now i).end }
    {
        Clock(self.flat[2 * i + 1])
    }
}

impl<'a> Rows<Clock> for Ranges<'a> {
    ghost row_of = { λ t. row_at t.flat.now };

    ghost count = { λ t. t.count };

    fn row_count(self) -> usize {
        self.count
    }

    fn start(self, at: Slot) -> Clock {
        if self.count < at.most {
            return Clock(0);
        }
        self.start_of(at.index)
    }

    fn end(self, at: Slot) -> Clock {
        if self.count < at.most {
            return Clock(0);
        }
        self.end_of(at.index)
    }
}

impl<'a> Table<Clock> for Ranges<'a> {
    ghost ruled = { λ t. t.lined };
}

// Whether the first `count` rows are a table. No early exit: the pass over the rows becomes SIMD.
fn well_formed(rows: &[u32], count: usize) -> bool
    ensures { Says (Ruled rows.now count) result }
{
    if ROW_LIMIT < count {
        return false;
    }
    if rows.len() / 2 < count {
        return false;
    }
    let mut ok = true;
    for i in 1..2 * count {
        ok = ok & (rows[i - 1] < rows[i]);
    }
    ok
}
