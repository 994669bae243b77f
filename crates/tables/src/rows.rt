//! Rows of every kind: their places, tables to be read, and room for the rows of a result. The loops over two tables stand above these traits alone.

ghost use Rattle.std.specs.Prelude.{◌≡◌, ℕ, ◌+◌, ◌<◌, ◌≤◌, min, max, List, IfOk};
ghost use Rattle.tables.specs.Limits.{row_limit};
ghost use Rattle.tables.specs.Answers.{Says, Lays};
ghost use Rattle.tables.specs.Inner.Rows.{Row, span};
ghost use Rattle.tables.specs.Inner.Sweep.{Holds};
ghost use Rattle.tables.specs.Inner.Edit.{Moved};
ghost use Rattle.tables.specs.Inner.Kinds.{Ruled, Opens, Closes};
ghost use Rattle.std.proofs.Common.{rules};

use crate::Clock;
use varint::Refusal;

/// A place where a row can start or end: a clock, or a clock of a client.
pub trait Place: Copy {
    /// Where it stands among all places.
    ghost number: { Self → ℕ };

    /// The line that a number lies in. Each row lies in one: that of its client.
    ghost line: { ℕ → ℕ };

    /// The number of the last place.
    ghost top: { ℕ };

    /// The place before all others.
    fn first() -> Self
        ensures { number result ≡ 0 };

    /// The place behind all others.
    fn last() -> Self
        ensures { number result ≡ top };

    /// Whether it stands before the other.
    fn precedes(self, other: Self) -> bool
        ensures { Says (number self < number other) result };

    /// The one of the two that stands first.
    fn earlier(self, other: Self) -> Self
        ensures { number result ≡ min (number self) (number other) };

    /// The one of the two that stands last.
    fn later(self, other: Self) -> Self
        ensures { number result ≡ max (number self) (number other) };

    /// Lines follow each other.
    ghost rises: { (x y : ℕ) → x ≤ y → line x ≤ line y };

    /// There is more than one place.
    ghost wide: { 0 < top };
}

/// An index below a bound: that of a row among the rows of a table, or among those that fit into a room.
///
/// Whoever reads or stores by it tests the bound alone, which no loop changes.
#[derive(Clone, Copy, Debug)]
pub struct Slot {
    /// The index.
    pub index: usize,
    /// The bound, above the index.
    pub most: usize,
    ghost within: { index < most },
}

/// Rows to be read, by their index.
pub trait Rows<P: Place>: Copy {
    ghost row_of: { Self → ℕ → Row };

    ghost count: { Self → ℕ };

    /// How many rows there are.
    fn row_count(self) -> usize
        ensures { result ≡ count self };

    /// The start of the row at `at`, if the bound there is at most the number of rows.
    fn start(self, at: Slot) -> P
        ensures { at.most ≤ count self → P.number result ≡ (row_of self at.index).start };

    /// The end of the row at `at`, if the bound there is at most the number of rows.
    fn end(self, at: Slot) -> P
        ensures { at.most ≤ count self → P.number result ≡ (row_of self at.index).end };
}

/// Rows that keep the rules of a table: none is empty, and each ends before the next one starts.
pub trait Table<P: Place>: Rows<P> {
    ghost ruled: { (t : Self) → Ruled P.line P.top (Self.row_of t) (Self.count t) };
}

/// Room for the rows of a result.
pub trait Room<P: Place> {
    ghost row_of: { Self → ℕ → Row };

    /// The lengths of what it lies in.
    ghost shape: { Self → List ℕ };

    /// How many rows fit into that, within the limit.
    ghost most: { List ℕ → ℕ };

    /// How many rows fit.
    fn capacity(&self) -> usize
        ensures value { result ≡ most (shape self.now) }
        ensures few { result ≤ row_limit };

    /// Stores the start of the row at `at`, if the bound there is at most the number of rows that fit.
    fn set_start(&mut self, at: Slot, p: P)
        ensures opens { at.most ≤ most (shape self.old) → Opens (most (shape self.old)) (row_of self.old) at.index (P.number p) (row_of self.new) }
        ensures same { shape self.new ≡ shape self.old };

    /// Stores the end of the row at `at`, in the line that it starts in, if the bound there is at most the number of rows that fit.
    fn set_end(&mut self, at: Slot, p: P)
        ensures closes { at.most ≤ most (shape self.old) → Closes P.line (most (shape self.old)) (row_of self.old) at.index (P.number p) (row_of self.new) }
        ensures same { shape self.new ≡ shape self.old };

    /// Brings the rows from `from` on down to row `to` on, if that is not behind `from`, and `from` not behind the last row that fits.
    fn move_down(&mut self, from: usize, to: usize)
        ensures moved { to ≤ from → from ≤ most (shape self.old) → Moved (row_of self.old) from (most (shape self.old)) (row_of self.old) to (row_of self.new) }
        ensures same { shape self.new ≡ shape self.old };

    ghost plain: { (r : Self) (k : ℕ) → (row_of r k).weight ≡ 1 };
}

/// Room of which every element is told, those behind the rows too.
pub trait WholeRoom<P: Place>: Room<P> {
    /// Every element of what it lies in, slice by slice.
    ghost cells: { Self → List (List ℕ) };

    /// What lies in slices of these lengths, with these rows in front and every later element zero.
    ghost fill: { List ℕ → List Row → List (List ℕ) };

    /// Zeroes every element behind the first `count` rows, if as many fit.
    fn clear_behind(&mut self, count: usize)
        ensures cleared { count ≤ Self.most (Self.shape self.old) → cells self.new ≡ fill (Self.shape self.old) (span (Self.row_of self.old) 0 count) }
        ensures stays { count ≤ Self.most (Self.shape self.old) → span (Self.row_of self.new) 0 count ≡ span (Self.row_of self.old) 0 count }
        ensures kept { Self.most (Self.shape self.old) < count → cells self.new ≡ cells self.old }
        ensures same { Self.shape self.new ≡ Self.shape self.old };
}

impl Place for Clock {
    ghost number = { λ c. c.0 };

    ghost line = { λ n. 0 };

    ghost top = { 4294967295 };

    ghost rises = { Prim.search rules };

    ghost wide = { Prim.search rules };

    fn first() -> Clock {
        Clock(0)
    }

    fn last() -> Clock {
        Clock(u32::MAX)
    }

    fn precedes(self, other: Clock) -> bool {
        self.0 < other.0
    }

    fn earlier(self, other: Clock) -> Clock {
        Clock(self.0.min(other.0))
    }

    fn later(self, other: Clock) -> Clock {
        Clock(self.0.max(other.0))
    }
}

// The start of row `index`.
pub(crate) fn start_at<P: Place, T: Rows<P>>(table: T, index: usize) -> P
    requires { index < T.count table }
    ensures { P.number result ≡ (T.row_of table index).start }
{
    let most = table.row_count();
    table.start(Slot { index, most })
}

// The end of row `index`.
pub(crate) fn end_at<P: Place, T: Rows<P>>(table: T, index: usize) -> P
    requires { index < T.count table }
    ensures { P.number result ≡ (T.row_of table index).end }
{
    let most = table.row_count();
    table.end(Slot { index, most })
}

// The start of row `index` stored.
pub(crate) fn set_start_at<P: Place, R: Room<P>>(out: &mut R, index: usize, p: P)
    requires { index < R.most (R.shape out.old) }
    ensures opens { Opens (R.most (R.shape out.old)) (R.row_of out.old) index (P.number p) (R.row_of out.new) }
    ensures same { R.shape out.new ≡ R.shape out.old }
{
    let most = out.capacity();
    out.set_start(Slot { index, most }, p);
}

// The end of row `index` stored.
pub(crate) fn set_end_at<P: Place, R: Room<P>>(out: &mut R, index: usize, p: P)
    requires { index < R.most (R.shape out.old) }
    ensures closes { Closes P.line (R.most (R.shape out.old)) (R.row_of out.old) index (P.number p) (R.row_of out.new) }
    ensures same { R.shape out.new ≡ R.shape out.old }
{
    let most = out.capacity();
    out.set_end(Slot { index, most }, p);
}

// The answer of a loop that has laid `count` rows: behind them every element becomes zero, or everywhere, if there is no room for so many.
pub(crate) fn finish<P: Place, R: WholeRoom<P>>(out: &mut R, count: usize) -> Result<usize, Refusal>
    ensures lays { (rs : List Row) → Holds (R.most (R.shape out.old)) (R.row_of out.old) count rs → Lays rs (R.most (R.shape out.old)) (R.fill (R.shape out.old)) (R.cells out.new) result }
    ensures holds { (rs : List Row) → Holds (R.most (R.shape out.old)) (R.row_of out.old) count rs → IfOk result (λ k. span (R.row_of out.new) 0 k ≡ rs) }
    ensures same { R.shape out.new ≡ R.shape out.old }
{
    if out.capacity() < count {
        out.clear_behind(0);
        return Err(Refusal::Full);
    }
    out.clear_behind(count);
    Ok(count)
}
