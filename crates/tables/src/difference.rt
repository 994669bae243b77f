//! The difference of two tables: the intersection of the one with the gaps of the other.

ghost use Rattle.std.specs.Prelude.{◌≡◌, ℕ, ◌+◌, ◌-◌, ◌*◌, ◌<◌, ◌≤◌, IfOk};
ghost use Rattle.tables.specs.Limits.{row_limit};
ghost use Rattle.tables.specs.Answers.{Says, Lays};
ghost use Rattle.tables.specs.Inner.Rows.{span, combined, difference};
ghost use Rattle.tables.specs.Inner.Sweep.{Holds};
ghost use Rattle.tables.specs.Inner.Differ.{GapStart, GapEnd};
ghost use Rattle.tables.specs.Inner.Ends.{Inside, GapsFrom, GapsTo};
ghost use Rattle.tables.specs.Inner.Walk.{between_rows};

use crate::rows::{Place, Room, Rows, Slot, Table, WholeRoom, end_at, finish, start_at};
use crate::walking::{High, Low, Piece, between, down, row_at, settle, sweep, turns, up};
use varint::Refusal;

// The gaps between two rows of a table, from that behind row `lo` on.
#[derive(Clone, Copy)]
struct Between<T> {
    of: T,
    lo: usize,
}

impl<P: Place, T: Table<P>> Rows<P> for Between<T> {
    ghost row_of = { λ t. between_rows (T.row_of t.of) t.lo };

    ghost count = { λ t. T.count t.of - t.lo - 1 };

    fn row_count(self) -> usize {
        self.of
            .row_count()
            .saturating_sub(self.lo)
            .saturating_sub(1)
    }

    fn start(self, at: Slot) -> P {
        if self.row_count() < at.most {
            return P::first();
        }
        end_at(self.of, self.lo + at.index)
    }

    fn end(self, at: Slot) -> P {
        if self.row_count() < at.most {
            return P::first();
        }
        start_at(self.of, self.lo + at.index + 1)
    }
}

// Where the gap before row `j` starts: behind the row before.
fn gap_start<P: Place, T: Table<P>>(b: T, j: usize) -> P
    requires { j ≤ T.count b }
    ensures { GapStart (T.row_of b) j (P.number result) }
{
    if j == 0 {
        return P::first();
    }
    end_at(b, j - 1)
}

// Where the gap before row `j` ends. Behind the last row there is a gap too.
fn gap_end<P: Place, T: Table<P>>(b: T, j: usize) -> P
    ensures { GapEnd P.top (T.row_of b) (T.count b) j (P.number result) }
{
    if j < b.row_count() {
        return start_at(b, j);
    }
    P::last()
}

// The gap before row `j`.
fn gap_at<P: Place, T: Table<P>>(b: T, j: usize) -> Piece<P>
    requires { j ≤ T.count b }
    ensures gap_start { GapStart (T.row_of b) j (P.number result.start) }
    ensures gap_end { GapEnd P.top (T.row_of b) (T.count b) j (P.number result.end) }
{
    Piece {
        start: gap_start(b, j),
        end: gap_end(b, j),
    }
}

// Whether the walk from above stands at the gap behind the last row, and can go on.
fn behind(m: usize, lo: usize, w: Low, z: High) -> bool
    requires lo { lo ≤ 1 }
    requires few { z.v ≤ row_limit + 1 }
    ensures { Says ((w.i < z.u) × (w.j < z.v) × (w.k < z.t) × (m < lo + z.v)) result }
{
    if z.u <= w.i {
        return false;
    }
    if z.v <= w.j {
        return false;
    }
    if z.t <= w.k {
        return false;
    }
    m < lo + z.v
}

// How many turns of both walks surely fit, where all gaps between them lie between two rows of those from `lo` on.
fn turns_inside(m: usize, lo: usize, w: Low, z: High) -> usize
    requires lo { lo ≤ 1 }
    requires left { w.i ≤ z.u }
    requires right { w.j ≤ z.v }
    requires few { z.v ≤ row_limit + 1 }
    ensures { 0 < result → Inside m lo result w.i w.j w.k z.u z.v z.t }
{
    if z.t < w.k {
        return 0;
    }
    if w.j == 0 {
        return 0;
    }
    if m < lo + z.v {
        return 0;
    }
    turns(w, z)
}

// The first gap that is not empty: a row that starts at the first place has none before it.
fn gaps_from<P: Place, T: Table<P>>(b: T) -> usize
    ensures { GapsFrom (T.row_of b) (T.count b) result }
{
    if b.row_count() == 0 {
        return 0;
    }
    if P::first().precedes(start_at(b, 0)) {
        return 0;
    }
    1
}

// Behind the last gap that is not empty: a row that ends at the last place has none behind it.
fn gaps_to<P: Place, T: Table<P>>(b: T) -> usize
    ensures { GapsTo P.top (T.row_of b) (T.count b) result }
{
    let m = b.row_count();
    if m == 0 {
        return 1;
    }
    if end_at(b, m - 1).precedes(P::last()) {
        return m + 1;
    }
    m
}

/// The rows of the difference of two tables, of any kind of rows, in `out`: answers how many rows there are, or a number above the capacity of `out`, as
/// [`cross`](crate::walking::cross). The gaps at either end go step by step, those inside in turns of both walks. `exclude` of yrs's range tables, `diff` of its
/// id sets.
pub fn differ<P: Place, T: Table<P>, R: Room<P>>(a: T, b: T, out: &mut R) -> usize
    ensures holds { Holds (R.most (R.shape out.old)) (R.row_of out.new) result (combined difference (span (T.row_of a) 0 (T.count a)) (span (T.row_of b) 0 (T.count b))) }
    ensures same { R.shape out.new ≡ R.shape out.old }
{
    let most = out.capacity();
    let m = b.row_count();
    let lo = gaps_from(b);
    let hi = gaps_to(b);
    let mut low = Low { i: 0, j: 0, k: 0 };
    let mut high = High {
        u: a.row_count(),
        v: hi - lo,
        t: most,
    };
    // No `for`: of two indices either moves or stays by the rows.
    'top: while behind(m, lo, low, high) {
        high = down(
            out,
            high,
            row_at(a, high.u - 1),
            gap_at(b, lo + (high.v - 1)),
        );
    }
    'both: while between(low, high) {
        low = up(out, high.t, low, row_at(a, low.i), gap_at(b, lo + low.j));
        let c = turns_inside(m, lo, low, high);
        if 0 < c {
            let from = Low {
                i: low.i,
                j: low.j - 1,
                k: low.k,
            };
            let to = High {
                u: high.u,
                v: high.v - 1,
                t: high.t,
            };
            let walks = sweep(a, Between { of: b, lo }, out, c, from, to);
            low = Low {
                i: walks.low.i,
                j: 1 + walks.low.j,
                k: walks.low.k,
            };
            high = High {
                u: walks.high.u,
                v: 1 + walks.high.v,
                t: walks.high.t,
            };
        }
    }
    settle(out, most, low.k, high.t)
}

/// The difference of two tables, of any kind of rows, laid in `out`: the rows of [`differ`]. Answers how many rows are in `out` then; behind them it is zero.
///
/// # Errors
///
/// As [`lay_union`](crate::merging::lay_union).
pub fn lay_difference<P: Place, T: Table<P>, R: WholeRoom<P>>(
    a: T,
    b: T,
    out: &mut R,
) -> Result<usize, Refusal>
    ensures lays { Lays (combined difference (span (T.row_of a) 0 (T.count a)) (span (T.row_of b) 0 (T.count b))) (R.most (R.shape out.old)) (R.fill (R.shape out.old)) (R.cells out.new) result }
    ensures holds { IfOk result (λ k. span (R.row_of out.new) 0 k ≡ combined difference (span (T.row_of a) 0 (T.count a)) (span (T.row_of b) 0 (T.count b))) }
    ensures same { R.shape out.new ≡ R.shape out.old }
{
    let count = differ(a, b, out);
    finish(out, count)
}
