//! The intersection of two tables, by two walks at once, from below and from above, until they meet: neither waits for the rows that the other reads next. Both lay rows in the output, and those from above are brought down at the end.

ghost use Rattle.std.specs.Prelude.{◌≡◌, ℕ, ◌+◌, ◌*◌, ◌<◌, ◌≤◌, min, max, IfOk};
ghost use Rattle.tables.specs.Limits.{row_limit};
ghost use Rattle.tables.specs.Answers.{Says, Lays};
ghost use Rattle.tables.specs.Inner.Rows.{Rows, span, combined, intersection};
ghost use Rattle.tables.specs.Inner.Sweep.{Holds};
ghost use Rattle.tables.specs.Inner.Unite.{Passed};
ghost use Rattle.tables.specs.Inner.Cross.{Keeps};
ghost use Rattle.tables.specs.Inner.Edit.{Parted, starts, ends};
ghost use Rattle.tables.specs.Inner.Ends.{Stores, Dropped, Raised, Turns, Below, Above, Swept, Halves, Clipped};
ghost use Rattle.tables.specs.Inner.Walk.{places, Fit};

use crate::rows::{
    Place, Room, Rows, Table, WholeRoom, end_at, finish, set_end_at, set_start_at, start_at,
};
use varint::Refusal;

/// The places start, .., end - 1, of one line: none if start is not below end.
#[derive(Clone, Copy)]
pub(crate) struct Piece<P> {
    pub start: P,
    pub end: P,
}

// Row `i`.
pub(crate) fn row_at<P: Place, T: Rows<P>>(t: T, i: usize) -> Piece<P>
    requires { i < T.count t }
    ensures start { P.number result.start ≡ (T.row_of t i).start }
    ensures end { P.number result.end ≡ (T.row_of t i).end }
{
    Piece {
        start: start_at(t, i),
        end: end_at(t, i),
    }
}

// The next row, where this one ends at `p` and that of the other table not before it, at `q`.
fn passed<P: Place>(i: usize, p: P, q: P) -> usize
    requires { i ≤ row_limit + 1 }
    ensures { Passed (P.number p) (min (P.number p) (P.number q)) i result }
{
    if q.precedes(p) { i } else { i + 1 }
}

// The row x, .., y - 1 as row `k`.
fn store_row<P: Place, R: Room<P>>(out: &mut R, k: usize, x: P, y: P)
    requires room { k < R.most (R.shape out.old) }
    requires lined { P.number x < P.number y → P.line (P.number x) ≡ P.line (P.number y) }
    ensures stores { (room : ℕ) → k < room → Stores room (R.row_of out.old) k (P.number x) (P.number y) (R.row_of out.new) }
    ensures same { R.shape out.new ≡ R.shape out.old }
{
    set_start_at(out, k, x);
    set_end_at(out, k, y);
}

// The same, while there is room.
fn lay<P: Place, R: Room<P>>(out: &mut R, most: usize, k: usize, x: P, y: P)
    requires most { most ≤ R.most (R.shape out.old) }
    requires lined { P.number x < P.number y → P.line (P.number x) ≡ P.line (P.number y) }
    ensures stores { Stores most (R.row_of out.old) k (P.number x) (P.number y) (R.row_of out.new) }
    ensures same { R.shape out.new ≡ R.shape out.old }
{
    if k < most {
        store_row(out, k, x, y);
    }
}

// The row x, .., y - 1, which is counted if it is not empty, and else written over.
fn keep<P: Place, R: Room<P>>(out: &mut R, most: usize, k: usize, x: P, y: P) -> usize
    requires most { most ≤ R.most (R.shape out.old) }
    requires few { k ≤ 2 * row_limit }
    requires lined { P.number x < P.number y → P.line (P.number x) ≡ P.line (P.number y) }
    ensures keeps { Keeps most (R.row_of out.old) k (P.number x) (P.number y) (R.row_of out.new) result }
    ensures above { (z : ℕ) → most ≤ z → R.row_of out.old z ≡ R.row_of out.new z }
    ensures same { R.shape out.new ≡ R.shape out.old }
{
    lay(out, most, k, x, y);
    if x.precedes(y) { k + 1 } else { k }
}

/// How far the walk from below has come: `i` and `j` rows are passed and `k` are laid.
#[derive(Clone, Copy)]
pub(crate) struct Low {
    pub i: usize,
    pub j: usize,
    pub k: usize,
}

/// How far the walk from above has come: the rows from `u` and from `v` on are passed, and those from `t` on are laid.
#[derive(Clone, Copy)]
pub(crate) struct High {
    pub u: usize,
    pub v: usize,
    pub t: usize,
}

// A step from below: what the rows `p` and `q` share, and past the one that ends first. Where there surely is room, `most` is one more than `k`: then nothing is tested.
pub(crate) fn up<P: Place, R: Room<P>>(
    out: &mut R,
    most: usize,
    w: Low,
    p: Piece<P>,
    q: Piece<P>,
) -> Low
    requires most { most ≤ R.most (R.shape out.old) }
    requires left { w.i ≤ row_limit + 1 }
    requires right { w.j ≤ row_limit + 1 }
    requires few { w.k ≤ 2 * row_limit }
    requires lined { P.line (P.number p.start) ≡ P.line (P.number p.end) }
    ensures below { Below most (R.row_of out.old) w.i w.j w.k (P.number p.start) (P.number p.end) (P.number q.start) (P.number q.end) (R.row_of out.new) result.i result.j result.k }
    ensures same { R.shape out.new ≡ R.shape out.old }
{
    let x = p.start.later(q.start);
    let y = p.end.earlier(q.end);
    let i = passed(w.i, p.end, q.end);
    let j = passed(w.j, q.end, p.end);
    let k = keep(out, most, w.k, x, y);
    Low { i, j, k }
}

// The row before, where this one starts at `s` and that of the other table not behind it, at `r`.
fn dropped<P: Place>(u: usize, s: P, r: P) -> usize
    requires { 0 < u }
    ensures { Dropped (P.number s) (max (P.number s) (P.number r)) u result }
{
    if s.precedes(r) { u } else { u - 1 }
}

// One row more from above, where it is not empty.
fn raised<P: Place>(t: usize, x: P, y: P) -> usize
    requires { 0 < t }
    ensures { Raised (P.number x) (P.number y) t result }
{
    if x.precedes(y) { t - 1 } else { t }
}

// A step from above: what the rows `p` and `q` share, and past the one that starts last.
pub(crate) fn down<P: Place, R: Room<P>>(out: &mut R, z: High, p: Piece<P>, q: Piece<P>) -> High
    requires most { z.t ≤ R.most (R.shape out.old) }
    requires left { 0 < z.u }
    requires right { 0 < z.v }
    requires some { 0 < z.t }
    requires lined { P.line (P.number p.start) ≡ P.line (P.number p.end) }
    ensures above { Above (R.row_of out.old) z.u z.v z.t (P.number p.start) (P.number p.end) (P.number q.start) (P.number q.end) (R.row_of out.new) result.u result.v result.t }
    ensures same { R.shape out.new ≡ R.shape out.old }
{
    let x = p.start.later(q.start);
    let y = p.end.earlier(q.end);
    let u = dropped(z.u, p.start, q.start);
    let v = dropped(z.v, q.start, p.start);
    let t = raised(z.t, x, y);
    store_row(out, z.t - 1, x, y);
    High { u, v, t }
}

/// Where both walks stand.
#[derive(Clone, Copy)]
pub(crate) struct Walks {
    pub low: Low,
    pub high: High,
}

// `c` turns of both walks, with no test: a step from below and a step from above each.
pub(crate) fn sweep<P: Place, A: Table<P>, B: Rows<P>, R: Room<P>>(
    a: A,
    b: B,
    out: &mut R,
    c: usize,
    from: Low,
    to: High,
) -> Walks
    requires { Fit (A.count a) (B.count b) (R.most (R.shape out.old)) c from to }
    ensures swept { Swept (A.row_of a) (B.row_of b) (places (R.row_of out.old) from to) c (places (R.row_of out.new) result.low result.high) }
    ensures same { R.shape out.new ≡ R.shape out.old }
{
    let mut low = from;
    let mut high = to;
    'turns: for x in 0..c {
        low = up(out, low.k + 1, low, row_at(a, low.i), row_at(b, low.j));
        high = down(out, high, row_at(a, high.u - 1), row_at(b, high.v - 1));
    }
    Walks { low, high }
}

// How many turns of both walks surely fit: a turn takes a row of each table from below and one from above at most, and room for as many.
pub(crate) fn turns(w: Low, z: High) -> usize
    requires left { w.i ≤ z.u }
    requires right { w.j ≤ z.v }
    requires room { w.k ≤ z.t }
    ensures { Turns result w.i w.j w.k z.u z.v z.t }
{
    ((z.u - w.i) / 2).min((z.v - w.j) / 2).min((z.t - w.k) / 2)
}

// Whether rows of both tables are left between the walks.
pub(crate) fn between(w: Low, z: High) -> bool
    ensures { Says ((w.i < z.u) × (w.j < z.v)) result }
{
    if z.u <= w.i {
        return false;
    }
    w.j < z.v
}

// The rows from `t` on, brought down behind the first `k`, and how many there are in all. Where there is no room for the `k`, only the count.
pub(crate) fn settle<P: Place, R: Room<P>>(out: &mut R, most: usize, k: usize, t: usize) -> usize
    requires most { most ≡ R.most (R.shape out.old) }
    requires within { t ≤ most }
    requires few { most ≤ row_limit }
    requires few_2 { k ≤ 2 * row_limit + 1 }
    ensures holds { (rs : Rows) → Halves most (R.row_of out.old) k t rs → Holds most (R.row_of out.new) result rs }
    ensures same { R.shape out.new ≡ R.shape out.old }
{
    let count = k + (most - t);
    if t < k {
        return count;
    }
    out.move_down(t, k);
    count
}

// How many rows end at `p` or before it: the looks go as far on each time as they have come, and then halve the rows still possible. Where the first row ends past `p`, one look says so.
fn ended<P: Place, T: Table<P>>(table: T, p: P) -> usize
    ensures { Parted (ends (T.row_of table)) (T.count table) (P.number p + 1) result result }
{
    let n = table.row_count();
    if n == 0 {
        return 0;
    }
    if p.precedes(end_at(table, 0)) {
        return 0;
    }
    let mut lo = 1;
    let mut hi = n;
    // No `for`: no index counts the looks.
    while lo < hi {
        let mid = lo + lo.min((hi - lo) / 2);
        if p.precedes(end_at(table, mid)) {
            hi = mid;
        } else {
            lo = mid + 1;
        }
    }
    lo
}

// How many rows start before `p`, where the first `i` do: the same from the last row down.
fn begun<P: Place, T: Table<P>>(table: T, i: usize, p: P) -> usize
    requires { Parted (starts (T.row_of table)) (T.count table) (P.number p) i (T.count table) }
    ensures parted { Parted (starts (T.row_of table)) (T.count table) (P.number p) result result }
    ensures lower { i ≤ result }
{
    let n = table.row_count();
    if n <= i {
        return i;
    }
    if start_at(table, n - 1).precedes(p) {
        return n;
    }
    let mut lo = i;
    let mut hi = n - 1;
    // No `for`: no index counts the looks.
    while lo < hi {
        let mid = hi - 1 - (n - hi).min((hi - lo) / 2);
        if start_at(table, mid).precedes(p) {
            lo = mid + 1;
        } else {
            hi = mid;
        }
    }
    lo
}

// Where the walks begin: rows before all those of the other table, or behind them, are left out.
fn bounds<P: Place, T: Table<P>>(a: T, b: T, most: usize) -> Walks
    ensures clipped { Clipped (T.row_of a) (T.count a) (T.row_of b) (T.count b) result.low.i result.low.j result.high.u result.high.v }
    ensures none { (result.low.k ≡ 0) × (result.high.t ≡ most) }
{
    let n = a.row_count();
    let m = b.row_count();
    let all = High {
        u: n,
        v: m,
        t: most,
    };
    if m == 0 {
        return Walks {
            low: Low { i: 0, j: 0, k: 0 },
            high: all,
        };
    }
    let i = ended(a, start_at(b, 0));
    if n <= i {
        return Walks {
            low: Low { i, j: 0, k: 0 },
            high: all,
        };
    }
    let j = ended(b, start_at(a, i));
    let low = Low { i, j, k: 0 };
    if m <= j {
        return Walks { low, high: all };
    }
    let u = begun(a, i, end_at(b, m - 1));
    let v = begun(b, j, end_at(a, u - 1));
    Walks {
        low,
        high: High { u, v, t: most },
    }
}

/// The rows of the intersection of two tables, of any kind of rows, in `out`: answers how many rows there are. Where they are more than `out` holds, the answer is
/// some number above its capacity, and what stands in `out` is of no use. What stands behind the rows is not said: [`lay_intersection`] zeroes it. `intersect` of
/// yrs's range tables and id sets.
pub fn cross<P: Place, T: Table<P>, R: Room<P>>(a: T, b: T, out: &mut R) -> usize
    ensures holds { Holds (R.most (R.shape out.old)) (R.row_of out.new) result (combined intersection (span (T.row_of a) 0 (T.count a)) (span (T.row_of b) 0 (T.count b))) }
    ensures same { R.shape out.new ≡ R.shape out.old }
{
    let most = out.capacity();
    let from = bounds(a, b, most);
    let mut low = from.low;
    let mut high = from.high;
    let mut c = turns(low, high);
    // No `for`: each run takes as many turns as surely fit, and then two indices move or stay by the rows.
    'both: while 0 < c {
        let walks = sweep(a, b, out, c, low, high);
        low = walks.low;
        high = walks.high;
        c = turns(low, high);
    }
    'last: while between(low, high) {
        low = up(out, high.t, low, row_at(a, low.i), row_at(b, low.j));
    }
    settle(out, most, low.k, high.t)
}

/// The intersection of two tables, of any kind of rows, laid in `out`: the rows of [`cross`]. Answers how many rows are in `out` then; behind them it is zero.
///
/// # Errors
///
/// As [`lay_union`](crate::merging::lay_union).
pub fn lay_intersection<P: Place, T: Table<P>, R: WholeRoom<P>>(
    a: T,
    b: T,
    out: &mut R,
) -> Result<usize, Refusal>
    ensures lays { Lays (combined intersection (span (T.row_of a) 0 (T.count a)) (span (T.row_of b) 0 (T.count b))) (R.most (R.shape out.old)) (R.fill (R.shape out.old)) (R.cells out.new) result }
    ensures holds { IfOk result (λ k. span (R.row_of out.new) 0 k ≡ combined intersection (span (T.row_of a) 0 (T.count a)) (span (T.row_of b) 0 (T.count b))) }
    ensures same { R.shape out.new ≡ R.shape out.old }
{
    let count = cross(a, b, out);
    finish(out, count)
}
