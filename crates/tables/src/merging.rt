//! The union of two tables: a row a step, without branches that hang on the rows. The count runs on past the room while nothing more is stored.

ghost use Rattle.std.specs.Prelude.{◌≡◌, ℕ, ◌+◌, ◌*◌, ◌<◌, ◌≤◌, IfOk};
ghost use Rattle.tables.specs.Limits.{row_limit};
ghost use Rattle.tables.specs.Answers.{Says, Lays};
ghost use Rattle.tables.specs.Inner.Rows.{span, combined, union};
ghost use Rattle.tables.specs.Inner.Sweep.{Holds};
ghost use Rattle.tables.specs.Inner.Unite.{Counted};
ghost use Rattle.tables.specs.Inner.Kinds.{Opens, Closes};
ghost use Rattle.tables.specs.Inner.Merge.{Picked, First, Tied, Added, Far, Going};

use crate::rows::{
    Place, Room, Rows, Table, WholeRoom, end_at, finish, set_end_at, set_start_at, start_at,
};
use varint::Refusal;

// What belongs to the row that starts first, at `p` or at `q`: of two that start together, the left one.
fn first<P: Place, X: Copy>(p: P, q: P, x: X, y: X) -> X
    ensures { Picked (P.number p) (P.number q) x y result }
{
    if q.precedes(p) { y } else { x }
}

// One row more, where it starts past the last.
fn counted<P: Place>(k: usize, last: P, x: P) -> usize
    requires { k ≤ 2 * row_limit }
    ensures { Counted k (P.number last + 1) (P.number x) result }
{
    if last.precedes(x) { k + 1 } else { k }
}

// A start, while there is room.
fn store_start<P: Place, R: Room<P>>(out: &mut R, most: usize, k: usize, x: P)
    requires { most ≡ R.most (R.shape out.old) }
    ensures opens { Opens most (R.row_of out.old) k (P.number x) (R.row_of out.new) }
    ensures same { R.shape out.new ≡ R.shape out.old }
{
    if k < most {
        set_start_at(out, k, x);
    }
}

// An end, while there is room.
fn store_end<P: Place, R: Room<P>>(out: &mut R, most: usize, k: usize, y: P)
    requires { most ≡ R.most (R.shape out.old) }
    ensures closes { Closes P.line most (R.row_of out.old) k (P.number y) (R.row_of out.new) }
    ensures same { R.shape out.new ≡ R.shape out.old }
{
    if k < most {
        set_end_at(out, k, y);
    }
}

// The first row.
fn open<P: Place, R: Room<P>>(out: &mut R, most: usize, x: P, y: P)
    requires most { most ≡ R.most (R.shape out.old) }
    requires filled { P.number x < P.number y }
    requires lined { P.line (P.number x) ≡ P.line (P.number y) }
    ensures added { Added P.line most (R.row_of out.old) 0 0 (P.number x) (P.number y) (R.row_of out.new) 1 }
    ensures same { R.shape out.new ≡ R.shape out.old }
{
    store_start(out, most, 0, x);
    store_end(out, most, 0, y);
}

// One row more, which starts where the last of the `k` rows does or behind. What is stored and not counted is written over.
fn join<P: Place, R: Room<P>>(out: &mut R, most: usize, k: usize, last: P, x: P, y: P) -> usize
    requires most { most ≡ R.most (R.shape out.old) }
    requires tied { Tied P.line most (R.row_of out.old) k (P.number last) }
    requires few { k ≤ 2 * row_limit }
    requires filled { P.number x < P.number y }
    requires lined { P.line (P.number x) ≡ P.line (P.number y) }
    ensures added { Added P.line most (R.row_of out.old) k (P.number last + 1) (P.number x) (P.number y) (R.row_of out.new) result }
    ensures same { R.shape out.new ≡ R.shape out.old }
{
    store_start(out, most, k, x);
    let r = counted(k, last, x);
    store_end(out, most, r - 1, last.later(y));
    r
}

// `join` where there is room.
fn add<P: Place, R: Room<P>>(out: &mut R, most: usize, k: usize, last: P, x: P, y: P) -> usize
    requires most { most ≡ R.most (R.shape out.old) }
    requires tied { Tied P.line most (R.row_of out.old) k (P.number last) }
    requires few { k ≤ 2 * row_limit }
    requires room { k < most }
    requires filled { P.number x < P.number y }
    requires lined { P.line (P.number x) ≡ P.line (P.number y) }
    ensures added { Added P.line most (R.row_of out.old) k (P.number last + 1) (P.number x) (P.number y) (R.row_of out.new) result }
    ensures same { R.shape out.new ≡ R.shape out.old }
{
    set_start_at(out, k, x);
    let r = counted(k, last, x);
    set_end_at(out, r - 1, last.later(y));
    r
}

// The row start, .., end - 1 that is taken, and where the next rows of the two tables stand then.
#[derive(Clone, Copy)]
struct Chosen<P> {
    start: P,
    end: P,
    i: usize,
    j: usize,
}

// Of row `i` of the one table and row `j` of the other, which start at `p` and `q`, the one that starts first.
fn choose<P: Place, T: Rows<P>>(a: T, i: usize, p: P, b: T, j: usize, q: P) -> Chosen<P>
    requires left { i < T.count a }
    requires right { j < T.count b }
    requires few { (i ≤ row_limit) × (j ≤ row_limit) }
    ensures { First (T.row_of a) (T.row_of b) i j (P.number p) (P.number q) (P.number result.start) (P.number result.end) result.i result.j }
{
    let s = end_at(a, i);
    let t = end_at(b, j);
    Chosen {
        start: first(p, q, p, q),
        end: first(p, q, s, t),
        i: first(p, q, i + 1, i),
        j: first(p, q, j, j + 1),
    }
}

// How far the union has come: `i` and `j` rows are taken and `k` rows are put out, the last of which ends at `last`.
#[derive(Clone, Copy)]
struct Taken<P> {
    i: usize,
    j: usize,
    k: usize,
    last: P,
}

// The rows of `a` from `i0` on, where `b` has none left.
fn rest<P: Place, T: Table<P>, R: Room<P>>(
    a: T,
    i0: usize,
    b: T,
    out: &mut R,
    most: usize,
    k0: usize,
    last0: P,
) -> usize
    requires most { most ≡ R.most (R.shape out.old) }
    requires far { Far P.line P.top (T.row_of a) (T.count a) i0 (T.row_of b) (T.count b) (T.count b) most (R.row_of out.old) k0 (P.number last0) }
    ensures holds { Holds most (R.row_of out.new) result (combined union (span (T.row_of a) 0 (T.count a)) (span (T.row_of b) 0 (T.count b))) }
    ensures same { R.shape out.new ≡ R.shape out.old }
{
    let n = a.row_count();
    let mut i = i0;
    let mut k = k0;
    let mut last = last0;
    // No `for` in the loops of this file but one: of two indices either moves or stays by the rows, or a run takes as many as surely fit.
    'one: while i < n {
        let x = start_at(a, i);
        let y = end_at(a, i);
        k = join(out, most, k, last, x, y);
        last = last.later(y);
        i += 1;
    }
    k
}

// One row is taken: the one that starts first.
fn turn<P: Place, T: Table<P>, R: Room<P>>(
    a: T,
    b: T,
    out: &mut R,
    most: usize,
    w: Taken<P>,
) -> Taken<P>
    requires most { most ≡ R.most (R.shape out.old) }
    requires left { w.i < T.count a }
    requires right { w.j < T.count b }
    requires far { Far P.line P.top (T.row_of a) (T.count a) w.i (T.row_of b) (T.count b) w.j most (R.row_of out.old) w.k (P.number w.last) }
    ensures far { Far P.line P.top (T.row_of a) (T.count a) result.i (T.row_of b) (T.count b) result.j most (R.row_of out.new) result.k (P.number result.last) }
    ensures on { result.i + result.j ≡ w.i + w.j + 1 }
    ensures same { R.shape out.new ≡ R.shape out.old }
{
    let c = choose(a, w.i, start_at(a, w.i), b, w.j, start_at(b, w.j));
    let k = join(out, most, w.k, w.last, c.start, c.end);
    Taken {
        i: c.i,
        j: c.j,
        k,
        last: w.last.later(c.end),
    }
}

// How far the union has come where both tables have rows left, the next of which start at `p` and `q`.
#[derive(Clone, Copy)]
struct Ahead<P> {
    i: usize,
    j: usize,
    k: usize,
    last: P,
    p: P,
    q: P,
}

// How many rows can surely be taken: for all of them a row of either table is left, and one behind it, and room.
fn fitting(n: usize, m: usize, most: usize, i: usize, j: usize, k: usize) -> usize
    requires left { i < n }
    requires right { j < m }
    ensures left { i + result < n }
    ensures right { j + result < m }
    ensures room { 0 < result → k + result ≤ most }
{
    if most <= k {
        return 0;
    }
    (n - i - 1).min(m - j - 1).min(most - k)
}

// Whether one row can.
fn ready(n: usize, m: usize, most: usize, i: usize, j: usize, k: usize) -> bool
    requires left { i < n }
    requires right { j < m }
    ensures { Says ((i + 1 < n) × (j + 1 < m) × (k < most)) result }
{
    if n <= i + 1 {
        return false;
    }
    if m <= j + 1 {
        return false;
    }
    k < most
}

// One row is taken, with no test. The next starts are read before it is known which row it is: so the loads wait for no comparison.
fn step<P: Place, T: Table<P>, R: Room<P>>(
    a: T,
    b: T,
    out: &mut R,
    most: usize,
    w: Ahead<P>,
) -> Ahead<P>
    requires most { most ≡ R.most (R.shape out.old) }
    requires left { w.i + 1 < T.count a }
    requires right { w.j + 1 < T.count b }
    requires room { w.k < most }
    requires going { Going P.line P.top (T.row_of a) (T.count a) w.i (T.row_of b) (T.count b) w.j most (R.row_of out.old) w.k (P.number w.last) (P.number w.p) (P.number w.q) }
    ensures going { Going P.line P.top (T.row_of a) (T.count a) result.i (T.row_of b) (T.count b) result.j most (R.row_of out.new) result.k (P.number result.last) (P.number result.p) (P.number result.q) }
    ensures left { result.i ≤ w.i + 1 }
    ensures right { result.j ≤ w.j + 1 }
    ensures few { result.k ≤ w.k + 1 }
    ensures on { result.i + result.j ≡ w.i + w.j + 1 }
    ensures same { R.shape out.new ≡ R.shape out.old }
{
    let u = start_at(a, w.i + 1);
    let v = start_at(b, w.j + 1);
    let c = choose(a, w.i, w.p, b, w.j, w.q);
    let k = add(out, most, w.k, w.last, c.start, c.end);
    Ahead {
        i: c.i,
        j: c.j,
        k,
        last: w.last.later(c.end),
        p: first(w.p, w.q, u, w.p),
        q: first(w.p, w.q, w.q, v),
    }
}

// `c` rows are taken, with no test of the rows left nor of the room.
fn run<P: Place, T: Table<P>, R: Room<P>>(
    a: T,
    b: T,
    out: &mut R,
    most: usize,
    w: Ahead<P>,
    c: usize,
) -> Ahead<P>
    requires most { most ≡ R.most (R.shape out.old) }
    requires left { w.i + c < T.count a }
    requires right { w.j + c < T.count b }
    requires room { w.k + c ≤ most }
    requires going { Going P.line P.top (T.row_of a) (T.count a) w.i (T.row_of b) (T.count b) w.j most (R.row_of out.old) w.k (P.number w.last) (P.number w.p) (P.number w.q) }
    ensures going { Going P.line P.top (T.row_of a) (T.count a) result.i (T.row_of b) (T.count b) result.j most (R.row_of out.new) result.k (P.number result.last) (P.number result.p) (P.number result.q) }
    ensures on { result.i + result.j ≡ w.i + w.j + c }
    ensures same { R.shape out.new ≡ R.shape out.old }
{
    let mut z = w;
    'steps: for x in 0..c {
        z = step(a, b, out, most, z);
    }
    z
}

// Rows are taken while both tables have two left, and there is room. A run takes about half of the rows that are left; where it would be short, a test a row costs less than to begin runs anew.
fn front<P: Place, T: Table<P>, R: Room<P>>(
    a: T,
    b: T,
    out: &mut R,
    most: usize,
    w: Ahead<P>,
) -> Ahead<P>
    requires most { most ≡ R.most (R.shape out.old) }
    requires going { Going P.line P.top (T.row_of a) (T.count a) w.i (T.row_of b) (T.count b) w.j most (R.row_of out.old) w.k (P.number w.last) (P.number w.p) (P.number w.q) }
    ensures going { Going P.line P.top (T.row_of a) (T.count a) result.i (T.row_of b) (T.count b) result.j most (R.row_of out.new) result.k (P.number result.last) (P.number result.p) (P.number result.q) }
    ensures same { R.shape out.new ≡ R.shape out.old }
{
    let n = a.row_count();
    let m = b.row_count();
    let mut z = w;
    let mut c = fitting(n, m, most, z.i, z.j, z.k);
    'runs: while 16 < c {
        z = run(a, b, out, most, z, c);
        c = fitting(n, m, most, z.i, z.j, z.k);
    }
    'single: while ready(n, m, most, z.i, z.j, z.k) {
        z = step(a, b, out, most, z);
    }
    z
}

// The first row of the union.
fn begin<P: Place, T: Table<P>, R: Room<P>>(a: T, b: T, out: &mut R, most: usize) -> Taken<P>
    requires most { most ≡ R.most (R.shape out.old) }
    requires some { 0 < T.count a + T.count b }
    ensures far { Far P.line P.top (T.row_of a) (T.count a) result.i (T.row_of b) (T.count b) result.j most (R.row_of out.new) result.k (P.number result.last) }
    ensures same { R.shape out.new ≡ R.shape out.old }
{
    if a.row_count() == 0 {
        let last = end_at(b, 0);
        open(out, most, start_at(b, 0), last);
        return Taken {
            i: 0,
            j: 1,
            k: 1,
            last,
        };
    }
    if b.row_count() == 0 {
        let last = end_at(a, 0);
        open(out, most, start_at(a, 0), last);
        return Taken {
            i: 1,
            j: 0,
            k: 1,
            last,
        };
    }
    let c = choose(a, 0, start_at(a, 0), b, 0, start_at(b, 0));
    open(out, most, c.start, c.end);
    Taken {
        i: c.i,
        j: c.j,
        k: 1,
        last: c.end,
    }
}

// The union up to the last row of either table, or as far as there is room.
fn most_rows<P: Place, T: Table<P>, R: Room<P>>(a: T, b: T, out: &mut R, most: usize) -> Taken<P>
    requires most { most ≡ R.most (R.shape out.old) }
    requires some { 0 < T.count a + T.count b }
    ensures far { Far P.line P.top (T.row_of a) (T.count a) result.i (T.row_of b) (T.count b) result.j most (R.row_of out.new) result.k (P.number result.last) }
    ensures same { R.shape out.new ≡ R.shape out.old }
{
    let w = begin(a, b, out, most);
    if a.row_count() <= w.i {
        return w;
    }
    if b.row_count() <= w.j {
        return w;
    }
    let z = Ahead {
        i: w.i,
        j: w.j,
        k: w.k,
        last: w.last,
        p: start_at(a, w.i),
        q: start_at(b, w.j),
    };
    let y = front(a, b, out, most, z);
    Taken {
        i: y.i,
        j: y.j,
        k: y.k,
        last: y.last,
    }
}

/// The rows of the union of two tables, of any kind of rows, in `out`: answers how many rows there are, or a number above the capacity of `out`, as
/// [`cross`](crate::walking::cross). `merge` of yrs's range tables and id sets.
pub fn unite<P: Place, T: Table<P>, R: Room<P>>(a: T, b: T, out: &mut R) -> usize
    ensures holds { Holds (R.most (R.shape out.old)) (R.row_of out.new) result (combined union (span (T.row_of a) 0 (T.count a)) (span (T.row_of b) 0 (T.count b))) }
    ensures same { R.shape out.new ≡ R.shape out.old }
{
    let most = out.capacity();
    let n = a.row_count();
    let m = b.row_count();
    if n == 0 && m == 0 {
        return 0;
    }
    let mut w = most_rows(a, b, out, most);
    'both: while w.i < n {
        if m <= w.j {
            return rest(a, w.i, b, out, most, w.k, w.last);
        }
        w = turn(a, b, out, most, w);
    }
    rest(b, w.j, a, out, most, w.k, w.last)
}

/// The union of two tables, of any kind of rows, laid in `out`: the rows of [`unite`]. Answers how many rows are in `out` then; behind them it is zero.
///
/// # Errors
///
/// [`Refusal::Full`] if `out` has no room for the rows. It is zero then.
pub fn lay_union<P: Place, T: Table<P>, R: WholeRoom<P>>(
    a: T,
    b: T,
    out: &mut R,
) -> Result<usize, Refusal>
    ensures lays { Lays (combined union (span (T.row_of a) 0 (T.count a)) (span (T.row_of b) 0 (T.count b))) (R.most (R.shape out.old)) (R.fill (R.shape out.old)) (R.cells out.new) result }
    ensures holds { IfOk result (λ k. span (R.row_of out.new) 0 k ≡ combined union (span (T.row_of a) 0 (T.count a)) (span (T.row_of b) 0 (T.count b))) }
    ensures same { R.shape out.new ≡ R.shape out.old }
{
    let count = unite(a, b, out);
    finish(out, count)
}
