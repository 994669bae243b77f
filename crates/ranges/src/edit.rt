// Insert and remove: the check copies the rows as well. Then the rows that the range meets are found by halving, and those behind them are copied once more where
// their place changes.
ghost use Rattle.std.specs.Prelude.{◌≡◌, ℕ, ◌+◌, ◌-◌, ◌*◌, ◌<◌, ◌≤◌, ◌++◌, length, MatchResult};
ghost use Rattle.tables.specs.Inner.Rows.{span};
ghost use Rattle.tables.specs.Inner.Edit.{range, Moved, Stands};
ghost use Rattle.ranges.specs.Tables.{Table, Inserted, Removed};
ghost use Rattle.ranges.specs.Inner.{row_at, remains, Fronts, Wrote};

use crate::room::{fitting, settled};
use crate::view::{Ranges, Row};
use tables::{Clock, ROW_LIMIT};
use varint::Refusal;

// The first `count` rows, as a table. As many of them as `out` has room for are copied in the same pass, which becomes SIMD too; the others are only checked.
fn copied<'a>(rows: &'a [u32], count: usize, out: &mut [u32]) -> Result<Ranges<'a>, Refusal>
    ensures { MatchResult result (λ t. Table rows.now count × (t.flat.now ≡ rows.now) × (t.count ≡ count) × Fronts rows.now count out.new) (λ e. (e ≡ Refusal.Malformed) × (Table rows.now count → ⊥)) }
{
    if ROW_LIMIT < count {
        return Err(Refusal::Malformed);
    }
    if rows.len() / 2 < count {
        return Err(Refusal::Malformed);
    }
    let f = 2 * count.min(fitting(out.len()));
    if f == 0 {
        return Ranges::checked(rows, count);
    }
    let mut ok = true;
    for i in 1..f {
        ok = ok & (rows[i - 1] < rows[i]);
        out[i - 1] = rows[i - 1];
    }
    out[f - 1] = rows[f - 1];
    for i in f..2 * count {
        ok = ok & (rows[i - 1] < rows[i]);
    }
    if !ok {
        return Err(Refusal::Malformed);
    }
    Ok(Ranges { flat: rows, count })
}

// How many rows a piece takes: one, or none if it holds no clock.
fn size(p: Row) -> usize
    ensures { result ≡ length (range p.start.0 p.end.0) }
{
    if p.start.0 < p.end.0 { 1 } else { 0 }
}

// A piece stored as row `k`, and where the next row stands: from there on all rows stay.
fn put(out: &mut [u32], k: usize, p: Row) -> usize
    requires { 2 * (k + length (range p.start.0 p.end.0)) ≤ length out.old }
    ensures stands { Stands (row_at out.old) k (range p.start.0 p.end.0) (row_at out.new) result }
    ensures by_index { (x : ℕ) → result ≤ x → row_at out.new x ≡ row_at out.old x }
{
    if p.end.0 <= p.start.0 {
        return k;
    }
    out[2 * k] = p.start.0;
    out[2 * k + 1] = p.end.0;
    k + 1
}

// The rows from `j` on, copied to row `y` on, unless they stand there already.
fn follow(table: Ranges<'_>, j: usize, out: &mut [u32], y: usize)
    requires j_le_n { j ≤ table.count }
    requires j_in_bounds { 2 * (y + (table.count - j)) ≤ length out.old }
    requires x_value { y ≡ j → (x : ℕ) → y ≤ x → x < table.count → row_at out.old x ≡ row_at table.flat.now x }
    ensures { Moved (row_at table.entry.flat.now) j table.entry.count (row_at out.old) y (row_at out.new) }
{
    if y == j {
        return;
    }
    let n = table.count;
    out[2 * y..2 * (y + (n - j))].copy_from_slice(&table.flat[2 * j..2 * n]);
}

// The rows before `i`, two pieces, and the rows from `j` on, where `out` holds the rows of the table already, as far as there is room: those before `i` stay, and
// those from `j` on too where they keep their place. FULL is decided before a piece is stored.
fn splice(
    table: Ranges<'_>,
    i: usize,
    j: usize,
    p: Row,
    q: Row,
    out: &mut [u32],
) -> Result<usize, Refusal>
    requires i_le_j { i ≤ j }
    requires j_le_n { j ≤ table.count }
    requires fronts { Fronts table.flat.now table.count out.old }
    ensures { Wrote (span (row_at table.entry.flat.now) 0 i ++ ((range p.start.0 p.end.0 ++ range q.start.0 q.end.0) ++ span (row_at table.entry.flat.now) j (table.entry.count - j))) (length out.old) (remains out.new result) result }
{
    let k = i + size(p) + size(q) + (table.count - j);
    if fitting(out.len()) < k {
        return Err(Refusal::Full);
    }
    let x = put(out, i, p);
    let y = put(out, x, q);
    follow(table, j, out, y);
    Ok(k)
}

// `removed` below differs in the bounds of two searches and in the pieces; what the two share is `copied` and `splice`.
fn inserted(
    rows: &[u32],
    count: usize,
    start: Clock,
    end: Clock,
    out: &mut [u32],
) -> Result<usize, Refusal>
    ensures { Inserted rows.now count start.0 end.0 (length out.old) (remains out.new result) result }
{
    let table = copied(rows, count, out)?;
    let s = start.0;
    let e = end.0;
    let none = Row {
        start: Clock(0),
        end: Clock(0),
    };
    if e <= s {
        return splice(table, table.count, table.count, none, none, out);
    }
    let i = table.ends_below(s as u64);
    let j = table.starts_below(i, e as u64 + 1);
    let p = table.start_or(i, s);
    let q = table.end_or(j, e);
    let piece = Row {
        start: Clock(p.min(s)),
        end: Clock(e.max(q)),
    };
    splice(table, i, j, piece, none, out)
}

/// The table with the clocks start, .., end - 1 put in: one row in the place of those that the range overlaps or touches. The same table if start is not below end.
/// Answers how many rows are in `out` then; behind them it is zero.
///
/// # Errors
///
/// After a refusal `out` is zero. `Malformed` if the first `count` rows are no table, else `Full` if `out` has no room for the rows or they are more than 1,024.
pub fn insert(
    rows: &[u32],
    count: usize,
    start: Clock,
    end: Clock,
    out: &mut [u32],
) -> Result<usize, Refusal>
    ensures { Inserted rows.now count start.0 end.0 (length out.old) out.new result }
{
    let made = inserted(rows, count, start, end, out);
    settled(out, made)
}

fn removed(
    rows: &[u32],
    count: usize,
    start: Clock,
    end: Clock,
    out: &mut [u32],
) -> Result<usize, Refusal>
    ensures { Removed rows.now count start.0 end.0 (length out.old) (remains out.new result) result }
{
    let table = copied(rows, count, out)?;
    let s = start.0;
    let e = end.0;
    let none = Row {
        start: Clock(0),
        end: Clock(0),
    };
    if e <= s {
        return splice(table, table.count, table.count, none, none, out);
    }
    let i = table.ends_below(s as u64 + 1);
    let j = table.starts_below(i, e as u64);
    let first = Row {
        start: Clock(table.start_or(i, s)),
        end: start,
    };
    let last = Row {
        start: end,
        end: Clock(table.end_or(j, e)),
    };
    splice(table, i, j, first, last, out)
}

/// The table with the clocks start, .., end - 1 taken out: of the rows that the range overlaps, what lies before it and what lies behind it. The same table if start
/// is not below end. Answers how many rows are in `out` then; behind them it is zero.
///
/// # Errors
///
/// As [`insert`].
pub fn remove(
    rows: &[u32],
    count: usize,
    start: Clock,
    end: Clock,
    out: &mut [u32],
) -> Result<usize, Refusal>
    ensures { Removed rows.now count start.0 end.0 (length out.old) out.new result }
{
    let made = removed(rows, count, start, end, out);
    settled(out, made)
}
