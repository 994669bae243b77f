// from_ranges: a table that grows in the output itself.
ghost use Rattle.std.specs.Prelude.{◌≡◌, ℕ, ◌+◌, ◌-◌, ◌*◌, ◌<◌, ◌≤◌, length};
ghost use Rattle.tables.specs.Inner.Rows.{combined, union};
ghost use Rattle.tables.specs.Inner.Sweep.{Holds};
ghost use Rattle.tables.specs.Inner.Edit.{range, Parted, ends, Moved};
ghost use Rattle.ranges.specs.Tables.{most, FromRanges};
ghost use Rattle.ranges.specs.Inner.{row_at, rows_of, remains, Ruled};

use crate::room::{fitting, move_down, settled};
use crate::view::Ranges;
use varint::Refusal;

// The first `k` rows, one row up: over a part that starts at 0 this becomes one `memmove`.
fn move_up(part: &mut [u32], k: usize)
    requires { 2 * (k + 1) ≤ length part.old }
    ensures { Moved (row_at part.old) 0 k (row_at part.old) 1 (row_at part.new) }
{
    part.copy_within(..2 * k, 2);
}

// The rows from `j` on stand behind row `i` then.
fn shift(out: &mut [u32], i: usize, j: usize, k: usize)
    requires i_le_j { i ≤ j }
    requires j_le_k { j ≤ k }
    requires k_in_bounds { 2 * k ≤ length out.old }
    requires j_in_bounds { 2 * (i + 1 + (k - j)) ≤ length out.old }
    ensures { Moved (row_at out.old) j k (row_at out.old) (i + 1) (row_at out.new) }
{
    if i == j {
        move_up(&mut out[2 * j..], k - j);
        return;
    }
    if j == i + 1 {
        return;
    }
    move_down(out, j, k, i + 1);
}

// How many rows end below `x`: at once where all do, or all but the last.
fn tail_below(table: Ranges<'_>, x: u64) -> usize
    requires { x ≤ 4294967296 }
    ensures { Parted (ends (row_at table.entry.flat.now)) table.entry.count x result result }
{
    let n = table.count;
    if n < 2 {
        return table.ends_below(x);
    }
    if (table.end_of(n - 1).0 as u64) < x {
        return n;
    }
    if (table.end_of(n - 2).0 as u64) < x {
        return n - 1;
    }
    table.ends_below(x)
}

// The table of `k` rows with one range more, in its own room, and how many rows it has then: where there is no room for them, nothing is stored. No `Ranges`: the table stands in what is written.
fn grow(out: &mut [u32], k: usize, s: u32, e: u32) -> usize
    requires { Ruled out.old k }
    ensures { Holds (most (length out.old)) (row_at out.new) result (combined union (rows_of out.old k) (range s e)) }
{
    if e <= s {
        return k;
    }
    let table = Ranges {
        flat: out,
        count: k,
    };
    let i = tail_below(table, s as u64);
    let j = table.starts_below(i, e as u64 + 1);
    let p = table.start_or(i, s).min(s);
    let q = e.max(table.end_or(j, e));
    let r = i + 1 + (k - j);
    if fitting(out.len()) < r {
        return r;
    }
    shift(out, i, j, k);
    out[2 * i] = p;
    out[2 * i + 1] = q;
    r
}

fn gathered(pairs: &[u32], count: usize, out: &mut [u32]) -> Result<usize, Refusal>
    ensures { FromRanges pairs.now count (length out.old) (remains out.new result) result }
{
    if pairs.len() / 2 < count {
        return Err(Refusal::Malformed);
    }
    let most = fitting(out.len());
    let mut k: usize = 0;
    for i in 0..count {
        k = grow(out, k, pairs[2 * i], pairs[2 * i + 1]);
        if most < k {
            return Err(Refusal::Full);
        }
    }
    Ok(k)
}

/// The table of the first `count` start, end pairs of `pairs`, put in one after the other, empty ranges allowed. Answers how many rows are in `out` then; behind them
/// it is zero.
///
/// # Errors
///
/// After a refusal `out` is zero. `Malformed` if `pairs` has fewer pairs than `count`, else `Full` if after some one of them the table has more rows than `out` has
/// room for, or more than 1,024.
pub fn from_ranges(pairs: &[u32], count: usize, out: &mut [u32]) -> Result<usize, Refusal>
    ensures { FromRanges pairs.now count (length out.old) out.new result }
{
    let made = gathered(pairs, count, out);
    settled(out, made)
}
