//! A table copied, and a table with one range more.

ghost use Rattle.std.specs.Prelude.{◌≡◌, ◌∷◌, ◌++◌, ℕ, ◌+◌, ◌-◌, ◌≤◌, ◌<◌, length, take, drop, Ok};
ghost use Rattle.ids.specs.Tables.{most};
ghost use Rattle.ids.specs.Places.{number_of};
ghost use Rattle.ids.specs.Inner.{Halved, Leads, Trails};
ghost use Rattle.ids.specs.View.{rows_in, with_range};
ghost use Rattle.ids.specs.Room.{lent, Same, Made};

use crate::place::Id;
use crate::room::IdRoom;
use crate::view::Ids;
use tables::rows::Room;
use tables::{Client, Clock};
use varint::Refusal;

// The rows of a table, if there is room for them.
pub(crate) fn captured(
    table: Result<Ids<'_>, Refusal>,
    out: &mut IdRoom<'_>,
) -> Result<usize, Refusal>
    ensures same { Same out.old out.new }
    ensures made { Made rows_in table.entry (lent out.new) result }
{
    let table = table?;
    let n = table.count;
    if out.capacity() < n {
        return Err(Refusal::Full);
    }
    copy_front(table.clients, n, out.clients);
    copy_front(table.starts, n, out.starts);
    copy_front(table.ends, n, out.ends);
    Ok(n)
}

// The first `n` elements.
fn copy_front<T: Copy>(src: &[T], n: usize, out: &mut [T])
    requires { (n ≤ length src.now) × (n ≤ length out.old) }
    ensures { out.new ≡ take n src.now ++ drop n out.old }
{
    out[..n].copy_from_slice(&src[..n]);
}

// The rows of a table with one range more, if there is room for them. An empty range adds none.
pub(crate) fn inserted(
    table: Result<Ids<'_>, Refusal>,
    client: Client,
    start: Clock,
    end: Clock,
    out: &mut IdRoom<'_>,
) -> Result<usize, Refusal>
    ensures same { Same out.old out.new }
    ensures made { Made (with_range client.0 start.0 end.0) table.entry (lent out.new) result }
{
    if end.0 <= start.0 {
        return captured(table, out);
    }
    put_in(table?, client, start, end, out)
}

// The first place from `from` on that doesn't pass, or `n`, where no place behind such a one passes: each look halves the places still possible.
fn first_not<F: Fn(usize) -> bool>(from: usize, n: usize, passes: F) -> usize
    requires order { from ≤ n }
    requires callable { (k : ℕ) → k < n → F.pre passes k }
    ensures { Halved (F.post passes) from n result result }
{
    let mut lo = from;
    let mut hi = n;
    // No `for`: each turn leaves half of the places. std's `partition_point` looks at one slice, and a place lies in two.
    while lo < hi {
        let mid = lo + (hi - lo) / 2;
        if passes(mid) {
            lo = mid + 1;
        } else {
            hi = mid;
        }
    }
    lo
}

// The start of row `i`, if that is before `start`, or the clock of `start`.
fn lead(table: Ids<'_>, i: usize, start: Id) -> Clock
    ensures { Leads table.entry.clients.now table.entry.starts.now table.entry.count i start.client.0 start.clock.0 result.0 }
{
    if table.count <= i {
        return start.clock;
    }
    let here = table.start_of(i);
    if here.is_before(start) {
        return here.clock;
    }
    start.clock
}

// The end of the row before `j`, if that is past `end`, or the clock of `end`.
fn trail(table: Ids<'_>, j: usize, end: Id) -> Clock
    requires { j ≤ table.count }
    ensures { Trails table.entry.clients.now table.entry.ends.now j end.client.0 end.clock.0 result.0 }
{
    if j == 0 {
        return end.clock;
    }
    let here = table.end_of(j - 1);
    if end.is_before(here) {
        return here.clock;
    }
    end.clock
}

// The elements before `i`, then `v`, then the elements from `j` on.
fn splice<T: Copy>(src: &[T], i: usize, j: usize, v: T, out: &mut [T])
    requires { (i ≤ j) × (j ≤ length src.now) × (length out.old ≡ i + 1 + (length src.now - j)) }
    ensures { out.new ≡ take i src.now ++ v ∷ drop j src.now }
{
    out[..i].copy_from_slice(&src[..i]);
    out[i] = v;
    out[i + 1..].copy_from_slice(&src[j..]);
}

// The same in front of a longer slice.
fn splice_front<T: Copy>(src: &[T], i: usize, j: usize, v: T, out: &mut [T])
    requires { (i ≤ j) × (j ≤ length src.now) × (i + 1 + (length src.now - j) ≤ length out.old) }
    ensures { out.new ≡ (take i src.now ++ v ∷ drop j src.now) ++ drop (i + 1 + (length src.now - j)) out.old }
{
    let k = i + 1 + (src.len() - j);
    splice(src, i, j, v, &mut out[..k]);
}

// The rows with one range more, if there is room for them.
fn put_in(
    table: Ids<'_>,
    client: Client,
    start: Clock,
    end: Clock,
    out: &mut IdRoom<'_>,
) -> Result<usize, Refusal>
    requires { start.0 < end.0 }
    ensures same { Same out.old out.new }
    ensures made { Made (with_range client.0 start.0 end.0) (Ok table.entry) (lent out.new) result }
{
    let n = table.count;
    let (start, end) = (
        Id {
            client,
            clock: start,
        },
        Id { client, clock: end },
    );
    let i = first_not(0, n, |k| table.end_of(k).is_before(start));
    let j = first_not(i, n, |k| !end.is_before(table.start_of(k)));
    let first = lead(table, i, start);
    let last = trail(table, j, end);
    let k = i + 1 + (n - j);
    if out.capacity() < k {
        return Err(Refusal::Full);
    }
    splice_front(&table.clients[..n], i, j, client.0, out.clients);
    splice_front(&table.starts[..n], i, j, first.0, out.starts);
    splice_front(&table.ends[..n], i, j, last.0, out.ends);
    Ok(k)
}
