//! The union, difference and intersection of two tables.

ghost use Rattle.std.specs.Prelude.{ℕ};
ghost use Rattle.tables.specs.Inner.Rows.{union, difference, intersection};
ghost use Rattle.ids.specs.View.{combined_rows};
ghost use Rattle.ids.specs.Room.{lent, Same, Laid, both};

use crate::room::IdRoom;
use crate::view::Ids;
use tables::difference::lay_difference;
use tables::merging::lay_union;
use tables::walking::lay_intersection;
use varint::Refusal;

/// The union of two tables, laid in a room, if there is room for it.
pub(crate) fn united(
    a: Result<Ids<'_>, Refusal>,
    b: Result<Ids<'_>, Refusal>,
    out: &mut IdRoom<'_>,
) -> Result<usize, Refusal>
    ensures same { Same out.old out.new }
    ensures laid { Laid (combined_rows union) (both a.entry b.entry) (lent out.old) (lent out.new) result }
{
    let a = match a {
        Ok(a) => a,
        Err(e) => return out.settled(Err(e)),
    };
    let b = match b {
        Ok(b) => b,
        Err(e) => return out.settled(Err(e)),
    };
    lay_union(a, b, out)
}

/// The difference of two tables, laid in a room, if there is room for it.
pub(crate) fn differed(
    a: Result<Ids<'_>, Refusal>,
    b: Result<Ids<'_>, Refusal>,
    out: &mut IdRoom<'_>,
) -> Result<usize, Refusal>
    ensures same { Same out.old out.new }
    ensures laid { Laid (combined_rows difference) (both a.entry b.entry) (lent out.old) (lent out.new) result }
{
    let a = match a {
        Ok(a) => a,
        Err(e) => return out.settled(Err(e)),
    };
    let b = match b {
        Ok(b) => b,
        Err(e) => return out.settled(Err(e)),
    };
    lay_difference(a, b, out)
}

/// The intersection of two tables, laid in a room, if there is room for it.
pub(crate) fn crossed(
    a: Result<Ids<'_>, Refusal>,
    b: Result<Ids<'_>, Refusal>,
    out: &mut IdRoom<'_>,
) -> Result<usize, Refusal>
    ensures same { Same out.old out.new }
    ensures laid { Laid (combined_rows intersection) (both a.entry b.entry) (lent out.old) (lent out.new) result }
{
    let a = match a {
        Ok(a) => a,
        Err(e) => return out.settled(Err(e)),
    };
    let b = match b {
        Ok(b) => b,
        Err(e) => return out.settled(Err(e)),
    };
    lay_intersection(a, b, out)
}
