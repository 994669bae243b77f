// The union, the difference and the intersection of two tables, by the loops that serve every kind of rows.
ghost use Rattle.std.specs.Prelude.{length};
ghost use Rattle.ranges.specs.Tables.{Merged, Excluded, Intersected};

use crate::room::{RangeRoom, settled};
use crate::view::Ranges;
use tables::difference::lay_difference;
use tables::merging::lay_union;
use tables::walking::lay_intersection;
use varint::Refusal;

/// The union of two tables: the clocks that either holds. Answers how many rows are in `out` then; behind them it is zero.
///
/// # Errors
///
/// After a refusal `out` is zero. `Malformed` if the first `n` rows of `a` or the first `m` of `b` are no table, else `Full` if `out` has no room for the rows or they
/// are more than 1,024.
pub fn merge(a: &[u32], n: usize, b: &[u32], m: usize, out: &mut [u32]) -> Result<usize, Refusal>
    ensures { Merged a.now n b.now m (length out.old) out.new result }
{
    let a = match Ranges::checked(a, n) {
        Ok(a) => a,
        Err(e) => return settled(out, Err(e)),
    };
    let b = match Ranges::checked(b, m) {
        Ok(b) => b,
        Err(e) => return settled(out, Err(e)),
    };
    lay_union(a, b, &mut RangeRoom { flat: out })
}

/// The difference of two tables: the clocks that `a` holds and `b` does not. Answers how many rows are in `out` then; behind them it is zero.
///
/// # Errors
///
/// As [`crate::merge`].
pub fn exclude(a: &[u32], n: usize, b: &[u32], m: usize, out: &mut [u32]) -> Result<usize, Refusal>
    ensures { Excluded a.now n b.now m (length out.old) out.new result }
{
    let a = match Ranges::checked(a, n) {
        Ok(a) => a,
        Err(e) => return settled(out, Err(e)),
    };
    let b = match Ranges::checked(b, m) {
        Ok(b) => b,
        Err(e) => return settled(out, Err(e)),
    };
    lay_difference(a, b, &mut RangeRoom { flat: out })
}

/// The intersection of two tables: the clocks that both hold. Answers how many rows are in `out` then; behind them it is zero.
///
/// # Errors
///
/// As [`crate::merge`].
pub fn intersect(
    a: &[u32],
    n: usize,
    b: &[u32],
    m: usize,
    out: &mut [u32],
) -> Result<usize, Refusal>
    ensures { Intersected a.now n b.now m (length out.old) out.new result }
{
    let a = match Ranges::checked(a, n) {
        Ok(a) => a,
        Err(e) => return settled(out, Err(e)),
    };
    let b = match Ranges::checked(b, m) {
        Ok(b) => b,
        Err(e) => return settled(out, Err(e)),
    };
    lay_intersection(a, b, &mut RangeRoom { flat: out })
}

#[cfg(test)]
mod tests {
    use super::*;
    use std::test::Fail;
    use tables::difference::differ;
    use tables::merging::unite;
    use tables::walking::cross;

    // The loops under the three: the rows, and how many there are, where they fit.
    #[test]
    fn rows_are_counted(rt: HostRuntime) -> Result<(), Fail> {
        let a = Ranges::checked(&[1, 4, 6, 9], 2)?;
        let b = Ranges::checked(&[3, 7], 1)?;
        let mut rows = [7u32; 4];
        assert_eq!(rt; unite(a, b, &mut RangeRoom { flat: &mut rows }), 1);
        assert_eq!(rt; &rows[..2], [1, 9].as_slice());
        assert_eq!(rt; cross(a, b, &mut RangeRoom { flat: &mut rows }), 2);
        assert_eq!(rt; rows.as_slice(), [3, 4, 6, 7].as_slice());
        assert_eq!(rt; differ(a, b, &mut RangeRoom { flat: &mut rows }), 2);
        assert_eq!(rt; rows.as_slice(), [1, 3, 7, 9].as_slice());
        Ok(())
    }

    // Where they are more than there is room for, the count is above the room.
    #[test]
    fn rows_past_the_room_are_counted(rt: HostRuntime) -> Result<(), Fail> {
        let a = Ranges::checked(&[1, 4, 6, 9], 2)?;
        let b = Ranges::checked(&[3, 7], 1)?;
        let mut rows = [7u32; 3];
        assert!(rt;
            1 < unite(
                a,
                Ranges::checked(&[], 0)?,
                &mut RangeRoom { flat: &mut rows }
            )
        );
        assert!(rt; 1 < cross(a, b, &mut RangeRoom { flat: &mut rows }));
        assert!(rt; 1 < differ(a, b, &mut RangeRoom { flat: &mut rows }));
        Ok(())
    }
}
