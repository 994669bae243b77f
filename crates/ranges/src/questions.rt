// What a table is asked: of a checked one, and of one that is lent.
ghost use Rattle.std.specs.Prelude.{◌≡◌, [], ℕ, ◌+◌, ◌-◌, ◌*◌, ◌<◌, ◌≤◌, length};
ghost use Rattle.std.specs.Option.{option_map};
ghost use Rattle.tables.specs.Answers.{Says};
ghost use Rattle.tables.specs.Inner.Edit.{Advanced, Parted, starts, ends, Starting, Ending};
ghost use Rattle.ranges.specs.Rows as spec;
ghost use Rattle.ranges.specs.Tables.{answered, ContainsClock, FindStart, ClockStart, ClockEnd, Len, IsEmpty, Get};
ghost use Rattle.ranges.specs.View.{table_rows};
ghost use Rattle.ranges.specs.Ruled.{row_at};

use crate::view::{Ranges, Row};
use tables::Clock;
use varint::Refusal;

impl<'a> Ranges<'a> {
    /// How many rows the table has.
    pub fn len(self) -> usize
        ensures { result ≡ length (table_rows self.entry) }
    {
        self.count
    }

    /// Whether the table has no row.
    pub fn is_empty(self) -> bool
        ensures { Says (table_rows self.entry ≡ []) result }
    {
        self.len() == 0
    }

    /// The first start, or none of an empty table.
    pub fn clock_start(self) -> Option<Clock>
        ensures { option_map (λ c. c.0) result ≡ spec.clock_start (table_rows self.entry) }
    {
        if self.count == 0 {
            return None;
        }
        Some(self.start_of(0))
    }

    /// The last end, or none of an empty table.
    pub fn clock_end(self) -> Option<Clock>
        ensures { option_map (λ c. c.0) result ≡ spec.clock_end (table_rows self.entry) }
    {
        if self.count == 0 {
            return None;
        }
        Some(self.end_of(self.count - 1))
    }

    /// The index of the first row whose end exceeds the clock, or none.
    pub fn find_start(self, clock: Clock) -> Option<usize>
        ensures { result ≡ spec.find_start (table_rows self.entry) clock.0 }
    {
        let i = self.ends_below(clock.0 as u64 + 1);
        if self.count <= i {
            return None;
        }
        Some(i)
    }

    /// Whether the table holds the clock: the first row that ends past it does, or none.
    pub fn contains_clock(self, clock: Clock) -> bool
        ensures { Says (spec.Holds (table_rows self.entry) clock.0) result }
    {
        let row = self.ends_below(clock.0 as u64 + 1);
        if self.count <= row {
            return false;
        }
        self.start_of(row).0 <= clock.0
    }

    /// The row at an index, or none past the last.
    pub fn get(self, index: usize) -> Option<Row>
        ensures { option_map answered result ≡ spec.get (table_rows self.entry) index }
    {
        if self.count <= index {
            return None;
        }
        Some(Row {
            start: self.start_of(index),
            end: self.end_of(index),
        })
    }

    // How many rows end below `x`. Three looks, which wait for no other, leave a quarter of the rows possible; the last few rows are halved.
    pub(crate) fn ends_below(self, x: u64) -> usize
        requires { x ≤ 4294967296 }
        ensures { Parted (ends (row_at self.entry.flat.now)) self.entry.count x result result }
    {
        let mut lo: usize = 0;
        let mut len: usize = self.count;
        // No `for`: each turn leaves a quarter of the rows, so no index counts the turns.
        while 3 < len {
            let q = (len + 1) / 4;
            let a = advance(self.end_of(lo + (q - 1)).0, x, q);
            let b = advance(self.end_of(lo + (2 * q - 1)).0, x, q);
            let c = advance(self.end_of(lo + (3 * q - 1)).0, x, q);
            lo = lo + a + b + c;
            len = len - 3 * q;
        }
        // No `for`: each turn leaves half of the rows. std's `partition_point` takes four times as long.
        while 0 < len {
            let half = len - len / 2;
            lo = lo + advance(self.end_of(lo + (half - 1)).0, x, half);
            len = len - half;
        }
        lo
    }

    // How many rows start below `x`, where the first `i` do. Most ranges meet no row or one: these looks come first.
    pub(crate) fn starts_below(self, i: usize, x: u64) -> usize
        requires x_bound { x ≤ 4294967296 }
        requires parted { Parted (starts (row_at self.flat.now)) self.count x i self.count }
        ensures parted_2 { Parted (starts (row_at self.entry.flat.now)) self.entry.count x result result }
        ensures lower_bound { i ≤ result }
    {
        let n = self.count;
        if n <= i {
            return i;
        }
        if x <= self.start_of(i).0 as u64 {
            return i;
        }
        if n <= i + 1 {
            return i + 1;
        }
        if x <= self.start_of(i + 1).0 as u64 {
            return i + 1;
        }
        let mut lo: usize = i;
        let mut len: usize = n - i;
        // No `for`: each turn leaves half of the rows. std's `partition_point` takes four times as long.
        while 0 < len {
            let half = len - len / 2;
            lo = lo + advance(self.start_of(lo + (half - 1)).0, x, half);
            len = len - half;
        }
        lo
    }

    // The start of row `i`, or `start` where there is no such row.
    pub(crate) fn start_or(self, i: usize, start: u32) -> u32
        ensures { Starting (row_at self.entry.flat.now) self.entry.count i start result }
    {
        if self.count <= i {
            return start;
        }
        self.start_of(i).0
    }

    // The end of the row before `j`, or `end` where there is none.
    pub(crate) fn end_or(self, j: usize, end: u32) -> u32
        requires { j ≤ self.count }
        ensures { Ending (row_at self.entry.flat.now) j end result }
    {
        if j == 0 {
            return end;
        }
        self.end_of(j - 1).0
    }
}

// `half` where `m` is below `x`, else 0: reckoned, for a branch here would be mispredicted every other time.
fn advance(m: u32, x: u64, half: usize) -> usize
    requires { x ≤ 4294967296 }
    ensures { Advanced m x half result }
{
    let below = (9223372036854775807 + x - m as u64) / 9223372036854775808;
    half * below as usize
}

/// How many rows the table has.
///
/// # Errors
///
/// `Malformed` if the first `count` rows are no table, as [`Ranges::checked`] says.
pub fn len(rows: &[u32], count: usize) -> Result<usize, Refusal>
    ensures { Len rows.now count result }
{
    Ok(Ranges::checked(rows, count)?.len())
}

/// Whether the table has no row.
///
/// # Errors
///
/// `Malformed` if the first `count` rows are no table.
pub fn is_empty(rows: &[u32], count: usize) -> Result<bool, Refusal>
    ensures { IsEmpty rows.now count result }
{
    Ok(Ranges::checked(rows, count)?.is_empty())
}

/// The first start, or none of an empty table.
///
/// # Errors
///
/// `Malformed` if the first `count` rows are no table.
pub fn clock_start(rows: &[u32], count: usize) -> Result<Option<Clock>, Refusal>
    ensures { ClockStart rows.now count result }
{
    Ok(Ranges::checked(rows, count)?.clock_start())
}

/// The last end, or none of an empty table.
///
/// # Errors
///
/// `Malformed` if the first `count` rows are no table.
pub fn clock_end(rows: &[u32], count: usize) -> Result<Option<Clock>, Refusal>
    ensures { ClockEnd rows.now count result }
{
    Ok(Ranges::checked(rows, count)?.clock_end())
}

/// The index of the first row whose end exceeds the clock, or none.
///
/// # Errors
///
/// `Malformed` if the first `count` rows are no table.
pub fn find_start(rows: &[u32], count: usize, clock: Clock) -> Result<Option<usize>, Refusal>
    ensures { FindStart rows.now count clock.0 result }
{
    Ok(Ranges::checked(rows, count)?.find_start(clock))
}

/// Whether the table holds the clock.
///
/// # Errors
///
/// `Malformed` if the first `count` rows are no table.
pub fn contains_clock(rows: &[u32], count: usize, clock: Clock) -> Result<bool, Refusal>
    ensures { ContainsClock rows.now count clock.0 result }
{
    Ok(Ranges::checked(rows, count)?.contains_clock(clock))
}

/// The row at an index, or none past the last.
///
/// # Errors
///
/// `Malformed` if the first `count` rows are no table.
pub fn get(rows: &[u32], count: usize, index: usize) -> Result<Option<Row>, Refusal>
    ensures { Get rows.now count index result }
{
    Ok(Ranges::checked(rows, count)?.get(index))
}
