//! Numbers without a sign: `u8`, `u32`, `u64` and `usize`.
//! One name a width, most of one line: the C boundary calls each, and contracts, edits and theorems name it.
#![tactic(auto)]

ghost use Rattle.std.specs.Prelude.{◌≡◌, ℕ, ◌+◌, ◌-◌, ◌%◌, ◌^◌, ◌<◌, ◌≤◌, true, length, nat_le, refl};
ghost use Rattle.std.proofs.Common.{leb-true};
ghost use Rattle.varint.specs.Number.{joined, read_at, narrowed, bytes_of, write_at};
ghost use Rattle.varint.specs.Answer.{said, wrote};
ghost use Rattle.varint.specs.Inner.{Stored, Begins};

use crate::begun::{Begun, begin, pick, unread};
use crate::{Read, Refusal};

/// A width at which numbers are read: `u32` and `u64`. `u8` is read as the one, and `usize` as the other.
pub trait Unsigned: Copy {
    ghost bits: { ℕ };

    ghost number: { Self → ℕ };

    /// What the width holds of a number: its low bits.
    fn low(value: u64) -> Self
        ensures { number result ≡ value % 2 ^ bits };

    /// Joins the low seven bits of a byte by OR, at a shift that is taken modulo the width; bits past the top are lost.
    fn join(self, byte: u8, shift: u32) -> Self
        ensures { number result ≡ joined bits (number self) shift (byte % 2 ^ 7) };

    /// The number as a `u64`.
    fn wide(self) -> u64
        ensures same { result ≡ number self }
        ensures fits { number self < 2 ^ bits };

    ghost at_least: { 32 ≤ bits };

    ghost at_most: { bits ≤ 64 };
}

impl Unsigned for u64 {
    ghost bits = { 64 };

    ghost number = { λ n. n };

    fn low(value: u64) -> u64 {
        value
    }

    fn join(self, byte: u8, shift: u32) -> u64 {
        self | ((byte % 128) as u64).wrapping_shl(shift)
    }

    fn wide(self) -> u64 {
        self
    }

    ghost at_least = { leb-true 32 64 refl };

    ghost at_most = { leb-true 64 64 refl };
}

impl Unsigned for u32 {
    ghost bits = { 32 };

    ghost number = { λ n. n };

    fn low(value: u64) -> u32 {
        (value % 4_294_967_296) as u32
    }

    fn join(self, byte: u8, shift: u32) -> u32 {
        self | ((byte % 128) as u32).wrapping_shl(shift)
    }

    fn wide(self) -> u64 {
        self as u64
    }

    ghost at_least = { leb-true 32 32 refl };

    ghost at_most = { leb-true 32 64 refl };
}

/// A width whose values are told apart by their numbers, so that what is read at it is determined.
pub trait DistinctUnsigned: Unsigned {
    ghost one: { (x y : Self) → Self.number x ≡ Self.number y → x ≡ y };
}

impl DistinctUnsigned for u64 {
    ghost one = { λ x y same. same };
}

impl DistinctUnsigned for u32 {
    ghost one = { λ x y same. same };
}

/// Reads a number at a place. Most numbers are one byte: it is answered at once. One of two to five bytes is read without a jump for each: the
/// faster way where lengths vary.
///
/// # Errors
/// [`Refusal::End`] where the bytes end before the number does, and at a place past the end; [`Refusal::Long`] where its eleventh byte goes on.
pub fn read_number<T: Unsigned>(bytes: &[u8], at: usize) -> Result<Read<T>, Refusal>
    ensures { said T.number at result ≡ read_at T.bits bytes.now at }
{
    if bytes.len() <= at {
        return Err(Refusal::End);
    }
    let first = bytes[at];
    if first < 128 {
        let value = T::low(first as u64);
        return Ok(Read {
            value,
            next: at + 1,
        });
    }
    let begun = begin(bytes, at);
    if begun.more {
        return read_on(bytes, at, begun);
    }
    let value = T::low(begun.value);
    Ok(Read {
        value,
        next: begun.next,
    })
}

/// The same number byte by byte, with a jump for each: the faster way where it is as long as the one before, as in the rows of a vector.
///
/// # Errors
/// As [`read_number`].
pub fn read_var_number<T: Unsigned>(bytes: &[u8], at: usize) -> Result<Read<T>, Refusal>
    ensures { said T.number at result ≡ read_at T.bits bytes.now at }
{
    read_on(bytes, at, unread(bytes, at))
}

/// Reads a `u64` ([`read_number`]).
pub fn read_u64(bytes: &[u8], at: usize) -> Result<Read<u64>, Refusal>
    ensures { said (λ n. n) at result ≡ read_at 64 bytes.now at }
{
    read_number(bytes, at)
}

/// Reads a `u32` ([`read_number`]): its bits past the thirty-second are lost, as in yrs.
pub fn read_u32(bytes: &[u8], at: usize) -> Result<Read<u32>, Refusal>
    ensures { said (λ n. n) at result ≡ read_at 32 bytes.now at }
{
    read_number(bytes, at)
}

/// Reads a `u64` byte by byte ([`read_var_number`]).
pub fn read_var_u64(bytes: &[u8], at: usize) -> Result<Read<u64>, Refusal>
    ensures { said (λ n. n) at result ≡ read_at 64 bytes.now at }
{
    read_var_number(bytes, at)
}

/// Reads a `u32` byte by byte ([`read_var_number`]).
pub fn read_var_u32(bytes: &[u8], at: usize) -> Result<Read<u32>, Refusal>
    ensures { said (λ n. n) at result ≡ read_at 32 bytes.now at }
{
    read_var_number(bytes, at)
}

/// Reads a `usize`, as a `u64`.
///
/// # Errors
/// As [`read_number`].
pub fn read_usize(bytes: &[u8], at: usize) -> Result<Read<usize>, Refusal>
    ensures { said (λ n. n) at result ≡ read_at 64 bytes.now at }
{
    let Read { value, next } = read_u64(bytes, at)?;
    let value = value as usize;
    Ok(Read { value, next })
}

/// Reads a `u8`, as a `u32`.
///
/// # Errors
/// As [`read_number`], and [`Refusal::Range`] above 255.
#[tactic(auto, unfolding(crate::specs::Number::narrowed))]
pub fn read_u8(bytes: &[u8], at: usize) -> Result<Read<u8>, Refusal>
    ensures { said (λ n. n) at result ≡ narrowed 256 at (read_at 32 bytes.now at) }
{
    let Read { value, next } = read_u32(bytes, at)?;
    let value = u8::try_from(value).map_err(|_| Refusal::Range)?;
    Ok(Read { value, next })
}

/// Writes a `u64` at a place, in its shortest form, and answers the place past it. Most numbers are one byte: it is written at once, after one test.
///
/// # Errors
/// [`Refusal::Full`] where its bytes do not fit from the place on: the buffer is as it was.
pub fn write_u64(value: u64, buf: &mut [u8], at: usize) -> Result<usize, Refusal>
    ensures { wrote at result buf.new ≡ write_at (bytes_of value) buf.old at }
{
    if (value < 128) & (at < buf.len()) {
        buf[at] = value as u8;
        return Ok(at + 1);
    }
    if has_room(value, buf.len(), at) {
        return Ok(write_long(value, buf, at));
    }
    Err(Refusal::Full)
}

/// Writes a `u32`, as a `u64` ([`write_u64`]).
pub fn write_u32(value: u32, buf: &mut [u8], at: usize) -> Result<usize, Refusal>
    ensures { wrote at result buf.new ≡ write_at (bytes_of value) buf.old at }
{
    write_u64(value as u64, buf, at)
}

/// Writes a `u8`, as a `u64` ([`write_u64`]).
pub fn write_u8(value: u8, buf: &mut [u8], at: usize) -> Result<usize, Refusal>
    ensures { wrote at result buf.new ≡ write_at (bytes_of value) buf.old at }
{
    write_u64(value as u64, buf, at)
}

/// Writes a `usize`, as a `u64` ([`write_u64`]).
pub fn write_usize(value: usize, buf: &mut [u8], at: usize) -> Result<usize, Refusal>
    ensures { wrote at result buf.new ≡ write_at (bytes_of value) buf.old at }
{
    write_u64(value as u64, buf, at)
}

/// Writes a `u64` byte by byte, with a jump for each: the faster way where it is as long as the one before, as in the rows of a vector.
///
/// # Errors
/// As [`write_u64`].
pub fn write_var_u64(value: u64, buf: &mut [u8], at: usize) -> Result<usize, Refusal>
    ensures { wrote at result buf.new ≡ write_at (bytes_of value) buf.old at }
{
    if has_room(value, buf.len(), at) {
        return Ok(write_on(value, buf, at));
    }
    Err(Refusal::Full)
}

/// How many bytes a number takes, 1 to 10.
pub fn length_u64(value: u64) -> usize
    ensures { result ≡ length (bytes_of value) }
{
    match value {
        0..=127 => 1,
        128..=16_383 => 2,
        16_384..=2_097_151 => 3,
        2_097_152..=268_435_455 => 4,
        268_435_456..=34_359_738_367 => 5,
        34_359_738_368..=4_398_046_511_103 => 6,
        4_398_046_511_104..=562_949_953_421_311 => 7,
        562_949_953_421_312..=72_057_594_037_927_935 => 8,
        72_057_594_037_927_936..=9_223_372_036_854_775_807 => 9,
        _ => 10,
    }
}

/// How many bytes a number takes, 1 to 5.
pub fn length_u32(value: u32) -> usize
    ensures { result ≡ length (bytes_of value) }
{
    length_u64(value as u64)
}

// Whether a number's bytes fit from a place on, in a buffer of a length. None takes more than ten, so bytes are counted only near the end.
#[tactic(auto, using(crate::proofs::Writing::room))]
pub(crate) fn has_room(value: u64, len: usize, at: usize) -> bool
    ensures { result ≡ nat_le (at + length (bytes_of value)) len }
{
    if len <= at {
        return false;
    }
    if 10 <= len - at {
        return true;
    }
    length_u64(value) <= len - at
}

// The most that four bytes hold, and one more.
const PAST_FOUR: u64 = 268_435_456;

// The bytes of a number of two bytes or more where they fit, with no test of the room: byte by byte until at most four are left.
fn write_long(value: u64, buf: &mut [u8], at: usize) -> usize
    requires le_value { 128 ≤ value }
    requires value_in_bounds { at + length (bytes_of value) ≤ length buf.old }
    ensures { Stored (bytes_of value) buf.old at buf.new result }
{
    let mut v = value;
    let mut next = at;
    // No `for`: it goes by what is left of the number.
    loop {
        buf[next] = (128 + v % 128) as u8;
        v = v / 128;
        next += 1;
        if v < PAST_FOUR {
            break;
        }
    }
    write_few(v, buf, next)
}

// The bytes of a number that takes at most four. Four are stored whatever the number, as if more followed: where nothing follows, the place and
// the number stay, and the last store puts the right byte over it. So no jump hangs on how many there are.
fn write_few(value: u64, buf: &mut [u8], at: usize) -> usize
    requires value_len_bound { length (bytes_of value) ≤ 4 }
    requires value_in_bounds { at + length (bytes_of value) ≤ length buf.old }
    ensures { Stored (bytes_of value) buf.old at buf.new result }
{
    let mut v = value;
    let mut next = at;
    for _ in 0..3u32 {
        buf[next] = (128 + v % 128) as u8;
        let more = 128 <= v;
        next += pick(more, 1, 0) as usize;
        v = pick(more, v / 128, v);
    }
    buf[next] = v as u8;
    next + 1
}

// The bytes of a number where they fit, byte by byte. Signed numbers are written so as well: `write_var_i64` must stay small, for when the compiler left it
// out of its callers, a number of one byte took more than twice as long.
pub(crate) fn write_on(value: u64, buf: &mut [u8], at: usize) -> usize
    requires { at + length (bytes_of value) ≤ length buf.old }
    ensures { Stored (bytes_of value) buf.old at buf.new result }
{
    let mut v = value;
    let mut next = at;
    // No `for`: it goes by what is left of the number.
    while 128 <= v {
        buf[next] = (128 + v % 128) as u8;
        v = v / 128;
        next += 1;
    }
    buf[next] = v as u8;
    next + 1
}

// The most bytes that are read of a number, at any width.
const MOST_READ: u32 = 11;

// The rest of a number that goes on, byte by byte.
fn read_on<T: Unsigned>(bytes: &[u8], at: usize, s: Begun) -> Result<Read<T>, Refusal>
    requires read_bound { s.read ≤ 5 }
    requires more_value { s.more ≡ true }
    requires begins { Begins bytes.now at s.read s.value s.next s.more }
    ensures { said T.number at result ≡ read_at T.bits bytes.now at }
{
    let mut value = T::low(s.value);
    let mut next = s.next;
    for k in s.read..MOST_READ {
        if bytes.len() <= next {
            return Err(Refusal::End);
        }
        let b = bytes[next];
        value = value.join(b, 7 * k);
        next += 1;
        if b < 128 {
            return Ok(Read { value, next });
        }
    }
    Err(Refusal::Long)
}

#[cfg(test)]
mod tests {
    use super::*;
    use std::test::Fail;

    // A number with a mark beside it: two values have one number.
    #[derive(Clone, Copy)]
    struct Marked {
        number: u32,
        marked: bool,
    }

    impl Unsigned for Marked {
        ghost use Rattle.std.proofs.Common.{leb-true, refl};

        ghost bits = { 32 };

        ghost number = { λ m. m.number };

        fn low(value: u64) -> Marked {
            Marked {
                number: u32::low(value),
                marked: true,
            }
        }

        fn join(self, byte: u8, shift: u32) -> Marked {
            Marked {
                number: self.number.join(byte, shift),
                marked: self.marked,
            }
        }

        fn wide(self) -> u64 {
            self.number.wide()
        }

        ghost at_least = { leb-true 32 32 refl };

        ghost at_most = { leb-true 32 64 refl };
    }

    // Two values of a type that is read may share a number.
    #[test]
    fn marked_numbers_are_read(rt: HostRuntime) -> Result<(), Fail> {
        let read: Read<Marked> = read_number(&[0xAC, 0x02], 0)?;
        assert_eq!(rt; read.value.number, 300);
        assert_eq!(rt; read.next, 2);
        assert!(rt; read.value.marked);
        let again: Read<Marked> = read_var_number(&[0xAC, 0x02], 1)?;
        assert_eq!(rt; again.value.number, 2);
        Ok(())
    }
}
