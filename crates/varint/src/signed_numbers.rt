//! Numbers with a sign: `i8`, `i16`, `i32`, `i64` and `isize`, plain or with the sign flag that tells 0 from minus zero.
//! One name a width, most of one line: the C boundary calls each, and contracts, edits and theorems name it.
#![tactic(auto)]

ghost use Rattle.std.specs.Prelude.{◌≡◌, ℕ, ◌-◌, ◌^◌, ◌<◌, ◌≤◌, not, ℤ, MatchOption, IfOk, refl};
ghost use Rattle.std.proofs.Common.{leb-true};
ghost use Rattle.std.specs.Int.Signed.{mag};
ghost use Rattle.varint.specs.Number.{signed, write_at};
ghost use Rattle.varint.specs.Integer.{signed_at, plain, fitting, int_bytes, write_signed_at};
ghost use Rattle.varint.specs.Answer.{said_int, said_signed, wrote};

use crate::magnitudes::{i64_of, magnitude, read_var_i64, write_var_i64, wrong_sign};
use crate::{Read, Refusal};

/// A value and its sign flag, so that 0 and minus zero differ. The flag is that of the number's minus bit.
#[derive(Clone, Copy, Debug, PartialEq, Eq)]
pub struct Signed<T> {
    /// The number.
    pub value: T,
    /// Whether its minus bit is set.
    pub is_negative: bool,
}

impl<T: Copy> Signed<T> {
    /// A value with a flag. One that a writer refuses can be made too: above 0 and flagged negative, or below 0 and not.
    pub fn new(value: T, is_negative: bool) -> Self
        ensures { result ≡ record { value = value; is_negative = is_negative } }
    {
        Signed { value, is_negative }
    }

    /// Whether the flag is not set.
    pub fn is_positive(self) -> bool
        ensures { result ≡ not self.is_negative }
    {
        !self.is_negative
    }

    /// The flag.
    pub fn is_negative(self) -> bool
        ensures { result ≡ self.is_negative }
    {
        self.is_negative
    }

    /// The value without the flag.
    pub fn value(self) -> T
        ensures { result ≡ self.value }
    {
        self.value
    }
}

/// A signed width: `i8`, `i16`, `i32`, `i64` and `isize`, which has 64 bits.
pub trait Integer: Copy {
    ghost bits: { ℕ };

    ghost int: { Self → ℤ };

    /// A number at this width, or none where it does not fit.
    fn narrow(value: i64) -> Option<Self>
        ensures { MatchOption result (2 ^ (bits - 1) ≤ mag value) (λ v. (int v ≡ value) × (mag value < 2 ^ (bits - 1))) };

    /// The number as an `i64`.
    fn wide(self) -> i64
        ensures same { result ≡ int self }
        ensures fits { mag (int self) < 2 ^ (bits - 1) };

    ghost at_most: { bits ≤ 64 };
}

impl Integer for i64 {
    ghost bits = { 64 };

    ghost int = { λ n. n };

    fn narrow(value: i64) -> Option<i64> {
        Some(value)
    }

    fn wide(self) -> i64 {
        self
    }

    ghost at_most = { leb-true 64 64 refl };
}

impl Integer for isize {
    ghost bits = { 64 };

    ghost int = { λ n. n };

    fn narrow(value: i64) -> Option<isize> {
        Some(value as isize)
    }

    fn wide(self) -> i64 {
        self as i64
    }

    ghost at_most = { leb-true 64 64 refl };
}

impl Integer for i32 {
    ghost bits = { 32 };

    ghost int = { λ n. n };

    fn narrow(value: i64) -> Option<i32> {
        i32::try_from(value).ok()
    }

    fn wide(self) -> i64 {
        i64::from(self)
    }

    ghost at_most = { leb-true 32 64 refl };
}

impl Integer for i16 {
    ghost bits = { 16 };

    ghost int = { λ n. n };

    fn narrow(value: i64) -> Option<i16> {
        i16::try_from(value).ok()
    }

    fn wide(self) -> i64 {
        i64::from(self)
    }

    ghost at_most = { leb-true 16 64 refl };
}

impl Integer for i8 {
    ghost bits = { 8 };

    ghost int = { λ n. n };

    fn narrow(value: i64) -> Option<i8> {
        i8::try_from(value).ok()
    }

    fn wide(self) -> i64 {
        i64::from(self)
    }

    ghost at_most = { leb-true 8 64 refl };
}

/// A width whose values are told apart by their numbers, so that what is read at it is determined.
pub trait DistinctInteger: Integer {
    ghost one: { (x y : Self) → Self.int x ≡ Self.int y → x ≡ y };
}

impl DistinctInteger for i64 {
    ghost one = { λ x y same. same };
}

impl DistinctInteger for isize {
    ghost one = { λ x y same. same };
}

impl DistinctInteger for i32 {
    ghost one = { λ x y same. same };
}

impl DistinctInteger for i16 {
    ghost one = { λ x y same. same };
}

impl DistinctInteger for i8 {
    ghost one = { λ x y same. same };
}

/// Reads a number with its sign flag. It is read as an `i64`, and then narrowed.
///
/// # Errors
/// [`Refusal::End`] where the bytes end before the number does, and at a place past the end; [`Refusal::Long`] where its tenth byte goes on and
/// another follows; [`Refusal::Range`] where it was read whole and does not fit the width.
#[tactic(auto, unfolding(crate::specs::Integer::fitting))]
pub fn read_signed<T: Integer>(bytes: &[u8], at: usize) -> Result<Read<Signed<T>>, Refusal>
    ensures { said_signed T.int at result ≡ fitting T.bits at (signed_at bytes.now at) }
{
    let Read {
        value: Signed { value, is_negative },
        next,
    } = read_signed_i64(bytes, at)?;
    let value = T::narrow(value).ok_or(Refusal::Range)?;
    let value = Signed::new(value, is_negative);
    Ok(Read { value, next })
}

/// Reads a number without its sign flag, so that minus zero is 0.
///
/// # Errors
/// As [`read_signed`].
#[tactic(auto, unfolding(crate::specs::Integer::fitting))]
pub fn read_int<T: Integer>(bytes: &[u8], at: usize) -> Result<Read<T>, Refusal>
    ensures { said_int T.int at result ≡ fitting T.bits at (plain (signed_at bytes.now at)) }
{
    let Read { value, next } = read_i64(bytes, at)?;
    let value = T::narrow(value).ok_or(Refusal::Range)?;
    Ok(Read { value, next })
}

/// Writes a number with its sign flag, in its shortest form, and answers the place past it: reading there gives both back.
///
/// # Errors
/// [`Refusal::Sign`] where a value above 0 is flagged negative, or one below 0 is not; then [`Refusal::Full`] where its bytes do not fit from the
/// place on. The buffer is as it was.
pub fn write_signed<T: Integer>(
    signed: Signed<T>,
    buf: &mut [u8],
    at: usize,
) -> Result<usize, Refusal>
    ensures wrote { wrote at result buf.new ≡ write_signed_at signed.is_negative (T.int signed.value) buf.old at }
    ensures back { IfOk result (λ p. fitting T.bits at (signed_at buf.new at) ≡ record { no = 0; value = T.int signed.value; negative = signed.is_negative; place = p }) }
{
    let Signed { value, is_negative } = signed;
    let wide = Signed::new(value.wide(), is_negative);
    write_signed_i64(wide, buf, at)
}

/// Writes a number without a sign flag, in its shortest form: 0 never as minus zero.
///
/// # Errors
/// [`Refusal::Full`] where its bytes do not fit from the place on: the buffer is as it was.
pub fn write_int<T: Integer>(value: T, buf: &mut [u8], at: usize) -> Result<usize, Refusal>
    ensures { wrote at result buf.new ≡ write_at (int_bytes (T.int value)) buf.old at }
{
    write_i64(value.wide(), buf, at)
}

/// Reads an `i64` with its sign flag ([`read_signed`]).
#[tactic(auto, using(crate::proofs::Answers::first_there), unfolding(crate::specs::Integer::signed_at, crate::specs::Number::and_then))]
pub fn read_signed_i64(bytes: &[u8], at: usize) -> Result<Read<Signed<i64>>, Refusal>
    ensures { said_signed (λ n. n) at result ≡ signed_at bytes.now at }
{
    let Read {
        value: pattern,
        next,
    } = read_var_i64(bytes, at)?;
    let minus = 64 <= bytes[at] % 128;
    let value = Signed::new(i64_of(pattern, minus), minus);
    Ok(Read { value, next })
}

/// Reads an `isize` with its sign flag ([`read_signed`]).
#[tactic(auto, using(crate::proofs::Answers::signed_fits))]
pub fn read_signed_isize(bytes: &[u8], at: usize) -> Result<Read<Signed<isize>>, Refusal>
    ensures { said_signed (λ n. n) at result ≡ signed_at bytes.now at }
{
    read_signed(bytes, at)
}

/// Reads an `i32` with its sign flag ([`read_signed`]).
pub fn read_signed_i32(bytes: &[u8], at: usize) -> Result<Read<Signed<i32>>, Refusal>
    ensures { said_signed (λ n. n) at result ≡ fitting 32 at (signed_at bytes.now at) }
{
    read_signed(bytes, at)
}

/// Reads an `i16` with its sign flag ([`read_signed`]).
pub fn read_signed_i16(bytes: &[u8], at: usize) -> Result<Read<Signed<i16>>, Refusal>
    ensures { said_signed (λ n. n) at result ≡ fitting 16 at (signed_at bytes.now at) }
{
    read_signed(bytes, at)
}

/// Reads an `i8` with its sign flag ([`read_signed`]).
pub fn read_signed_i8(bytes: &[u8], at: usize) -> Result<Read<Signed<i8>>, Refusal>
    ensures { said_signed (λ n. n) at result ≡ fitting 8 at (signed_at bytes.now at) }
{
    read_signed(bytes, at)
}

/// Reads an `i64` ([`read_int`]).
pub fn read_i64(bytes: &[u8], at: usize) -> Result<Read<i64>, Refusal>
    ensures { said_int (λ n. n) at result ≡ plain (signed_at bytes.now at) }
{
    let Read { value, next } = read_signed_i64(bytes, at)?;
    let value = value.value;
    Ok(Read { value, next })
}

/// Reads an `isize` ([`read_int`]).
#[tactic(auto, using(crate::proofs::Answers::plain_fits))]
pub fn read_isize(bytes: &[u8], at: usize) -> Result<Read<isize>, Refusal>
    ensures { said_int (λ n. n) at result ≡ plain (signed_at bytes.now at) }
{
    read_int(bytes, at)
}

/// Reads an `i32` ([`read_int`]).
pub fn read_i32(bytes: &[u8], at: usize) -> Result<Read<i32>, Refusal>
    ensures { said_int (λ n. n) at result ≡ fitting 32 at (plain (signed_at bytes.now at)) }
{
    read_int(bytes, at)
}

/// Reads an `i16` ([`read_int`]).
pub fn read_i16(bytes: &[u8], at: usize) -> Result<Read<i16>, Refusal>
    ensures { said_int (λ n. n) at result ≡ fitting 16 at (plain (signed_at bytes.now at)) }
{
    read_int(bytes, at)
}

/// Reads an `i8` ([`read_int`]).
pub fn read_i8(bytes: &[u8], at: usize) -> Result<Read<i8>, Refusal>
    ensures { said_int (λ n. n) at result ≡ fitting 8 at (plain (signed_at bytes.now at)) }
{
    read_int(bytes, at)
}

/// Writes an `i64` with its sign flag ([`write_signed`]).
#[tactic(auto, unfolding(crate::specs::Integer::write_signed_at))]
pub fn write_signed_i64(signed: Signed<i64>, buf: &mut [u8], at: usize) -> Result<usize, Refusal>
    ensures { wrote at result buf.new ≡ write_signed_at signed.is_negative signed.value buf.old at }
{
    let Signed { value, is_negative } = signed;
    if wrong_sign(value, is_negative) {
        return Err(Refusal::Sign);
    }
    write_var_i64(magnitude(value), is_negative, buf, at)
}

/// Writes an `isize` with its sign flag ([`write_signed`]).
pub fn write_signed_isize(
    signed: Signed<isize>,
    buf: &mut [u8],
    at: usize,
) -> Result<usize, Refusal>
    ensures { wrote at result buf.new ≡ write_signed_at signed.is_negative signed.value buf.old at }
{
    write_signed(signed, buf, at)
}

/// Writes an `i32` with its sign flag ([`write_signed`]).
pub fn write_signed_i32(signed: Signed<i32>, buf: &mut [u8], at: usize) -> Result<usize, Refusal>
    ensures { wrote at result buf.new ≡ write_signed_at signed.is_negative signed.value buf.old at }
{
    write_signed(signed, buf, at)
}

/// Writes an `i16` with its sign flag ([`write_signed`]).
pub fn write_signed_i16(signed: Signed<i16>, buf: &mut [u8], at: usize) -> Result<usize, Refusal>
    ensures { wrote at result buf.new ≡ write_signed_at signed.is_negative signed.value buf.old at }
{
    write_signed(signed, buf, at)
}

/// Writes an `i8` with its sign flag ([`write_signed`]).
pub fn write_signed_i8(signed: Signed<i8>, buf: &mut [u8], at: usize) -> Result<usize, Refusal>
    ensures { wrote at result buf.new ≡ write_signed_at signed.is_negative signed.value buf.old at }
{
    write_signed(signed, buf, at)
}

/// Writes an `i64` ([`write_int`]).
pub fn write_i64(value: i64, buf: &mut [u8], at: usize) -> Result<usize, Refusal>
    ensures { wrote at result buf.new ≡ write_at (int_bytes value) buf.old at }
{
    write_var_i64(magnitude(value), value < 0, buf, at)
}

/// Writes an `isize` ([`write_int`]).
pub fn write_isize(value: isize, buf: &mut [u8], at: usize) -> Result<usize, Refusal>
    ensures { wrote at result buf.new ≡ write_at (int_bytes value) buf.old at }
{
    write_int(value, buf, at)
}

/// Writes an `i32` ([`write_int`]).
pub fn write_i32(value: i32, buf: &mut [u8], at: usize) -> Result<usize, Refusal>
    ensures { wrote at result buf.new ≡ write_at (int_bytes value) buf.old at }
{
    write_int(value, buf, at)
}

/// Writes an `i16` ([`write_int`]).
pub fn write_i16(value: i16, buf: &mut [u8], at: usize) -> Result<usize, Refusal>
    ensures { wrote at result buf.new ≡ write_at (int_bytes value) buf.old at }
{
    write_int(value, buf, at)
}

/// Writes an `i8` ([`write_int`]).
pub fn write_i8(value: i8, buf: &mut [u8], at: usize) -> Result<usize, Refusal>
    ensures { wrote at result buf.new ≡ write_at (int_bytes value) buf.old at }
{
    write_int(value, buf, at)
}

#[cfg(test)]
mod tests {
    use super::*;
    use crate::VarInt;
    use std::test::Fail;

    // A number with a mark beside it: two values have one number.
    #[derive(Clone, Copy)]
    struct Marked {
        number: i64,
        marked: bool,
    }

    impl Integer for Marked {
        ghost use Rattle.std.proofs.Common.{leb-true, refl};

        ghost bits = { 64 };

        ghost int = { λ m. m.number };

        fn narrow(value: i64) -> Option<Marked> {
            Some(Marked {
                number: value,
                marked: true,
            })
        }

        fn wide(self) -> i64 {
            self.number
        }

        ghost at_most = { leb-true 64 64 refl };
    }

    // Two values of a type that is read may share a number.
    #[test]
    fn marked_numbers_are_read(rt: HostRuntime) -> Result<(), Fail> {
        let read: Read<Marked> = read_int(&[0x41], 0)?;
        assert_eq!(rt; read.value.number, -1);
        assert_eq!(rt; read.next, 1);
        assert!(rt; read.value.marked);
        let mut bytes = [0u8; 2];
        assert_eq!(rt; VarInt::write(read.value, &mut bytes, 1)?, 2);
        assert_eq!(rt; bytes.as_slice(), [0, 0x41].as_slice());
        Ok(())
    }
}
