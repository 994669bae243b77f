//! The form between bytes and an `i64`: a magnitude, or the pattern that was read, and a minus bit.
#![tactic(auto)]

ghost use Rattle.std.specs.Prelude.{◌≡◌, ◌+◌, ◌%◌, length, if◌then◌else◌, unsigned_abs};
ghost use Rattle.varint.specs.Number.{read_by, signed, write_at};
ghost use Rattle.varint.specs.Integer.{signed_of, signed_bytes, int_bytes, wrong_sign};
ghost use Rattle.varint.specs.Answer.{said, wrote};
ghost use Rattle.varint.specs.Inner.{rest_at};

use crate::unsigned_numbers::{Unsigned, has_room, length_u64, write_on};
use crate::{Read, Refusal};

/// The number of a pattern and a minus bit: two's complement, negated modulo 2^64 where the bit is set. Exact at zero, minus zero and the least
/// `i64`.
pub fn i64_of(pattern: u64, minus: bool) -> i64
    ensures { result ≡ signed_of minus pattern }
{
    if minus {
        pattern.wrapping_neg()
    } else {
        pattern
    }
    .cast_signed()
}

/// A number without its sign: 2^63 for the least.
pub fn magnitude(value: i64) -> u64
    ensures { result ≡ unsigned_abs value }
{
    value.unsigned_abs()
}

/// How many bytes a signed number takes, 1 to 10.
#[tactic(auto, using(crate::proofs::Integers::sizes))]
pub fn length_i64(value: i64) -> usize
    ensures { result ≡ length (int_bytes value) }
{
    let m = magnitude(value);
    if m < 64 {
        return 1;
    }
    length_u64(m / 64) + 1
}

// The most bytes that are read of a signed number after its first.
const MOST_REST: u32 = 9;

// The pattern of a signed number, before its minus bit counts.
#[tactic(auto, using(crate::proofs::Integers::signed_reading))]
pub(crate) fn read_var_i64(bytes: &[u8], at: usize) -> Result<Read<u64>, Refusal>
    ensures { said (λ n. n) at result ≡ read_by signed bytes.now at }
{
    if bytes.len() <= at {
        return Err(Refusal::End);
    }
    let first = bytes[at];
    let value = (first % 64) as u64;
    if first < 128 {
        return Ok(Read {
            value,
            next: at + 1,
        });
    }
    read_rest_i64(bytes, at, value, at + 1)
}

// What follows the first byte of a signed number that starts at a place, from the next place on.
fn read_rest_i64(bytes: &[u8], at: usize, first: u64, from: usize) -> Result<Read<u64>, Refusal>
    ensures { said (λ n. n) at result ≡ rest_at bytes.now at first from }
{
    let mut value = first;
    let mut next = from;
    for k in 0..MOST_REST {
        if bytes.len() <= next {
            return Err(Refusal::End);
        }
        let b = bytes[next];
        value = value.join(b, 6 + 7 * k);
        next += 1;
        if b < 128 {
            return Ok(Read { value, next });
        }
    }
    if next < bytes.len() {
        Err(Refusal::Long)
    } else {
        Err(Refusal::End)
    }
}

// Whether a value above 0 is flagged negative, or one below 0 is not.
pub(crate) fn wrong_sign(value: i64, minus: bool) -> bool
    ensures { result ≡ wrong_sign minus value }
{
    if minus { 0 < value } else { value < 0 }
}

// Writes a magnitude and a minus bit, where they fit: six bits in a first byte, and the rest.
pub(crate) fn write_var_i64(
    magnitude: u64,
    minus: bool,
    buf: &mut [u8],
    at: usize,
) -> Result<usize, Refusal>
    ensures { wrote at result buf.new ≡ write_at (signed_bytes minus magnitude) buf.old at }
{
    if buf.len() <= at {
        return Err(Refusal::Full);
    }
    let first = first_bits(magnitude, minus);
    if magnitude < 64 {
        buf[at] = first;
        return Ok(at + 1);
    }
    if has_room(magnitude / 64, buf.len(), at + 1) {
        buf[at] = 128 + first;
        return Ok(write_on(magnitude / 64, buf, at + 1));
    }
    Err(Refusal::Full)
}

// The lowest six bits, and bit 6 for minus.
fn first_bits(magnitude: u64, minus: bool) -> u8
    ensures { result ≡ magnitude % 64 + (if minus then 64 else 0) }
{
    let low = (magnitude % 64) as u8;
    if minus { low + 64 } else { low }
}
