//! Every width by one name, for callers that are generic over it.
#![tactic(auto)]

ghost use Rattle.std.specs.Prelude.{◌≡◌, ℕ, ℤ, pos, false, List, IfOk};
ghost use Rattle.std.proofs.Common.{nat_abs, ap};
ghost use Rattle.varint.specs.Number.{read_at, narrowed, bytes_of, write_at};
ghost use Rattle.varint.specs.Integer.{IntAnswer, signed_at, plain, fitting, int_bytes};
ghost use Rattle.varint.specs.Answer.{said_int, plain_int, wrote};

use crate::signed_numbers::{DistinctInteger, Integer, read_int, write_i64};
use crate::unsigned_numbers::{read_u8, read_u32, read_u64, read_usize, write_u64};
use crate::{Read, Refusal};

/// A number of one of the nine widths, without a sign flag. After the trait of that name in yrs.
pub trait VarInt: Copy {
    ghost int: { Self → ℤ };

    ghost read_gives: { List ℕ → ℕ → IntAnswer };

    ghost spelled: { Self → List ℕ };

    /// Reads a number at a place.
    ///
    /// # Errors
    /// [`Refusal::End`], [`Refusal::Long`] and [`Refusal::Range`], as the reader of the width.
    fn read(bytes: &[u8], at: usize) -> Result<Read<Self>, Refusal>
        ensures { said_int int at result ≡ read_gives bytes.now at };

    /// Writes a number at a place, and answers the place past it: reading there gives the number back.
    ///
    /// # Errors
    /// [`Refusal::Full`] where its bytes do not fit from the place on: the buffer is as it was.
    fn write(self, buf: &mut [u8], at: usize) -> Result<usize, Refusal>
        ensures wrote { wrote at result buf.new ≡ write_at (spelled self) buf.old at }
        ensures back { IfOk result (λ p. read_gives buf.new at ≡ record { no = 0; value = int self; negative = false; place = p }) };
}

impl VarInt for u64 {
    ghost int = { λ n. pos n };

    ghost read_gives = { λ bytes at. plain_int (read_at 64 bytes at) };

    ghost spelled = { bytes_of };

    fn read(bytes: &[u8], at: usize) -> Result<Read<u64>, Refusal> {
        read_u64(bytes, at)
    }

    fn write(self, buf: &mut [u8], at: usize) -> Result<usize, Refusal> {
        write_u64(self, buf, at)
    }
}

impl VarInt for usize {
    ghost int = { λ n. pos n };

    ghost read_gives = { λ bytes at. plain_int (read_at 64 bytes at) };

    ghost spelled = { bytes_of };

    fn read(bytes: &[u8], at: usize) -> Result<Read<usize>, Refusal> {
        read_usize(bytes, at)
    }

    fn write(self, buf: &mut [u8], at: usize) -> Result<usize, Refusal> {
        write_u64(self as u64, buf, at)
    }
}

impl VarInt for u32 {
    ghost int = { λ n. pos n };

    ghost read_gives = { λ bytes at. plain_int (read_at 32 bytes at) };

    ghost spelled = { bytes_of };

    fn read(bytes: &[u8], at: usize) -> Result<Read<u32>, Refusal> {
        read_u32(bytes, at)
    }

    fn write(self, buf: &mut [u8], at: usize) -> Result<usize, Refusal> {
        write_u64(self as u64, buf, at)
    }
}

impl VarInt for u8 {
    ghost int = { λ n. pos n };

    ghost read_gives = { λ bytes at. plain_int (narrowed 256 at (read_at 32 bytes at)) };

    ghost spelled = { bytes_of };

    fn read(bytes: &[u8], at: usize) -> Result<Read<u8>, Refusal> {
        read_u8(bytes, at)
    }

    fn write(self, buf: &mut [u8], at: usize) -> Result<usize, Refusal> {
        write_u64(self as u64, buf, at)
    }
}

impl<T: Integer> VarInt for T {
    ghost int = { T.int };

    ghost read_gives = { λ bytes at. fitting T.bits at (plain (signed_at bytes at)) };

    ghost spelled = { λ v. int_bytes (T.int v) };

    fn read(bytes: &[u8], at: usize) -> Result<Read<T>, Refusal> {
        read_int(bytes, at)
    }

    fn write(self, buf: &mut [u8], at: usize) -> Result<usize, Refusal> {
        write_i64(self.wide(), buf, at)
    }
}

/// A width whose values are told apart by their numbers, so that what is read at it is determined: each of the nine.
pub trait DistinctVarInt: VarInt {
    ghost one: { (x y : Self) → Self.int x ≡ Self.int y → x ≡ y };
}

impl DistinctVarInt for u64 {
    ghost one = { λ x y same. ap nat_abs same };
}

impl DistinctVarInt for usize {
    ghost one = { λ x y same. ap nat_abs same };
}

impl DistinctVarInt for u32 {
    ghost one = { λ x y same. ap nat_abs same };
}

impl DistinctVarInt for u8 {
    ghost one = { λ x y same. ap nat_abs same };
}

impl<T: DistinctInteger> DistinctVarInt for T {
    ghost one = { T.one };
}
