//! A vector's bytes.
#![tactic(auto)]

ghost use Rattle.std.specs.Prelude.{◌≡◌, ◌+◌, ◌≤◌, length};
ghost use Rattle.tables.specs.Answers.{Says};
ghost use Rattle.varint.specs.Answer.{wrote};
ghost use Rattle.varint.specs.Number.{bytes_of, write_at};
ghost use Rattle.state_vector.specs.Vectors.{held, rows};
ghost use Rattle.state_vector.specs.Bytes.{row_bytes, encoded, Encoded};
ghost use Rattle.state_vector.specs.Lent.{lent};
ghost use Rattle.state_vector.specs.Inner.{Puts};

use crate::vector::Vector;
use varint::Refusal;

/// Writes the bytes of a vector at a place of the buffer: the place past them. After the `Encode` of yrs.
///
/// # Errors
/// [`Refusal::Malformed`] where the first `count` rows are no vector, and then [`Refusal::Full`] where its bytes do not fit from the place
/// on. The buffer stays as it was.
pub fn encode(
    clients: &[u64],
    clocks: &[u32],
    count: usize,
    buf: &mut [u8],
    at: usize,
) -> Result<usize, Refusal>
    ensures { Encoded (held clients.now clocks.now count) buf.old at result buf.new }
{
    Vector::checked(clients, clocks, count)?.encode(buf, at)
}

// No vector has more bytes: a count of two, and 256 rows of fifteen.
const MOST_BYTES: usize = 3842;

impl<'a> Vector<'a> {
    /// Writes its bytes at a place of the buffer: the place past them. They are at most 3,842.
    ///
    /// # Errors
    /// [`Refusal::Full`] where they do not fit from the place on. The buffer stays as it was.
    pub fn encode(self, buf: &mut [u8], at: usize) -> Result<usize, Refusal>
        ensures { wrote at result buf.new ≡ write_at (encoded (rows (lent self.entry))) buf.old at }
    {
        if !self.has_room(buf.len(), at) {
            return Err(Refusal::Full);
        }
        Ok(self.write(buf, at))
    }

    // Whether its bytes fit from a place on, in a buffer of a length. Where the most would fit, none are counted.
    fn has_room(self, len: usize, at: usize) -> bool
        ensures { Says (at + length (encoded (rows (lent self.entry))) ≤ len) result }
    {
        if len < at {
            return false;
        }
        if MOST_BYTES <= len - at {
            return true;
        }
        if len - at < self.encoded_len() {
            return false;
        }
        true
    }

    // How many bytes it takes.
    fn encoded_len(self) -> usize
        ensures { result ≡ length (encoded (rows (lent self.entry))) }
    {
        let mut sum = varint::length_u64(self.count as u64);
        for i in 0..self.count {
            let c = varint::length_u64(self.clients[i]);
            let k = varint::length_u32(self.clocks[i]);
            sum += c + k;
        }
        sum
    }

    // Its bytes where they fit.
    fn write(self, buf: &mut [u8], at: usize) -> usize
        requires { at + length (encoded (rows (lent self))) ≤ length buf.old }
        ensures { Puts (encoded (rows (lent self.entry))) buf.old at buf.new result }
    {
        let next = write_number(self.count as u64, buf, at);
        self.write_pairs(buf, next)
    }

    // The bytes of its clients and clocks.
    fn write_pairs(self, buf: &mut [u8], at: usize) -> usize
        requires { at + length (row_bytes (rows (lent self))) ≤ length buf.old }
        ensures { Puts (row_bytes (rows (lent self.entry))) buf.old at buf.new result }
    {
        let mut next = at;
        for i in 0..self.count {
            let c = self.clients[i];
            let k = self.clocks[i] as u64;
            next = write_number(c, buf, next);
            next = write_number(k, buf, next);
        }
        next
    }
}

// A number's bytes where they fit.
fn write_number(value: u64, buf: &mut [u8], at: usize) -> usize
    requires { at + length (bytes_of value) ≤ length buf.old }
    ensures { Puts (bytes_of value) buf.old at buf.new result }
{
    varint::write_var_u64(value, buf, at).unwrap_or(at)
}
