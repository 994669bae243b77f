//! The first bytes of a number, read without a jump for each.
#![tactic(auto)]

ghost use Rattle.std.specs.Prelude.{◌≡◌, ◌+◌, ◌<◌, ◌≤◌, true, length, if◌then◌else◌};
ghost use Rattle.varint.specs.Inner.{Begins};

// A number after its first `read` bytes, or after fewer where it ends before: its value so far, the place past them, and whether it goes on. No `Option`: that
// would be a jump a byte.
#[derive(Clone, Copy)]
pub(crate) struct Begun {
    pub(crate) value: u64,
    pub(crate) read: u32,
    pub(crate) next: usize,
    pub(crate) more: bool,
}

// None of it is read yet.
#[tactic(auto, using(crate::proofs::Reading::begins_start))]
pub(crate) fn unread(bytes: &[u8], at: usize) -> Begun
    ensures begins { Begins bytes.now at result.read result.value result.next result.more }
    ensures read_value { result.read ≡ 0 }
    ensures more_value { result.more ≡ true }
{
    Begun {
        value: 0,
        read: 0,
        next: at,
        more: true,
    }
}

// One byte more, where the number goes on. No jump hangs on whether it does: the byte is read and, where the number has ended, left out.
fn go_on(bytes: &[u8], at: usize, s: Begun) -> Begun
    requires read_in_bounds { at + s.read < length bytes.now }
    requires read_bound { s.read < 5 }
    requires begins { Begins bytes.now at s.read s.value s.next s.more }
    ensures begins { Begins bytes.now at result.read result.value result.next result.more }
    ensures read_value { result.read ≡ s.read + 1 }
{
    let b = bytes[at + s.read as usize];
    let bits = ((b % 128) as u64).wrapping_shl(7 * s.read);
    Begun {
        value: s.value | pick(s.more, bits, 0),
        read: s.read + 1,
        next: s.next + pick(s.more, 1, 0) as usize,
        more: s.more & (128 <= b),
    }
}

// The first five bytes of a number, where there are so many; else none of it.
pub(crate) fn begin(bytes: &[u8], at: usize) -> Begun
    requires { at ≤ length bytes.now }
    ensures begins { Begins bytes.now at result.read result.value result.next result.more }
    ensures read_bound { result.read ≤ 5 }
{
    let mut s = unread(bytes, at);
    if bytes.len() - at < 5 {
        return s;
    }
    for _ in 0..5u32 {
        s = go_on(bytes, at, s);
    }
    s
}

// One of two numbers. A function of its own: an `if` in its place becomes a jump.
pub(crate) fn pick(t: bool, x: u64, y: u64) -> u64
    ensures { result ≡ (if t then x else y) }
{
    if t { x } else { y }
}
