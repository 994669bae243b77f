//! How two vectors compare.
#![tactic(auto)]

ghost use Rattle.std.specs.Prelude.{◌≡◌, ◌≤◌, length};
ghost use Rattle.state_vector.specs.Rows.{Compare};
ghost use Rattle.state_vector.specs.Vectors.{held, rows, Compared};
ghost use Rattle.state_vector.specs.Lent.{lent};
ghost use Rattle.state_vector.specs.Inner.{Firsts, element, Nulls, any_less, Unders, judged};

use crate::unite::passed;
use crate::vector::Vector;
use std::cmp::Ordering;
use varint::Refusal;

/// How two vectors compare: client by client, where absent reads as 0, and `None` where neither is below the other. After `partial_cmp` of
/// yrs.
///
/// # Errors
/// [`Refusal::Malformed`] where the first rows of either side are no vector.
pub fn partial_cmp(
    clients: &[u64],
    clocks: &[u32],
    count: usize,
    b_clients: &[u64],
    b_clocks: &[u32],
    b_count: usize,
) -> Result<Option<Ordering>, Refusal>
    ensures { Compared (held clients.now clocks.now count) (held b_clients.now b_clocks.now b_count) result }
{
    let a = Vector::checked(clients, clocks, count)?;
    let b = Vector::checked(b_clients, b_clocks, b_count)?;
    Ok(a.partial_cmp(b))
}

impl<'a> Vector<'a> {
    /// How it compares to another one: client by client, where absent reads as 0, and `None` where neither is below the other.
    ///
    /// Where the first clients are the same, it goes by columns; then it is a client a step.
    pub fn partial_cmp(self, other: Vector<'_>) -> Option<Ordering>
        ensures { Compare (rows (lent self.entry)) (rows (lent other.entry)) result }
    {
        let front = self.same_front(other);
        let mut i = front;
        let mut j = front;
        let mut less = any_less(self.clocks, other.clocks, front);
        let mut greater = any_less(other.clocks, self.clocks, front);
        // No `for`: two indices, of which either moves or stays by the clients.
        while i < self.count {
            if other.count <= j {
                return verdict(less, greater | self.any_from(i));
            }
            let p = self.clients[i];
            let q = other.clients[j];
            let u = self.clocks[i];
            let v = other.clocks[j];
            less = less | under(p, u, q, v);
            greater = greater | under(q, v, p, u);
            let x = p.min(q);
            i = passed(i, p, x);
            j = passed(j, q, x);
        }
        verdict(less | other.any_from(j), greater)
    }

    /// How many rows in front have the same clients as those of another one.
    #[inline(always)]
    pub(crate) fn same_front(self, other: Vector<'_>) -> usize
        ensures left { result ≤ self.entry.count }
        ensures right { result ≤ other.entry.count }
        ensures same { Firsts result (element self.entry.clients.now) other.entry.clients.now }
    {
        let n = self.count.min(other.count);
        for i in 0..n {
            if self.clients[i] != other.clients[i] {
                return i;
            }
        }
        n
    }

    // Whether a clock from a row on is above 0.
    #[inline(always)]
    fn any_from(self, from: usize) -> bool
        requires { from ≤ self.count }
        ensures { Nulls self.entry.clocks.now from self.entry.count result }
    {
        let mut found = false;
        for i in from..self.count {
            found = found | (0 < self.clocks[i]);
        }
        found
    }
}

// Whether one of the first n clocks is less on the left.
fn any_less(clocks: &[u32], b_clocks: &[u32], n: usize) -> bool
    requires { (n ≤ length clocks.now) × (n ≤ length b_clocks.now) }
    ensures { result ≡ any_less clocks.now b_clocks.now n }
{
    let mut found = false;
    for i in 0..n {
        found = found | (clocks[i] < b_clocks[i]);
    }
    found
}

// Whether the next client's clock is less on the left, where rows (p, u) and (q, v) are next.
fn under(p: u64, u: u32, q: u64, v: u32) -> bool
    ensures { Unders p u q v result }
{
    ((q < p) & (0 < v)) | ((p == q) & (u < v))
}

// The verdict, where some clock is less and some clock is greater.
fn verdict(less: bool, greater: bool) -> Option<Ordering>
    ensures { result ≡ judged less greater }
{
    match (less, greater) {
        (true, true) => None,
        (true, false) => Some(Ordering::Less),
        (false, true) => Some(Ordering::Greater),
        (false, false) => Some(Ordering::Equal),
    }
}
