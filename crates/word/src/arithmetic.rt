// Sums, differences and products, each with its flags read from the whole number.
ghost use Rattle.std.specs.Prelude.{◌≡◌, ◌+◌, ◌*◌, ◌<◌};
ghost use Rattle.word.specs.Word.{sum_of, difference_of, product_of};

use crate::{Flag, Written};

// The sum modulo 2^32, with carry and overflow.
pub(crate) fn sum(m: u32, l: u32, carry: u32) -> Written
    requires { carry < 2 }
    ensures { result ≡ sum_of (m + l + carry) }
{
    let whole = m as u64 + l as u64 + carry as u64;
    let value = m.wrapping_add(l).wrapping_add(carry);
    Written::governing(value, Flag::CARRY + Flag::OVERFLOW, 4294967296 <= whole)
}

// The difference modulo 2^32, with borrow and overflow read from the whole amount taken away.
pub(crate) fn difference(m: u32, l: u32, borrow: u32) -> Written
    requires { borrow < 2 }
    ensures { result ≡ difference_of m (l + borrow) }
{
    let amount = l as u64 + borrow as u64;
    let value = m.wrapping_sub(l).wrapping_sub(borrow);
    Written::governing(value, Flag::BORROW + Flag::OVERFLOW, (m as u64) < amount)
}

// The product modulo 2^32, with overflow.
pub(crate) fn product(m: u32, l: u32) -> Written
    ensures { result ≡ product_of (m * l) }
{
    let whole = m as u64 * l as u64;
    Written::governing(m.wrapping_mul(l), Flag::OVERFLOW, 4294967296 <= whole)
}
