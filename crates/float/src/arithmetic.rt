// The sum, difference, product and quotient, by the machine's operators: a function for each, as each has its own promise.
ghost use Rattle.std.specs.Prelude.{◌≡◌, ◌&&◌};
ghost use Rattle.binary.specs.Value.{binary32, value};
ghost use Rattle.float.specs.Arithmetic.{sum, difference, product, quotient, is_finite};
ghost use Rattle.float.specs.Meaning.{Means, is_zero};

use crate::pattern::{is_finite, is_zero, operands};
use crate::result::{Outcome, tell};

// x + y.
pub(crate) fn add(x: u32, y: u32) -> Outcome
    ensures { Means result (sum x y) }
{
    match operands(x, y) {
        Some((a, b)) => tell(a + b),
        None => Outcome::Invalid,
    }
}

// x - y.
pub(crate) fn sub(x: u32, y: u32) -> Outcome
    ensures { Means result (difference x y) }
{
    match operands(x, y) {
        Some((a, b)) => tell(a - b),
        None => Outcome::Invalid,
    }
}

// x * y.
pub(crate) fn mul(x: u32, y: u32) -> Outcome
    ensures { Means result (product x y) }
{
    match operands(x, y) {
        Some((a, b)) => tell(a * b),
        None => Outcome::Invalid,
    }
}

// Whether a finite value is divided by zero.
fn by_zero(x: u32, y: u32) -> bool
    ensures { result ≡ (is_zero (value binary32 y) && is_finite (value binary32 x)) }
{
    is_zero(y) && is_finite(x)
}

// x / y, told apart where it is by zero.
pub(crate) fn div(x: u32, y: u32) -> Outcome
    ensures { Means result (quotient x y) }
{
    let Some((a, b)) = operands(x, y) else {
        return Outcome::Invalid;
    };
    let r = a / b;
    if r.is_nan() {
        Outcome::Invalid
    } else if by_zero(x, y) {
        Outcome::ByZero(r)
    } else {
        Outcome::Value(r)
    }
}
