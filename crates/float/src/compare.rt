// The comparisons, by the machine's operators.
ghost use Rattle.std.specs.Prelude.{◌≡◌};
ghost use Rattle.float.specs.Float.{greater_of, equal_of};

use crate::pattern::operands;
use word::{Flag, Written};

// Whether x is greater than y; flag 32 says that one is a NaN.
pub(crate) fn greater(x: u32, y: u32) -> Written
    ensures { result ≡ greater_of x y }
{
    match operands(x, y) {
        Some((a, b)) => Written::governing((b < a) as u32, Flag::FLOAT_INVALID, false),
        None => Written::governing(0, Flag::FLOAT_INVALID, true),
    }
}

// Whether x equals y.
pub(crate) fn equal(x: u32, y: u32) -> Written
    ensures { result ≡ equal_of x y }
{
    match operands(x, y) {
        Some((a, b)) => Written::plain((a == b) as u32),
        None => Written::plain(0),
    }
}
