// An operation's outcome, and what is written of it.
ghost use Rattle.std.specs.Prelude.{◌≡◌};
ghost use Rattle.float.specs.Arithmetic.{float, bits_of, flags_of};
ghost use Rattle.float.specs.Float.{outcome_of};
ghost use Rattle.float.specs.Meaning.{told, meaning, Real, Means};

use crate::pattern::is_finite;
use word::{Flag, Written};

// A float value, a float value from a division by zero, or an invalid operation: the form that document 01 names.
#[derive(Clone, Copy)]
pub(crate) enum Outcome {
    Value(f32),
    ByZero(f32),
    Invalid,
}

// The outcome of an operation that gave r.
pub(crate) fn tell(r: f32) -> Outcome
    ensures { Means result (told r) }
{
    if r.is_nan() {
        Outcome::Invalid
    } else {
        Outcome::Value(r)
    }
}

// The bits of an outcome; every NaN has the same.
#[tactic(auto, unfolding(crate::specs::Arithmetic::bits_of, crate::specs::Meaning::meaning, crate::specs::Meaning::Real))]
fn bits(o: Outcome) -> u32
    requires { Real o }
    ensures { result ≡ bits_of (meaning o) }
{
    match o {
        Outcome::Value(v) | Outcome::ByZero(v) => v.to_bits(),
        Outcome::Invalid => 0x7FC0_0000,
    }
}

// The flag of a value with the bits b: finite operands and an infinite result are an overflow.
#[tactic(auto, unfolding(crate::specs::Arithmetic::flags_of))]
fn overflow(x: u32, y: u32, b: u32) -> u32
    ensures { result ≡ flags_of x y (float b) }
{
    // the result is looked at first: with all in one test a float costs 5 more
    if is_finite(b) {
        return 0;
    }
    if is_finite(x) && is_finite(y) {
        return Flag::OVERFLOW;
    }
    0
}

// The flag that an outcome of x and y raises, if any.
#[tactic(auto, unfolding(crate::specs::Arithmetic::flags_of, crate::specs::Meaning::meaning, crate::specs::Meaning::Real))]
fn flags(x: u32, y: u32, o: Outcome) -> u32
    requires { Real o }
    ensures { result ≡ flags_of x y (meaning o) }
{
    match o {
        Outcome::Value(v) => overflow(x, y, v.to_bits()),
        Outcome::ByZero(_) => Flag::DIVIDE_BY_ZERO,
        Outcome::Invalid => Flag::FLOAT_INVALID,
    }
}

// What is written of the outcome of an operation on x and y.
pub(crate) fn written(x: u32, y: u32, o: Outcome) -> Written
    requires { Real o }
    ensures { result ≡ outcome_of x y (meaning o) }
{
    Written {
        value: bits(o),
        governed: Flag::FLOAT_INVALID + Flag::DIVIDE_BY_ZERO + Flag::OVERFLOW,
        raised: flags(x, y, o),
    }
}
