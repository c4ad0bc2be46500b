// What a float operation does with two 32-bit operand values: the value that it writes, the flags that it governs, and those of them
// that it writes as 1. The machine's own floats do the arithmetic.

#![tactic(auto)]

ghost use Rattle.std.specs.Prelude.{◌≡◌};
ghost use Rattle.float.specs.Float.{calculated_of};

mod arithmetic;
mod compare;
mod pattern;
mod result;

use arithmetic::{add, div, mul, sub};
use compare::{equal, greater};
use result::written;
use word::Written;

// The operations, in the order of their opcodes 80 to 83, 89 and 90.
#[derive(Clone, Copy)]
pub enum FloatOp {
    Add,
    Sub,
    Mul,
    Div,
    Gt,
    Eq,
}

// What an operation writes, from its operands x and y.
#[tactic(auto, unfolding(crate::specs::Float::calculated_of))]
pub fn calculate(op: FloatOp, x: u32, y: u32) -> Written
    ensures { result ≡ calculated_of op x y }
{
    match op {
        FloatOp::Add => written(x, y, add(x, y)),
        FloatOp::Sub => written(x, y, sub(x, y)),
        FloatOp::Mul => written(x, y, mul(x, y)),
        FloatOp::Div => written(x, y, div(x, y)),
        FloatOp::Gt => greater(x, y),
        FloatOp::Eq => equal(x, y),
    }
}
