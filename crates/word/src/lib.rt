// What an operation does with two 32-bit operand values: the value that it writes, the flags that it governs, and those of them
// that it writes as 1.

#![tactic(auto)]

ghost use Rattle.std.specs.Prelude.{◌≡◌, not, is_some, unwrap_or};
ghost use Rattle.word.specs.Word.{plain_of, when, written_of};

mod arithmetic;
mod signed;

use arithmetic::{difference, product, sum};
use signed::{quotient, shifted};

// The machine's flags, a bit each: constants, the form that document 01 names.
#[derive(Clone, Copy)]
pub struct Flag;

impl Flag {
    pub const CARRY: u32 = 1;

    pub const BORROW: u32 = 2;

    pub const OVERFLOW: u32 = 4;

    pub const UNDERFLOW: u32 = 8;

    pub const DIVIDE_BY_ZERO: u32 = 16;

    pub const FLOAT_INVALID: u32 = 32;

    pub const INEXACT: u32 = 64;

    pub const ILLEGAL: u32 = 128;

    pub const TERMINATION: u32 = 256;
}

// The operations, in the order of their opcodes 16 to 34.
#[derive(Clone, Copy)]
pub enum Op {
    Add,
    Adc,
    Sub,
    Sbb,
    Mul,
    Udiv,
    Sdiv,
    Mod,
    And,
    Or,
    Xor,
    Nand,
    Lnand,
    Lsh,
    Ursh,
    Srsh,
    Ugt,
    Sgt,
    Eq,
}

// What an operation writes: its value, the flags that it governs, and those of them that become 1.
#[derive(Clone, Copy)]
pub struct Written {
    pub value: u32,
    pub governed: u32,
    pub raised: u32,
}

impl Written {
    // A value, with no flag governed.
    pub fn plain(value: u32) -> Written
        ensures { result ≡ plain_of value }
    {
        Written {
            value,
            governed: 0,
            raised: 0,
        }
    }

    // A value, and flags that are all written as 1 or all as 0.
    pub fn governing(value: u32, governed: u32, raises: bool) -> Written
        ensures { result ≡ record { value = value; governed = governed; raised = when raises governed } }
    {
        Written {
            value,
            governed,
            raised: if raises { governed } else { 0 },
        }
    }

    // A value, or where there is none another in its place and the flag that says so.
    fn value_or(value: Option<u32>, other: u32, flag: u32) -> Written
        ensures { result ≡ record { value = unwrap_or value other; governed = flag; raised = when (not (is_some value)) flag } }
    {
        Written::governing(value.unwrap_or(other), flag, value.is_none())
    }
}

// What an operation writes, from its operands m and l, the old Rn and the flags.
#[tactic(auto, unfolding(crate::specs::Word::written_of))]
pub fn operate(op: Op, m: u32, l: u32, n: u32, flags: u32) -> Written
    ensures { result ≡ written_of op m l n flags }
{
    match op {
        Op::Add => sum(m, l, 0),
        Op::Adc => sum(m, l, flags % 2),
        Op::Sub => difference(m, l, 0),
        Op::Sbb => difference(m, l, flags / 2 % 2),
        Op::Mul => product(m, l),
        Op::Udiv => Written::value_or(m.checked_div(l), n, Flag::DIVIDE_BY_ZERO),
        Op::Sdiv => quotient(m, l, n),
        Op::Mod => Written::value_or(m.checked_rem(l), n, Flag::DIVIDE_BY_ZERO),
        Op::And => Written::plain(m & l),
        Op::Or => Written::plain(m | l),
        Op::Xor => Written::plain(m ^ l),
        Op::Nand => Written::plain(!(m & l)),
        Op::Lnand => Written::plain((m == 0 || l == 0) as u32),
        Op::Lsh => Written::value_or(m.checked_shl(l), 0, Flag::OVERFLOW),
        Op::Ursh => Written::value_or(m.checked_shr(l), 0, Flag::UNDERFLOW),
        Op::Srsh => shifted(m, l),
        Op::Ugt => Written::plain((l < m) as u32),
        Op::Sgt => Written::plain((l.cast_signed() < m.cast_signed()) as u32),
        Op::Eq => Written::plain((m == l) as u32),
    }
}
