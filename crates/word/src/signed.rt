// What reads its operands as signed numbers, in the form of the signed division and shift on i32.
ghost use Rattle.std.specs.Prelude.{◌≡◌};
ghost use Rattle.word.specs.Word.{sdiv_of, shift_of, srsh_by, underflow};

use crate::{Flag, Written};

// The signed quotient, cut toward zero; by zero n is kept. The least number by -1 is the one quotient that 32 bits do not hold.
// It raises one of the two flags that it governs, so that no constructor fits.
pub(crate) fn quotient(m: u32, l: u32, n: u32) -> Written
    ensures { result ≡ sdiv_of m l n }
{
    let governed = Flag::DIVIDE_BY_ZERO + Flag::OVERFLOW;
    if l == 0 {
        return Written {
            value: n,
            governed,
            raised: Flag::DIVIDE_BY_ZERO,
        };
    }
    match m.cast_signed().checked_div(l.cast_signed()) {
        Some(q) => Written {
            value: q.cast_unsigned(),
            governed,
            raised: 0,
        },
        None => Written {
            value: m,
            governed,
            raised: Flag::OVERFLOW,
        },
    }
}

// m shifted to the right as a signed number; above 31 all bits are the sign bit.
pub(crate) fn shifted(m: u32, l: u32) -> Written
    ensures { result ≡ shift_of srsh_by underflow m l }
{
    let z = m.cast_signed() >> l.min(31);
    Written::governing(z.cast_unsigned(), Flag::UNDERFLOW, 31 < l)
}
