// Sixteen bits made 32: se for integers, ex for floats.

#![tactic(auto)]

ghost use Rattle.std.specs.Prelude.{◌≡◌};
ghost use Rattle.half.specs.Half.{se_of, ex_of, extended};

// The two ways to make 32 bits of 16.
#[derive(Clone, Copy)]
pub enum Extension {
    Se,
    Ex,
}

// The sign bit copied upward.
#[tactic(auto, unfolding(crate::specs::Half::se_of))]
pub fn se(x: u16) -> u32
    ensures { result ≡ se_of x }
{
    (x.cast_signed() as i32).cast_unsigned()
}

// The single float of a half float's value; every NaN becomes the same one.
#[tactic(auto, unfolding(crate::specs::Half::ex_of))]
pub fn ex(x: u16) -> u32
    ensures { result ≡ ex_of x }
{
    let half = x as u32;
    let sign = half / 32768 * 2147483648;
    let exponent = half / 1024 % 32;
    let fraction = half % 1024;
    match (exponent, fraction) {
        (31, 0) => sign + 255 * 8388608,
        (31, _) => 0x7FC0_0000,
        (0, 0) => sign,
        (0, _) => {
            // Of 32 bits, 21 stand above the place where a leading digit is not written.
            let up = fraction.leading_zeros() - 21;
            sign + (113 - up) * 8388608 + (fraction << up) % 1024 * 8192
        }
        _ => sign + (112 + exponent) * 8388608 + fraction * 8192,
    }
}

// Sixteen bits made 32 in one of the two ways.
pub fn extend(by: Extension, x: u16) -> u32
    ensures { result ≡ extended by x }
{
    match by {
        Extension::Se => se(x),
        Extension::Ex => ex(x),
    }
}
