// What kind of value a pattern stands for.
ghost use Rattle.std.specs.Prelude.{◌≡◌, ◌||◌};
ghost use Rattle.binary.specs.Value.{binary32, value};
ghost use Rattle.float.specs.Arithmetic.{is_finite};
ghost use Rattle.float.specs.Compare.{is_nan};
ghost use Rattle.float.specs.Meaning.{is_zero, Operands};

// Above infinity, without the sign, stand the NaNs. Told by the bits, since f32::from_bits takes none of them.
fn is_nan(x: u32) -> bool
    ensures { result ≡ is_nan (value binary32 x) }
{
    x % 0x8000_0000 > 0x7F80_0000
}

// Whether an operand is a NaN.
fn either_nan(x: u32, y: u32) -> bool
    ensures { result ≡ (is_nan (value binary32 x) || is_nan (value binary32 y)) }
{
    is_nan(x) || is_nan(y)
}

// The operands as floats, where none is a NaN: a NaN's pattern is made no float.
pub(crate) fn operands(x: u32, y: u32) -> Option<(f32, f32)>
    ensures { Operands x y result }
{
    if either_nan(x, y) {
        None
    } else {
        Some((f32::from_bits(x), f32::from_bits(y)))
    }
}

// An exponent of ones is infinity or a NaN.
pub(crate) fn is_finite(x: u32) -> bool
    ensures { result ≡ is_finite (value binary32 x) }
{
    x % 0x8000_0000 / 0x80_0000 != 255
}

// Either zero.
pub(crate) fn is_zero(x: u32) -> bool
    ensures { result ≡ is_zero (value binary32 x) }
{
    x % 0x8000_0000 == 0
}
