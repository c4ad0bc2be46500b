// Settings as one word, as word 1 of an entry has them: the flags lowest, then the mask, then the mode.

#![tactic(auto, unfolding(crate::specs::Packed::packed_of, crate::specs::Packed::unpacked_of))]

ghost use Rattle.std.specs.Prelude.{◌≡◌};
ghost use Rattle.packed.specs.Packed.{packed_of, unpacked_of};

use machine::Settings;

const MODE_UNIT: u32 = Settings::FLAGS_BOUND * Settings::FLAGS_BOUND;

// A word of settings.
#[derive(Clone, Copy)]
pub struct Packed;

impl Packed {
    // Of settings in range it is below this.
    pub const BOUND: u32 = MODE_UNIT * Settings::MODE_BOUND;
}

// The word that settings make. The sum is the definition's, in 64 bits: five wrapping operations would say it less plainly.
pub fn pack(s: Settings) -> u32
    ensures { result ≡ packed_of s }
{
    let sum = s.flags as u64
        + Settings::FLAGS_BOUND as u64 * (s.mask as u64)
        + MODE_UNIT as u64 * (s.mode as u64);
    (sum % 4294967296) as u32
}

// The settings that a word stands for.
pub fn unpack(s: u32) -> Settings
    ensures { result ≡ unpacked_of s }
{
    Settings {
        flags: s % Settings::FLAGS_BOUND,
        mask: s / Settings::FLAGS_BOUND % Settings::FLAGS_BOUND,
        mode: s / MODE_UNIT,
    }
}

// The flags of a word.
pub fn flags_of(s: u32) -> u32
    ensures { result ≡ (unpacked_of s).flags }
{
    s % Settings::FLAGS_BOUND
}

// The rounding mode of a word.
pub fn mode_of(s: u32) -> u32
    ensures { result ≡ (unpacked_of s).mode }
{
    s / MODE_UNIT
}
