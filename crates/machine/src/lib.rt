// The machine by value, 256 registers, settings, depth and the host's words; what a call can say; what is asked of M, settings and journal.

#![tactic(auto)]

ghost use Rattle.std.specs.Prelude.{◌≡◌, not};
ghost use Rattle.machine.specs.State.{fresh_machine, bad_cells, bad_settings, entries_in};
ghost use Rattle.machine.specs.Stops.{said_of};

// The addresses from 0xFFFF0000 on that LDST knows. A PC there or above has ended.
#[derive(Clone, Copy)]
pub struct Address;

impl Address {
    pub const FLAGS: u32 = 0xFFFF0000;

    pub const MASK: u32 = 0xFFFF0001;

    pub const MODE: u32 = 0xFFFF0002;

    // The first and the last of the host's words.
    pub const HOST: u32 = 0xFFFF0300;

    pub const HOST_LAST: u32 = 0xFFFF0304;
}

// The flags, the trap mask and the rounding mode.
#[derive(Clone, Copy, PartialEq, Eq)]
pub struct Settings {
    pub flags: u32,
    pub mask: u32,
    pub mode: u32,
}

impl Settings {
    // Flags and mask are below the first, the mode below the second.
    pub const FLAGS_BOUND: u32 = 512;

    pub const MODE_BOUND: u32 = 4;
}

#[derive(Clone, Copy)]
pub struct Machine {
    pub regs: [u32; 256],
    pub settings: Settings,
    pub depth: u32,
    pub host: [u32; 5],
}

impl Machine {
    // M is 1 to the first; J is at most the second.
    pub const MOST_CELLS: usize = 16384;

    pub const MOST_ENTRIES: u32 = 65536;

    // All is 0, but for rounding mode 3.
    #[tactic(auto, unfolding(crate::specs::State::fresh_machine))]
    pub fn fresh() -> Self
        ensures { result ≡ fresh_machine }
    {
        Machine {
            regs: [0u32; 256],
            settings: Settings {
                flags: 0,
                mask: 0,
                mode: 3,
            },
            depth: 0,
            host: [0u32; 5],
        }
    }
}

// A run, by its own name and no `Option`, as the definitions take it: plain, or of the profile that only goes forward, whose code is so many cells from cell 0 on.
#[derive(Clone, Copy)]
pub enum Kind {
    Plain,
    Profile(usize),
}

// Why a call stopped, in the order of the stops' numbers: 0 to 13, 60 to 62.
#[derive(Clone, Copy, Debug, PartialEq, Eq)]
pub enum Stop {
    Done,
    Ended,
    Trap,
    Int { value: u32, imm: u16 },
    Fetch,
    Fault,
    Float,
    Full,
    Start,
    Damaged,
    Unsettled,
    Deep,
    Cells,
    Wild,
    Barred { place: usize },
    Overwrite,
    Outside,
}

impl Stop {
    // A stop's number: a method, as the documents speak of it; a `From` would be no plainer.
    pub fn number(self) -> u64
        ensures { result ≡ (said_of self).number }
    {
        match self {
            Stop::Done => 0,
            Stop::Ended => 1,
            Stop::Trap => 2,
            Stop::Int { value: _, imm: _ } => 3,
            Stop::Fetch => 4,
            Stop::Fault => 5,
            Stop::Float => 6,
            Stop::Full => 7,
            Stop::Start => 8,
            Stop::Damaged => 9,
            Stop::Unsettled => 10,
            Stop::Deep => 11,
            Stop::Cells => 12,
            Stop::Wild => 13,
            Stop::Barred { place: _ } => 60,
            Stop::Overwrite => 61,
            Stop::Outside => 62,
        }
    }
}

// Whether there can be so many cells.
pub fn good_cells(m: usize) -> bool
    ensures { result ≡ not (bad_cells m) }
{
    0 < m && m <= Machine::MOST_CELLS
}

// Whether settings are in range.
pub fn good_settings(s: Settings) -> bool
    ensures { result ≡ not (bad_settings s) }
{
    s.flags < Settings::FLAGS_BOUND
        && s.mask < Settings::FLAGS_BOUND
        && s.mode < Settings::MODE_BOUND
}

// J of a journal of so many words.
#[tactic(auto, unfolding(crate::specs::State::entries_in))]
pub fn capacity(words: usize) -> u32
    ensures { result ≡ entries_in words }
{
    (words / 8).min(Machine::MOST_ENTRIES as usize) as u32
}

// A word as an index of cells. It stays a function, since what it promises has edits of its own.
pub fn index_of(x: u32) -> usize
    ensures { result ≡ x }
{
    x as usize
}
