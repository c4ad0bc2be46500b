// An instruction carried out over what is lent to it: registers, a word of settings and the part of the journal that its entry goes into. What it
// leaves is defined here, with what they share: the next PC, an operand, a pointer's fault, and the steps of most of them, which write their entry
// first, then PC.

#![tactic(auto)]

ghost use Rattle.std.specs.Prelude.{◌≡◌, ℕ, ◌+◌, ◌%◌, ◌^◌, ◌<◌, List, length, get_or, set, if◌then◌else◌, nat_eq, slice_set};
ghost use Rattle.cell.specs.Cell.{n_of};
ghost use Rattle.effect.specs.Action.{Illegal};
ghost use Rattle.effect.specs.Operands.{next_of, operand_of};
ghost use Rattle.effect.specs.Parts.{no_write, no_store, gets, flags_of};
ghost use Rattle.effect.specs.Refusal.{faults};
ghost use Rattle.packed.specs.Packed.{unpacked_of};
ghost use Rattle.journal.specs.Words.{entry_with};
ghost use Rattle.journal.specs.Journal.{entered};
ghost use Rattle.carried.specs.Left.{left_of};
ghost use Rattle.carried.specs.Step.{Lent, Typed, Settled, left_in, before_in};

use cell::n_of;
use journal::{Entry, enter};
use machine::{Address, Settings};
use word::{Flag, Written};

// What is told of a step that does not simply go on: the flags that it raised, all below INT, or one of these. An enum of them took 1.0 more on
// `turn` and 2.6 on `clinical`, and `stopped` promises what it does for every number.
#[derive(Clone, Copy)]
pub struct Told;

impl Told {
    pub const INT: u32 = Settings::FLAGS_BOUND;

    pub const FAULT: u32 = 2 * Settings::FLAGS_BOUND;

    pub const FLOAT: u32 = 4 * Settings::FLAGS_BOUND;

    pub const WILD: u32 = 8 * Settings::FLAGS_BOUND;
}

// What is lent to a step: the part of the journal for its entry, the registers, settings as one word, and what is told. Registers that it owned
// would take 2.5 more on `scrub`.
#[derive(Drop)]
pub struct Step<'a> {
    pub part: &'a mut [u32],
    pub regs: &'a mut [u32; 256],
    pub settings: u32,
    pub told: u32,
}

impl Step<'_> {
    // PC moves on, and an entry is written.
    pub fn keep(&mut self, entry: Entry)
        ensures long { length self.old.regs.now ≡ 256 }
        ensures lent { Lent self.old self.new }
        ensures entry { self.new.part.now ≡ entered self.old.part.now entry }
        ensures moved { self.new.regs.now ≡ set self.old.regs.now 255 (next_of self.old.regs.now) }
        ensures settled { Settled self.old self.new }
    {
        advance(self.regs);
        enter(self.part, entry);
    }

    // The entry of a step that writes no register and stores to no cell; then PC moves on.
    pub fn move_on(&mut self)
        ensures typed { Typed self.old }
        ensures lent { Lent self.old self.new }
        ensures entry { self.new.part.now
            ≡ entered self.old.part.now (entry_with self.old.regs.now (unpacked_of self.old.settings) no_write no_write no_store 0) }
        ensures moved { self.new.regs.now ≡ set self.old.regs.now 255 (next_of self.old.regs.now) }
        ensures settled { Settled self.old self.new }
    {
        let entry = entry_at(self.regs[255], self.settings);
        self.keep(entry);
    }

    // The entry of a step that writes register n, which is the answer; then PC moves on.
    pub fn keep_n(&mut self, cell: u32) -> u32
        ensures number { (result ≡ n_of cell) × (result < 256) }
        ensures typed { Typed self.old }
        ensures lent { Lent self.old self.new }
        ensures entry { self.new.part.now
            ≡ entered self.old.part.now (entry_with self.old.regs.now (unpacked_of self.old.settings) (gets (n_of cell) 0) no_write no_store 0) }
        ensures moved { self.new.regs.now ≡ set self.old.regs.now 255 (next_of self.old.regs.now) }
        ensures settled { Settled self.old self.new }
    {
        let n = n_of(cell);
        let i = n as usize;
        let entry = Entry {
            numbers: n,
            a: self.regs[i],
            uses: 1,
            ..entry_at(self.regs[255], self.settings)
        };
        self.keep(entry);
        n
    }

    // Register n, taken modulo 256, gets what an operation wrote, and the flags too. A flag that is raised is told.
    #[tactic(auto, unfolding(effect::specs::Parts::flags_of))]
    pub fn put(&mut self, n: u32, w: Written)
        ensures lent { Lent self.old self.new }
        ensures part { self.new.part.now ≡ self.old.part.now }
        ensures wrote { self.new.regs.now ≡ slice_set self.old.regs.now (n % 256) w.value }
        ensures settled { self.new.settings ≡ flags_of self.old.settings w.governed w.raised }
        ensures told { self.new.told ≡ (if nat_eq w.raised 0 then self.old.told else w.raised) }
    {
        let i = (n % 256) as usize;
        self.regs[i] = w.value;
        self.settings = (self.settings & !w.governed) | w.raised;
        if w.raised != 0 {
            self.told = w.raised;
        }
    }

    // Nothing is done but that a refusal is told. Settings are read so that their range is known.
    pub fn refuse(&mut self, told: u32)
        ensures small { self.old.settings < 2 ^ 32 }
        ensures lent { Lent self.old self.new }
        ensures regs { self.new.regs.now ≡ self.old.regs.now }
        ensures part { self.new.part.now ≡ self.old.part.now }
        ensures settings { self.new.settings ≡ self.old.settings }
        ensures told { self.new.told ≡ told }
    {
        let _settings = self.settings;
        self.told = told;
    }

    // A reserved opcode, or an LDST at an address that it does not know: flag 128 is set, and nothing else is done.
    pub fn illegal(&mut self)
        ensures lent { Lent self.old self.new }
        ensures left { (host cells : List ℕ) → left_in self.new cells ≡ left_of self.old.told Illegal (before_in self.old host cells) }
    {
        self.move_on();
        self.told = Flag::ILLEGAL;
        self.settings |= Flag::ILLEGAL;
    }
}

// The entry of a step that found this PC and these settings, and writes no register and stores to no cell.
pub fn entry_at(pc: u32, settings: u32) -> Entry
    ensures { result ≡ record { pc = pc; settings = settings; numbers = 0; a = 0; b = 0; address = 0; old = 0; uses = 0 } }
{
    Entry {
        pc,
        settings,
        numbers: 0,
        a: 0,
        b: 0,
        address: 0,
        old: 0,
        uses: 0,
    }
}

// The PC after one that is at pc.
pub fn next_of(pc: u32) -> u32
    ensures { result ≡ (pc + 1) % 4294967296 }
{
    pc.wrapping_add(1)
}

// PC moves on; the answer is what it was.
pub fn advance(regs: &mut [u32; 256]) -> u32
    ensures long { length regs.old ≡ 256 }
    ensures was { result ≡ get_or regs.old 255 0 }
    ensures moved { regs.new ≡ set regs.old 255 (next_of regs.old) }
{
    let pc = regs[255];
    regs[255] = next_of(pc);
    pc
}

// A register's value as an operand, its number taken modulo 256; register 255 is the next PC.
pub fn operand(regs: &[u32; 256], i: u32) -> u32
    ensures { result ≡ operand_of regs.now (i % 256) }
{
    let k = i % 256;
    if k == 255 {
        return next_of(regs[255]);
    }
    regs[k as usize]
}

// Whether a pointer is past the cells and below the special addresses. With && in place of & here, and || in place of | in `ldst` and
// `calculation`, a step takes 1 to 3 more.
pub fn is_fault(size: usize, p: u32) -> bool
    ensures { result ≡ faults size p }
{
    (size <= p as usize) & (p < Address::FLAGS)
}
