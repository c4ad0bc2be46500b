// The journal: an entry is written and read here, and a step is taken back by it. No other crate knows its words.

#![tactic(auto)]

ghost use Rattle.std.specs.Prelude.{◌≡◌, cond, is_ok, not, ◌&&◌, ◌<◌, leb, ltb, length, set};
ghost use Rattle.machine.specs.State.{write_if};
ghost use Rattle.journal.specs.Words.{number_a, number_b};
ghost use Rattle.journal.specs.Journal.{entered, first_in, out_of_range, damaged_of, restored, cells_before};

use packed::Packed;

// An entry: its fields are words 0 to 7. They hold what the step found, and 0 where it had no such part.
#[derive(Clone, Copy, Default)]
pub struct Entry {
    pub pc: u32,
    pub settings: u32,
    // registers a and b: a + 256 b
    pub numbers: u32,
    pub a: u32,
    pub b: u32,
    pub address: u32,
    pub old: u32,
    // which of a, b and a stored cell there are: 1, 2 and 4, added
    pub uses: u32,
}

// An entry that no step writes.
#[derive(Clone, Copy, Debug, PartialEq, Eq)]
pub struct Damaged;

impl Entry {
    // Words of an entry.
    pub const WORDS: usize = 8;
}

// An entry goes into the part of the journal that starts at its place. Nothing is written if the part is shorter than eight words.
pub fn enter(part: &mut [u32], e: Entry)
    ensures { part.new ≡ entered part.old e }
{
    if part.len() < Entry::WORDS {
        return;
    }
    // word by word, as an entry has them: a list copied in would be no plainer
    part[0] = e.pc;
    part[1] = e.settings;
    part[2] = e.numbers;
    part[3] = e.a;
    part[4] = e.b;
    part[5] = e.address;
    part[6] = e.old;
    part[7] = e.uses;
}

// The entry at the start of a part of the journal; all 0 if the part is shorter than an entry.
pub fn entry_in(part: &[u32]) -> Entry
    ensures { result ≡ first_in part.now }
{
    if part.len() < Entry::WORDS {
        return Entry::default();
    }
    Entry {
        pc: part[0],
        settings: part[1],
        numbers: part[2],
        a: part[3],
        b: part[4],
        address: part[5],
        old: part[6],
        uses: part[7],
    }
}

// Whether PC, settings or registers are none of a machine with so many cells.
fn is_out_of_range(size: usize, e: Entry) -> bool
    ensures { result ≡ out_of_range size e }
{
    size <= e.pc as usize || Packed::BOUND <= e.settings || 65536 <= e.numbers
}

// The stored cell is put back, if it is in memory.
fn restore_cell(cells: &mut [u32], e: Entry) -> Result<(), Damaged>
    ensures within { is_ok result ≡ (leb 1 e.address && ltb e.address (length cells.old)) }
    ensures cells { cells.new ≡ write_if (is_ok result) cells.old e.address e.old }
{
    let i = e.address as usize;
    if i == 0 || cells.len() <= i {
        return Err(Damaged);
    }
    cells[i] = e.old;
    Ok(())
}

// A register is put back.
fn restore(regs: &mut [u32; 256], number: u32, value: u32)
    requires { number < 256 }
    ensures { regs.new ≡ set regs.old number value }
{
    regs[number as usize] = value;
}

// A step is taken back by its entry, but for PC and settings, which the caller sets once; or nothing is done.
pub fn take_back(regs: &mut [u32; 256], cells: &mut [u32], e: Entry) -> Result<(), Damaged>
    ensures whole { is_ok result ≡ not (damaged_of (length cells.old) e) }
    ensures restored { regs.new ≡ cond (is_ok result) (restored e regs.old) regs.old }
    ensures cells { cells.new ≡ cond (is_ok result) (cells_before e cells.old) cells.old }
{
    if is_out_of_range(cells.len(), e) {
        return Err(Damaged);
    }
    // Most entries have one register at most. In another order, or by a match, a step back takes 2 to 6 more.
    let uses = e.uses;
    if uses < 2 {
        if uses == 1 {
            restore(regs, e.numbers % 256, e.a);
        }
        return Ok(());
    }
    if 7 < uses {
        return Err(Damaged);
    }
    if 3 < uses {
        restore_cell(cells, e)?;
    }
    if uses % 2 == 1 {
        restore(regs, e.numbers % 256, e.a);
    }
    if uses / 2 % 2 == 1 {
        restore(regs, e.numbers / 256, e.b);
    }
    Ok(())
}
