// The instructions that move values into and between registers, and INT.

#![tactic(auto)]

ghost use Rattle.std.specs.Prelude.{◌≡◌, List, ℕ, ◌<◌, set};
ghost use Rattle.machine.specs.State.{State};
ghost use Rattle.packed.specs.Packed.{unpacked_of};
ghost use Rattle.cell.specs.Cell.{n_of, m_of, l_of, imm_of};
ghost use Rattle.effect.specs.Action.{Cpswp, Put, Split, Int};
ghost use Rattle.effect.specs.Operands.{next_of, reg, value_of};
ghost use Rattle.effect.specs.Parts.{gets, no_store};
ghost use Rattle.journal.specs.Words.{entry_with};
ghost use Rattle.journal.specs.Journal.{entered};
ghost use Rattle.carried.specs.Left.{left_of};
ghost use Rattle.carried.specs.Step.{Lent, Typed, Settled, left_in, before_in};
ghost use Rattle.moves.specs.Loaded.{loaded_of};

use carried::{Step, Told, entry_at};
use cell::{imm_of, l_of, m_of, n_of};
use half::{Extension, extend};
use journal::Entry;

// What 3 to 7 put into register n: imm as its lower or its upper half, imm alone, or imm extended.
#[derive(Clone, Copy)]
pub enum Loaded {
    Lower,
    Upper,
    Alone,
    Extended(Extension),
}

// The entry of a step that writes registers a and b; then PC moves on.
fn keep_two(step: &mut Step, a: u32, b: u32)
    requires { (a < 256) × (b < 256) }
    ensures typed { Typed step.old }
    ensures lent { Lent step.old step.new }
    ensures entry { step.new.part.now
        ≡ entered step.old.part.now (entry_with step.old.regs.now (unpacked_of step.old.settings) (gets a 0) (gets b 0) no_store 0) }
    ensures moved { step.new.regs.now ≡ set step.old.regs.now 255 (next_of step.old.regs.now) }
    ensures settled { Settled step.old step.new }
{
    let entry = Entry {
        numbers: a + 256 * b,
        a: step.regs[a as usize],
        b: step.regs[b as usize],
        uses: 3,
        ..entry_at(step.regs[255], step.settings)
    };
    step.keep(entry);
}

// 0, CPSWP: Rl gets Rn, then Rn gets Rm.
pub fn swap(step: &mut Step, cell: u32)
    ensures lent { Lent step.old step.new }
    ensures left { (host cells : List ℕ) → left_in step.new cells
        ≡ left_of step.old.told (Cpswp (n_of cell) (m_of cell) (l_of cell)) (before_in step.old host cells) }
{
    let n = n_of(cell);
    let l = l_of(cell);
    keep_two(step, n, l);
    let v = step.regs[n as usize];
    let w = step.regs[m_of(cell) as usize];
    step.regs[l as usize] = v;
    step.regs[n as usize] = w;
}

// The value that 3 to 7 make of imm and of x, which Rn reads as.
fn value_of(how: Loaded, x: u32, imm: u16) -> u32
    ensures { (s : State) (n : ℕ) → reg s n ≡ x → result ≡ value_of s (loaded_of how n imm) }
{
    match how {
        Loaded::Lower => x / 65536 * 65536 + imm as u32,
        Loaded::Upper => imm as u32 * 65536 + x % 65536,
        Loaded::Alone => imm as u32,
        Loaded::Extended(by) => extend(by, imm),
    }
}

// 3 to 7: Rn gets a value that imm makes.
pub fn load(step: &mut Step, cell: u32, how: Loaded)
    ensures lent { Lent step.old step.new }
    ensures left { (host cells : List ℕ) → left_in step.new cells
        ≡ left_of step.old.told (Put (n_of cell) (loaded_of how (n_of cell) (imm_of cell))) (before_in step.old host cells) }
{
    let n = step.keep_n(cell);
    let x = step.regs[n as usize];
    step.regs[n as usize] = value_of(how, x, imm_of(cell));
}

// 54 and 107, SPLIT and FSPLIT: Rm gets the lower half of Rn, then Rl the upper one, each extended.
pub fn split(step: &mut Step, cell: u32, by: Extension)
    ensures lent { Lent step.old step.new }
    ensures left { (host cells : List ℕ) → left_in step.new cells
        ≡ left_of step.old.told (Split by (n_of cell) (m_of cell) (l_of cell)) (before_in step.old host cells) }
{
    let m = m_of(cell);
    let l = l_of(cell);
    keep_two(step, m, l);
    let v = step.regs[n_of(cell) as usize];
    step.regs[m as usize] = extend(by, (v % 65536) as u16);
    step.regs[l as usize] = extend(by, (v / 65536) as u16);
}

// 122, INT: nothing but that it is told.
pub fn interrupt(step: &mut Step, cell: u32)
    ensures lent { Lent step.old step.new }
    ensures left { (host cells : List ℕ) → left_in step.new cells
        ≡ left_of step.old.told (Int (n_of cell) (imm_of cell)) (before_in step.old host cells) }
{
    step.move_on();
    step.told = Told::INT;
}
