// Opcodes 16 to 53: register n gets what an operation makes of two values, with its flags.

#![tactic(auto)]

ghost use Rattle.std.specs.Prelude.{◌≡◌, List, ℕ, ◌<◌, get_or};
ghost use Rattle.half.specs.declared.Extension.TheVariants.{Se};
ghost use Rattle.word.specs.Word.{written_of};
ghost use Rattle.cell.specs.Cell.{n_of, m_of, l_of, imm_of};
ghost use Rattle.effect.specs.Action.{R, Extended, Operate};
ghost use Rattle.carried.specs.Left.{left_of};
ghost use Rattle.carried.specs.Operated.{Operated};
ghost use Rattle.carried.specs.Step.{Lent, left_in, before_in};
ghost use Rattle.packed.specs.Packed.{unpacked_of};

use carried::Step;
use cell::{imm_of, l_of, m_of};
use half::se;
use packed::flags_of;
use word::{Op, operate};

// Register n gets what an operation makes of x and y; it also sees the old Rn and the flags.
fn finish(step: &mut Step, n: u32, op: Op, x: u32, y: u32)
    requires { n < 256 }
    ensures lent { Lent step.old step.new }
    ensures part { step.new.part.now ≡ step.old.part.now }
    ensures operated { Operated (written_of op x y (get_or step.old.regs.now n 0) (unpacked_of step.old.settings).flags) n
        step.old.settings step.old.regs.now step.new.regs.now step.old.told step.new.told step.new.settings }
{
    let old = step.regs[n as usize];
    step.put(n, operate(op, x, y, old, flags_of(step.settings)));
}

// 16 to 34: Rm and Rl. This and the two below each name their own two values and share the rest, `finish`.
pub fn registers(step: &mut Step, cell: u32, op: Op)
    ensures lent { Lent step.old step.new }
    ensures left { (host cells : List ℕ) → left_in step.new cells
        ≡ left_of step.old.told (Operate op (n_of cell) (R (m_of cell)) (R (l_of cell))) (before_in step.old host cells) }
{
    let n = step.keep_n(cell);
    let x = step.regs[m_of(cell) as usize];
    let y = step.regs[l_of(cell) as usize];
    finish(step, n, op, x, y);
}

// 35 to 51: Rn and se(imm).
pub fn immediate(step: &mut Step, cell: u32, op: Op)
    ensures lent { Lent step.old step.new }
    ensures left { (host cells : List ℕ) → left_in step.new cells
        ≡ left_of step.old.told (Operate op (n_of cell) (R (n_of cell)) (Extended Se (imm_of cell))) (before_in step.old host cells) }
{
    let n = step.keep_n(cell);
    let x = step.regs[n as usize];
    finish(step, n, op, x, se(imm_of(cell)));
}

// 52 and 53: the same two values, turned.
pub fn turned(step: &mut Step, cell: u32, op: Op)
    ensures lent { Lent step.old step.new }
    ensures left { (host cells : List ℕ) → left_in step.new cells
        ≡ left_of step.old.told (Operate op (n_of cell) (Extended Se (imm_of cell)) (R (n_of cell))) (before_in step.old host cells) }
{
    let n = step.keep_n(cell);
    let x = step.regs[n as usize];
    finish(step, n, op, se(imm_of(cell)), x);
}
