// 121, BZ: the branch, and the wild jump that is refused.

#![tactic(auto)]

ghost use Rattle.std.specs.Prelude.{◌≡◌, ℕ, List};
ghost use Rattle.cell.specs.Cell.{n_of, imm_of};
ghost use Rattle.effect.specs.Action.{Bz};
ghost use Rattle.effect.specs.Refusal.{target_of, below_zero, wild};
ghost use Rattle.carried.specs.Left.{left_of};
ghost use Rattle.carried.specs.Step.{Lent, left_in, before_in};

use carried::{Step, Told, operand};
use cell::{imm_of, n_of};
use half::se;

// Whether a branch leads to below zero: in 64 bits PC + 1 + the signed imm does not wrap. The sign is made in a form that becomes one instruction.
fn is_below_zero(pc: u32, imm: u16) -> bool
    ensures { result ≡ below_zero (target_of pc imm) }
{
    let lifted = (imm as u32 + 32768) % 65536;
    pc as i64 + 1 + (lifted as i64 - 32768) < 0
}

// Whether a BZ is taken to a target below zero.
fn is_wild(regs: &[u32; 256], cell: u32) -> bool
    ensures { result ≡ wild regs.now (n_of cell) (imm_of cell) }
{
    is_below_zero(regs[255], imm_of(cell)) && operand(regs, n_of(cell)) == 0
}

// 121, BZ: PC gains se(imm) if Rn is 0; a wild jump is not done.
pub fn branch(step: &mut Step, cell: u32)
    ensures lent { Lent step.old step.new }
    ensures left { (host cells : List ℕ) → left_in step.new cells
        ≡ left_of step.old.told (Bz (n_of cell) (imm_of cell)) (before_in step.old host cells) }
{
    if is_wild(step.regs, cell) {
        step.refuse(Told::WILD);
        return;
    }
    step.move_on();
    if step.regs[n_of(cell) as usize] == 0 {
        let next = step.regs[255];
        step.regs[255] = next.wrapping_add(se(imm_of(cell)));
    }
}
