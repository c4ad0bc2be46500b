// The float opcodes, 80 to 106: those that run, where the rounding mode is 3, and all others, which are out.

#![tactic(auto)]

ghost use Rattle.std.specs.Prelude.{◌≡◌, cond, List, ℕ, ◌<◌, get_or};
ghost use Rattle.half.specs.Half.{ex_of};
ghost use Rattle.cell.specs.Cell.{l_of, imm_of};
ghost use Rattle.carried.specs.Left.{left_of};
ghost use Rattle.carried.specs.Step.{Lent, left_in, before_in};
ghost use Rattle.calculation.specs.Operands.{on_registers, first_of, calculation_of};
ghost use Rattle.calculation.specs.Inner.{runs_of, Writes};

use carried::{Step, Told};
use cell::{imm_of, l_of, m_of, n_of, opcode_of};
use float::{FloatOp, calculate};
use half::ex;
use packed::mode_of;
use word::Written;

// Whether a float opcode runs. Each has an arm, since ranges took 1.5 more on `clinical`, and one match that gives the operation, if it runs, took 5.4.
fn runs(opcode: u32) -> bool
    ensures { result ≡ runs_of opcode }
{
    match opcode {
        80 => true,
        81 => true,
        82 => true,
        83 => true,
        89 => true,
        90 => true,
        93 => true,
        94 => true,
        95 => true,
        96 => true,
        102 => true,
        103 => true,
        104 => true,
        _ => false,
    }
}

// What a float opcode that runs writes of two values; 104 turns them. Each has its arm, as in `runs`.
fn written(opcode: u32, x: u32, y: u32) -> Written
    ensures { Writes opcode x y result }
{
    match opcode {
        80 => calculate(FloatOp::Add, x, y),
        81 => calculate(FloatOp::Sub, x, y),
        82 => calculate(FloatOp::Mul, x, y),
        83 => calculate(FloatOp::Div, x, y),
        89 => calculate(FloatOp::Gt, x, y),
        90 => calculate(FloatOp::Eq, x, y),
        93 => calculate(FloatOp::Add, x, y),
        94 => calculate(FloatOp::Sub, x, y),
        95 => calculate(FloatOp::Mul, x, y),
        96 => calculate(FloatOp::Div, x, y),
        102 => calculate(FloatOp::Gt, x, y),
        103 => calculate(FloatOp::Eq, x, y),
        104 => calculate(FloatOp::Gt, y, x),
        _ => calculate(FloatOp::Gt, x, y),
    }
}

// The register that is the first value.
fn first(cell: u32) -> u32
    ensures { (result ≡ first_of cell) × (result < 256) }
{
    if opcode_of(cell) < 93 {
        return m_of(cell);
    }
    n_of(cell)
}

// The second value: Rl or ex(imm).
fn second(regs: &[u32; 256], cell: u32) -> u32
    ensures { result ≡ cond (on_registers cell) (get_or regs.now (l_of cell) 0) (ex_of (imm_of cell)) }
{
    if opcode_of(cell) < 93 {
        let l = l_of(cell) as usize;
        return regs[l];
    }
    ex(imm_of(cell))
}

// Register n gets what the operation makes of the two values, with its flags; in another mode than 3, and by an opcode that is out, nothing is done.
pub fn calculated(step: &mut Step, cell: u32)
    ensures lent { Lent step.old step.new }
    ensures left { (host cells : List ℕ) → left_in step.new cells
        ≡ left_of step.old.told (calculation_of cell) (before_in step.old host cells) }
{
    let opcode = opcode_of(cell);
    // why | and not ||, `carried::is_fault` says
    if (mode_of(step.settings) != 3) | !runs(opcode) {
        step.refuse(Told::FLOAT);
        return;
    }
    let n = step.keep_n(cell);
    let x = step.regs[first(cell) as usize];
    let y = second(step.regs, cell);
    step.put(n, written(opcode, x, y));
}
