// What a run asks of PC and of a store before a step: a profile's code is all that it fetches from, and is not written.

#![tactic(auto)]

ghost use Rattle.std.specs.Prelude.{◌≡◌};
ghost use Rattle.step.specs.Step.{code_of};
ghost use Rattle.guard.specs.Guard.{guarded_of, stores_below};

use carried::{is_fault, operand};
use cell::{l_of, m_of, opcode_of};
use machine::Kind;

// How many cells a run may fetch from.
pub fn limit_of(kind: Kind, size: usize) -> usize
    ensures { result ≡ code_of kind size }
{
    match kind {
        Kind::Plain => size,
        Kind::Profile(l) => l.min(size),
    }
}

// How many cells a run may not store to, cell 0 aside: pointer 0 is none.
pub fn guard_of(kind: Kind) -> usize
    ensures { result ≡ guarded_of kind }
{
    match kind {
        Kind::Plain => 0,
        Kind::Profile(l) => l,
    }
}

// Whether a cell stores below the guard and neither of its pointers faults, since 5 comes before 61. A plain run is done with one test.
pub fn writes_code(regs: &[u32; 256], size: usize, cell: u32, guard: usize) -> bool
    ensures { result ≡ stores_below guard size regs.now cell }
{
    if guard == 0 || opcode_of(cell) != 1 {
        return false;
    }
    let x = operand(regs, m_of(cell));
    if x == 0 || guard <= x as usize {
        return false;
    }
    let y = operand(regs, l_of(cell));
    !(is_fault(size, y) || is_fault(size, x))
}
