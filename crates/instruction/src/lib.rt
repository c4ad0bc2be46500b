// The instruction that a cell is, carried out: one match on the opcode.

#![tactic(auto)]

ghost use Rattle.std.specs.Prelude.{◌≡◌};
ghost use Rattle.cell.specs.Cell.{decode_of};
ghost use Rattle.effect.specs.Action.{action_of};
ghost use Rattle.carried.specs.Left.{left_of};
ghost use Rattle.carried.specs.Step.{Lent, left_in, before_in};

use calculation::calculated;
use carried::Step;
use cell::opcode_of;
use half::Extension;
use jump::branch;
use ldst::transfer;
use moves::{Loaded, interrupt, load, split, swap};
use operation::{immediate, registers, turned};
use word::Op;

// What the instruction does, or what refuses it, is left behind, but for flag 256. The match is flat and by single numbers, so that it becomes one
// jump table.
pub fn carry_out(step: &mut Step, cells: &mut [u32], host: &[u32; 5], cell: u32)
    ensures lent { Lent step.old step.new }
    ensures left { left_in step.new cells.new
        ≡ left_of step.old.told (action_of (decode_of cell)) (before_in step.old host.now cells.old) }
{
    match opcode_of(cell) {
        0 => swap(step, cell),
        1 => transfer(step, cells, host, cell),
        3 => load(step, cell, Loaded::Lower),
        4 => load(step, cell, Loaded::Upper),
        5 => load(step, cell, Loaded::Alone),
        6 => load(step, cell, Loaded::Extended(Extension::Se)),
        7 => load(step, cell, Loaded::Extended(Extension::Ex)),
        16 => registers(step, cell, Op::Add),
        17 => registers(step, cell, Op::Adc),
        18 => registers(step, cell, Op::Sub),
        19 => registers(step, cell, Op::Sbb),
        20 => registers(step, cell, Op::Mul),
        21 => registers(step, cell, Op::Udiv),
        22 => registers(step, cell, Op::Sdiv),
        23 => registers(step, cell, Op::Mod),
        24 => registers(step, cell, Op::And),
        25 => registers(step, cell, Op::Or),
        26 => registers(step, cell, Op::Xor),
        27 => registers(step, cell, Op::Nand),
        28 => registers(step, cell, Op::Lnand),
        29 => registers(step, cell, Op::Lsh),
        30 => registers(step, cell, Op::Ursh),
        31 => registers(step, cell, Op::Srsh),
        32 => registers(step, cell, Op::Ugt),
        33 => registers(step, cell, Op::Sgt),
        34 => registers(step, cell, Op::Eq),
        35 => immediate(step, cell, Op::Add),
        36 => immediate(step, cell, Op::Adc),
        37 => immediate(step, cell, Op::Sub),
        38 => immediate(step, cell, Op::Sbb),
        39 => immediate(step, cell, Op::Mul),
        40 => immediate(step, cell, Op::Udiv),
        41 => immediate(step, cell, Op::Sdiv),
        42 => immediate(step, cell, Op::Mod),
        43 => immediate(step, cell, Op::And),
        44 => immediate(step, cell, Op::Or),
        45 => immediate(step, cell, Op::Xor),
        46 => immediate(step, cell, Op::Lsh),
        47 => immediate(step, cell, Op::Ursh),
        48 => immediate(step, cell, Op::Srsh),
        49 => immediate(step, cell, Op::Ugt),
        50 => immediate(step, cell, Op::Sgt),
        51 => immediate(step, cell, Op::Eq),
        52 => turned(step, cell, Op::Ugt),
        53 => turned(step, cell, Op::Sgt),
        54 => split(step, cell, Extension::Se),
        80..=106 => calculated(step, cell),
        107 => split(step, cell, Extension::Ex),
        121 => branch(step, cell),
        122 => interrupt(step, cell),
        _ => step.illegal(),
    }
}
