// A cell as a line of text: printing it into lent room. A text and its places are apart, as `text` says.

#![tactic(auto)]

ghost use Rattle.std.specs.Prelude.{◌≡◌};
ghost use Rattle.text.specs.Text.{Added};
ghost use Rattle.line.specs.Line.{spelled, line_of, print_of};
ghost use Rattle.line.specs.Answers.{shown_of};
ghost use Rattle.cell.specs.declared.Instruction.TheVariants.{Registers, Immediate, Reserved};

use cell::Instruction;
use mnemonic::put_word;
use text::{put, put_number};

// Refusal 31 of a printing: the room is shorter than the line.
#[derive(Clone, Copy, Debug, PartialEq, Eq)]
pub struct NoRoom;

// Puts the line of an instruction with three registers.
fn put_registers(line: &mut [u8; 24], opcode: u8, n: u8, m: u8, l: u8) -> usize
    ensures { Added line.old 0 (spelled (Registers opcode n m l)) line.new result }
{
    let a = put_word(line, opcode);
    let b = put_number(line, a, b"R", n as u64);
    let c = put_number(line, b, b", R", m as u64);
    let d = put_number(line, c, b", R", l as u64);
    put(line, d, b"\n")
}

// Puts the line of an instruction with a register and an immediate.
fn put_immediate(line: &mut [u8; 24], opcode: u8, n: u8, imm: u16) -> usize
    ensures { Added line.old 0 (spelled (Immediate opcode n imm)) line.new result }
{
    let a = put_word(line, opcode);
    let b = put_number(line, a, b"R", n as u64);
    let c = put_number(line, b, b", #", imm as u64);
    put(line, c, b"\n")
}

// Puts the line of a reserved cell.
fn put_reserved(line: &mut [u8; 24], cell: u32) -> usize
    ensures { Added line.old 0 (spelled (Reserved cell)) line.new result }
{
    let a = put_number(line, 0, b"CELL ", cell as u64);
    put(line, a, b"\n")
}

// Puts a cell's line into room for the longest, and answers its length.
#[tactic(auto, unfolding(crate::specs::Line::line_of))]
pub fn put_line(line: &mut [u8; 24], cell: u32) -> usize
    ensures { Added line.old 0 (line_of cell) line.new result }
{
    match cell::decode(cell) {
        Instruction::Registers { opcode, n, m, l } => put_registers(line, opcode, n, m, l),
        Instruction::Immediate { opcode, n, imm } => put_immediate(line, opcode, n, imm),
        Instruction::Reserved(whole) => put_reserved(line, whole),
    }
}

// Prints a cell's line into lent room, and answers its length. What stands past the line is kept.
#[tactic(auto, using(crate::proofs::Sizes::line_put, crate::proofs::Lines::unprinted))]
pub fn print(cell: u32, room: &mut [u8]) -> Result<usize, NoRoom>
    ensures { shown_of result room.new ≡ print_of cell room.old }
{
    let mut line = [0u8; 24];
    let size = put_line(&mut line, cell);
    if room.len() < size {
        return Err(NoRoom);
    }
    room[..size].copy_from_slice(&line[..size]);
    Ok(size)
}
