// The answers to trials of decoding, encoding, printing and reading.
use crate::payload::Payload;
use cell::{EncodeError, Instruction, Operands};
use lent::least;
use line::NoRoom;
use reader::NoLine;
use std::io;
use std::io::Write;

// Writes the answer to a decoding.
pub(crate) fn put_decoded<W: Write>(out: &mut W, payload: &mut Payload) -> io::Result<()> {
    match cell::decode(payload.word()) {
        Instruction::Registers { opcode, n, m, l } => {
            writeln!(out, "registers {opcode} {n} {m} {l}")
        }
        Instruction::Immediate { opcode, n, imm } => writeln!(out, "immediate {opcode} {n} {imm}"),
        Instruction::Reserved(cell) => writeln!(out, "reserved {cell}"),
    }
}

// The operands that a payload gives, in the form that it names.
fn operands_of(payload: &mut Payload) -> Operands {
    let form = payload.byte();
    let n = payload.byte();
    if form == 0 {
        let m = payload.byte();
        let l = payload.byte();
        Operands::Registers { n, m, l }
    } else {
        let imm = payload.half();
        Operands::Immediate { n, imm }
    }
}

// Writes the answer to an encoding.
pub(crate) fn put_encoded<W: Write>(out: &mut W, payload: &mut Payload) -> io::Result<()> {
    let opcode = payload.byte();
    match cell::encode(opcode, operands_of(payload)) {
        Ok(cell) => writeln!(out, "cell {cell}"),
        Err(EncodeError::ReservedOpcode) => writeln!(out, "refused 21"),
        Err(EncodeError::OtherForm) => writeln!(out, "refused 22"),
    }
}

// Writes the answer to a reading.
pub(crate) fn put_read<W: Write>(out: &mut W, payload: &Payload) -> io::Result<()> {
    match reader::read(payload.rest) {
        Ok(cell) => writeln!(out, "cell {cell}"),
        Err(NoLine) => writeln!(out, "refused 30"),
    }
}

// Writes the bytes of a room, with spaces between.
fn put_room<W: Write>(out: &mut W, room: &[u8]) -> io::Result<()> {
    for (i, byte) in room.iter().enumerate() {
        let space = if i == 0 { "" } else { " " };
        write!(out, "{space}{byte}")?;
    }
    writeln!(out)
}

// Writes the answer to a printing into a room.
fn put_printed<W: Write>(out: &mut W, cell: u32, room: &mut [u8]) -> io::Result<()> {
    match line::print(cell, room) {
        Ok(size) => writeln!(out, "length {size}")?,
        Err(NoRoom) => writeln!(out, "refused 31")?,
    }
    put_room(out, room)
}

// Writes the answer to a printing into a room of as many bytes as the payload says.
pub(crate) fn put_print<W: Write>(out: &mut W, payload: &mut Payload) -> io::Result<()> {
    let mut room = [170u8; 40];
    let cell = payload.word();
    let size = least(payload.byte() as usize, &room);
    put_printed(out, cell, &mut room[..size])
}
