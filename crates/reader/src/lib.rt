// Reading a cell's printed line back.

#![tactic(auto)]

ghost use Rattle.std.specs.Prelude.{◌≡◌};
ghost use Rattle.reader.specs.Reader.{Reads};
ghost use Rattle.reader.specs.Answers.{read_reply};
ghost use Rattle.reader.specs.Reading.{taken_from, grows, at_most, numeral_of, field_of, word_from, finished, registers_of, immediate_of, cell_of};
ghost use Rattle.cell.specs.Answers.{encoded_reply};

use cell::{EncodeError, Form, Operands};
use mnemonic::put_word;

// Refusal 30 of a reading: the text is no cell's printed line.
#[derive(Clone, Copy, Debug, PartialEq, Eq)]
pub struct NoLine;

// Whether a number that begins with a value goes on with a byte: no digit follows a leading zero.
fn goes_on(value: u64, b: u8, limit: u32) -> bool
    ensures { result ≡ grows limit value b }
{
    b.is_ascii_digit() && 0 < value && value <= u64::from(limit)
}

// A number and the rest of its text, if it is within a limit.
fn at_most(value: u64, rest: &[u8], limit: u32) -> Option<(u32, &[u8])>
    ensures { taken_from result ≡ at_most limit value rest.now }
{
    if value <= u64::from(limit) {
        Some((value as u32, rest))
    } else {
        None
    }
}

// The decimal number that a text begins with, if it is within a limit, and the rest.
#[tactic(auto, unfolding(crate::specs::Reading::numeral_of), using(crate::proofs::Numbers::steps))]
fn number(text: &[u8], limit: u32) -> Option<(u32, &[u8])>
    ensures { taken_from result ≡ numeral_of limit text.now }
{
    let (first, rest) = text.split_first()?;
    if !first.is_ascii_digit() {
        return None;
    }
    let mut value = u64::from(*first - b'0');
    for (i, b) in rest.iter().enumerate() {
        if !goes_on(value, *b, limit) {
            return at_most(value, &rest[i..], limit);
        }
        value = 10 * value + u64::from(*b - b'0');
    }
    at_most(value, b"", limit)
}

// A sign and the number after it.
#[tactic(auto, unfolding(crate::specs::Reading::field_of), using(crate::proofs::Pieces::stripped_begins))]
fn field<'a>(text: &'a [u8], sign: &[u8], limit: u32) -> Option<(u32, &'a [u8])>
    ensures { taken_from result ≡ field_of sign.now limit text.now }
{
    number(text.strip_prefix(sign)?, limit)
}

// The first opcode whose word a text begins with, and the rest. The words are in `mnemonic`, which puts one into lent room.
#[tactic(auto, using(crate::proofs::Search::steps))]
fn word(text: &[u8]) -> Option<(u8, &[u8])>
    ensures { taken_from result ≡ word_from 123 0 text.now }
{
    let mut word = [0u8; 8];
    for x in 0..123u8 {
        let size = put_word(&mut word, x);
        if let Some(rest) = text.strip_prefix(&word[..size]) {
            return Some((x, rest));
        }
    }
    None
}

// The cell that was encoded, if LF is all that is left of the text.
fn finish(text: &[u8], encoded: Result<u32, EncodeError>) -> Result<u32, NoLine>
    ensures { read_reply result ≡ finished (encoded_reply encoded) text.now }
{
    match (encoded, text) {
        (Ok(cell), [b'\n']) => Ok(cell),
        _ => Err(NoLine),
    }
}

// A sign and the register after it.
#[tactic(auto, using(crate::proofs::Numbers::field_byte))]
fn register<'a>(text: &'a [u8], sign: &[u8]) -> Option<(u8, &'a [u8])>
    ensures { taken_from result ≡ field_of sign.now 255 text.now }
{
    let (n, rest) = field(text, sign, 255)?;
    Some((n as u8, rest))
}

// The operands of three registers, after the word of an opcode. `let .. else` is the form that document 01 names for the reader.
#[tactic(auto, unfolding(crate::specs::Reading::registers_of))]
fn read_registers(text: &[u8], opcode: u8) -> Result<u32, NoLine>
    ensures { read_reply result ≡ registers_of opcode text.now }
{
    let Some((n, text)) = register(text, b"R") else {
        return Err(NoLine);
    };
    let Some((m, text)) = register(text, b", R") else {
        return Err(NoLine);
    };
    let Some((l, text)) = register(text, b", R") else {
        return Err(NoLine);
    };
    finish(text, cell::encode(opcode, Operands::Registers { n, m, l }))
}

// The operands of a register and an immediate, after the word of an opcode.
#[tactic(auto, unfolding(crate::specs::Reading::immediate_of), using(crate::proofs::Numbers::field_half))]
fn read_immediate(text: &[u8], opcode: u8) -> Result<u32, NoLine>
    ensures { read_reply result ≡ immediate_of opcode text.now }
{
    let Some((n, text)) = register(text, b"R") else {
        return Err(NoLine);
    };
    let Some((imm, text)) = field(text, b", #", 65535) else {
        return Err(NoLine);
    };
    let imm = imm as u16;
    finish(text, cell::encode(opcode, Operands::Immediate { n, imm }))
}

// The number of a reserved cell, after CELL.
#[tactic(auto, unfolding(crate::specs::Reading::cell_of))]
fn read_cell(text: &[u8]) -> Result<u32, NoLine>
    ensures { read_reply result ≡ cell_of text.now }
{
    let Some((value, text)) = number(text, u32::MAX) else {
        return Err(NoLine);
    };
    match cell::form_of(cell::opcode_of(value) as u8) {
        Form::Registers | Form::Immediate => Err(NoLine),
        Form::Reserved => finish(text, Ok(value)),
    }
}

// Reads a cell's printed line.
#[tactic(auto, using(crate::proofs::Answers::reads_none))]
pub fn read(text: &[u8]) -> Result<u32, NoLine>
    ensures { Reads text.now (read_reply result) }
{
    let Some((opcode, text)) = word(text) else {
        return Err(NoLine);
    };
    match cell::form_of(opcode) {
        Form::Registers => read_registers(text, opcode),
        Form::Immediate => read_immediate(text, opcode),
        Form::Reserved => read_cell(text),
    }
}
