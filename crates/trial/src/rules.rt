// The answers to trials of a profile's check.
use crate::machines::set_words;
use crate::payload::Payload;
use lent::least;
use profile::{BadRule, Flaw};
use std::io;
use std::io::Write;

// What an answer calls what is wrong with a cell.
fn name_of(flaw: Flaw) -> &'static str {
    match flaw {
        Flaw::Reserved => "reserved",
        Flaw::Float => "float",
        Flaw::Int => "int",
        Flaw::Back => "back",
        Flaw::Target => "target",
    }
}

// Writes what a profile says of a rule of so many cells.
fn put_said<W: Write>(out: &mut W, cells: &[u32], l: usize) -> io::Result<()> {
    match profile::first_bad(cells, l) {
        Ok(()) => writeln!(out, "forward only"),
        Err(BadRule::Length) => writeln!(out, "length"),
        Err(BadRule::Cell { place, flaw }) => writeln!(out, "cell {place} {}", name_of(flaw)),
    }
}

// Writes the answer to a check, of as many cells as the payload says. They hold zeros but where it sets them.
pub(crate) fn put_rule<W: Write>(out: &mut W, payload: &mut Payload) -> io::Result<()> {
    let mut cells = [0u32; 16500];
    let l = payload.size();
    let some = least(payload.size(), &cells);
    set_words(&mut cells[..some], payload, 4);
    put_said(out, &cells[..some], l)
}
