// Writes number, mnemonic and form of each legal opcode, a line each: the table of instructions in docs/MANUAL.md is held to these lines.

#![tactic(auto)]

use cell::Form;
use std::io;
use std::io::Write;

// What a line calls a form. A reserved opcode has no line.
fn name_of(form: Form) -> Option<&'static str> {
    match form {
        Form::Registers => Some("registers"),
        Form::Immediate => Some("immediate"),
        Form::Reserved => None,
    }
}

// Writes the line of an opcode whose form is named. A mnemonic is bytes, which no hole of a format takes.
fn write_line<W: Write>(out: &mut W, opcode: u8, form: &str) -> io::Result<()> {
    let mut word = [0u8; 8];
    let end = mnemonic::put_word(&mut word, opcode);
    write!(out, "{opcode} ")?;
    out.write_all(&word[..end])?;
    writeln!(out, "{form}")
}

fn main(rt: HostRuntime) -> io::Result<()> {
    let mut out = rt.stdout();
    for opcode in 0..=255 {
        if let Some(form) = name_of(cell::form_of(opcode)) {
            write_line(&mut out, opcode, form)?;
        }
    }
    Ok(())
}
