// The answers to trials of jobs.
use crate::digests::digest;
use crate::machines::{host_of, machine_of, put_machine, set_words};
use crate::payload::Payload;
use job::Refused;
use lent::least;
use machine::Machine;
use outcome::Sizes;
use refusal::Refusal;
use std::io;
use std::io::Write;

// Loads a job with the host's words into cells and writes the two lines of it. The machine of a refused job is the one
// that its refusal answers.
fn load<W: Write>(
    out: &mut W,
    job: &[u8],
    host: [u32; 5],
    cells: &mut [u32],
) -> io::Result<Machine> {
    let loaded = job::load(job, host, cells);
    match loaded {
        Ok(_) => writeln!(out, "loaded")?,
        Err(Refused { why, offset }) => writeln!(out, "refused {} at {offset}", why.number())?,
    }
    let machine = loaded.unwrap_or_else(|refused| refused.machine());
    put_machine(out, &machine, cells)?;
    writeln!(out)?;
    Ok(machine)
}

// Saves a machine and its cells into a room and writes the two lines of it.
fn save<W: Write>(
    out: &mut W,
    m: Machine,
    cells: &[u32],
    room: &mut [u8],
) -> io::Result<Result<usize, Refusal>> {
    let saved = saver::save(m, cells, room);
    match saved {
        Ok(size) => writeln!(out, "saved {size}")?,
        Err(why) => writeln!(out, "refused {}", why.number())?,
    }
    writeln!(out, "room {}", digest(room))?;
    Ok(saved)
}

// Loads a job that was saved, into as many fresh cells, with other words of the host than the first time: all their bits are turned.
fn load_again<W: Write>(out: &mut W, job: &[u8], host: [u32; 5], m: usize) -> io::Result<()> {
    let mut cells = [1431655765u32; 16500];
    let some = least(m, &cells);
    load(out, job, host.map(|word| !word), &mut cells[..some])?;
    Ok(())
}

// Loads a job, saves what was loaded and, if that is done, loads it again.
fn load_and_save<W: Write>(
    out: &mut W,
    job: &[u8],
    host: [u32; 5],
    cells: &mut [u32],
    room: &mut [u8],
) -> io::Result<()> {
    let machine = load(out, job, host, cells)?;
    if let Ok(size) = save(out, machine, cells, room)? {
        let end = least(size, room);
        load_again(out, &room[..end], host, cells.len())?;
    }
    Ok(())
}

// What a payload asks for a job: the number of cells and of bytes of room, and the host's words.
#[derive(Clone, Copy)]
struct Asked {
    cells: usize,
    room: usize,
    host: [u32; 5],
}

impl Asked {
    fn take(payload: &mut Payload) -> Asked {
        Asked {
            cells: payload.size(),
            room: payload.size(),
            host: host_of(payload),
        }
    }
}

// Writes the answer to a job, over as many cells and as much room as is asked, and no more than there are.
fn put_given<W: Write>(out: &mut W, job: &[u8], asked: Asked) -> io::Result<()> {
    let mut cells = [2863311530u32; 16500];
    let mut room = [170u8; 70000];
    let some = least(asked.cells, &cells);
    let most = least(asked.room, &room);
    load_and_save(out, job, asked.host, &mut cells[..some], &mut room[..most])
}

// The same for the job that is the rest of a payload.
pub(crate) fn put_job<W: Write>(out: &mut W, payload: &mut Payload) -> io::Result<()> {
    let asked = Asked::take(payload);
    put_given(out, payload.rest, asked)
}

// A job that a payload describes: its head and its tail are bytes of the payload, and each byte in between is the upper half of x, which
// goes up by the same step at each byte of the job.
#[derive(Clone, Copy)]
struct Described<'a> {
    middle: usize,
    x: u16,
    step: u16,
    head: usize,
    bytes: &'a [u8],
}

impl<'a> Described<'a> {
    fn take(payload: &mut Payload<'a>) -> Described<'a> {
        Described {
            middle: payload.size(),
            x: payload.half(),
            step: payload.half(),
            head: payload.half() as usize,
            bytes: payload.rest,
        }
    }

    // Byte i of the job, where x has come to a value. Past the payload's end stand zeros.
    fn byte(&self, i: usize, x: u16) -> u8 {
        if i < self.head {
            self.bytes.get(i).copied().unwrap_or(0)
        } else if i - self.head < self.middle {
            (x / 256) as u8
        } else {
            self.bytes.get(i - self.middle).copied().unwrap_or(0)
        }
    }

    fn put(&self, job: &mut [u8]) {
        let mut x = self.x;
        for (i, byte) in job.iter_mut().enumerate() {
            *byte = self.byte(i, x);
            x = x.wrapping_add(self.step);
        }
    }
}

// Writes the answer to a job that a payload describes. A payload that is cut before the job's bytes describes a job of none.
pub(crate) fn put_described<W: Write>(out: &mut W, payload: &mut Payload) -> io::Result<()> {
    let cut = payload.rest.len() < 38;
    let asked = Asked::take(payload);
    let job = Described::take(payload);
    let mut room = [0u8; 70000];
    let size = if cut {
        0
    } else {
        least(job.bytes.len().wrapping_add(job.middle), &room)
    };
    job.put(&mut room[..size]);
    put_given(out, &room[..size], asked)
}

// Saves the machine and the cells that a payload gives.
fn save_given<W: Write>(
    out: &mut W,
    payload: &mut Payload,
    cells: &mut [u32],
    room: &mut [u8],
) -> io::Result<()> {
    let machine = machine_of(payload);
    set_words(cells, payload, 4);
    let _ = save(out, machine, cells, room)?;
    Ok(())
}

// Writes the answer to a save, of as many cells and into as much room as the payload says.
pub(crate) fn put_saving<W: Write>(out: &mut W, payload: &mut Payload) -> io::Result<()> {
    let mut cells = [0u32; 16500];
    let mut room = [170u8; 70000];
    let some = least(payload.size(), &cells);
    let most = least(payload.size(), &room);
    save_given(out, payload, &mut cells[..some], &mut room[..most])
}

// Writes what runjob prints.
pub(crate) fn put_run<W: Write>(out: &mut W, payload: &Payload) -> io::Result<()> {
    let mut text = [0u8; Sizes::TEXT];
    let mut cells = [0u32; Sizes::CELLS];
    let mut journal = [0u32; Sizes::WORDS];
    let outcome = outcome::run_job(payload.rest, &mut cells, &mut journal);
    let end = outcome::put_outcome(&mut text, 0, outcome);
    let size = least(end, &text);
    out.write_all(&text[..size])
}
