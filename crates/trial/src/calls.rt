// The answers to trials of calls.
ghost use Rattle.std.specs.Prelude.{◌≤◌};

use crate::digests::digest;
use crate::machines::{machine_of, put_machine, set_words};
use crate::payload::Payload;
use call::Ran;
use lent::least;
use machine::{Machine, Stop};
use std::io;
use std::io::Write;

// Writes a stop's number, the values of an INT, and the place of a rule's bad cell.
fn put_stop<W: Write>(out: &mut W, stop: Stop) -> io::Result<()> {
    let (value, imm, place) = match stop {
        Stop::Int { value, imm } => (value, imm, 0),
        Stop::Barred { place } => (0, 0, place),
        _ => (0, 0, 0),
    };
    write!(
        out,
        "stop {} value {value} imm {imm} place {place}",
        stop.number()
    )
}

// Writes the line of a call.
fn put_ran<W: Write>(out: &mut W, ran: &Ran, cells: &[u32], journal: &[u32]) -> io::Result<()> {
    put_stop(out, ran.stop)?;
    write!(out, " count {} pc {} ", ran.count, ran.machine.regs[255])?;
    put_machine(out, &ran.machine, cells)?;
    writeln!(out, " journal {}", digest(journal))
}

// A call that a trial asks for.
#[derive(Clone, Copy)]
enum Call {
    Step,
    Run { budget: u64 },
    ProfileRun { l: usize, budget: u64 },
    Back { number: u64 },
}

impl Call {
    // The next call of a payload: its kind, its number, and L of a profile run.
    fn take(payload: &mut Payload) -> Call {
        let kind = payload.byte();
        let number = payload.long();
        match kind {
            0 => Call::Step,
            1 => Call::Run { budget: number },
            3 => Call::ProfileRun {
                l: payload.size(),
                budget: number,
            },
            _ => Call::Back { number },
        }
    }

    fn make(self, m: Machine, cells: &mut [u32], journal: &mut [u32]) -> Ran {
        match self {
            Call::Step => forward::step(m, cells, journal),
            Call::Run { budget } => forward::run(m, cells, journal, budget),
            Call::ProfileRun { l, budget } => forward::profile_run(m, cells, journal, l, budget),
            Call::Back { number } => backward::back(m, cells, journal, number),
        }
    }
}

// Makes the machine, the cells and the journal of a payload, and then its calls, their count first. Writes a line for each call.
fn put_each<W: Write>(
    out: &mut W,
    payload: &mut Payload,
    cells: &mut [u32],
    journal: &mut [u32],
) -> io::Result<()> {
    let mut machine = machine_of(payload);
    set_words(cells, payload, 4);
    set_words(journal, payload, 4);
    for _ in 0..payload.half() {
        let ran = Call::take(payload).make(machine, cells, journal);
        put_ran(out, &ran, cells, journal)?;
        machine = ran.machine;
    }
    Ok(())
}

// The same on so many cells and so many words of journal, and no more than there are. The bound is what an array must be shown to keep.
fn put_within<const WORDS: usize, W: Write>(
    out: &mut W,
    payload: &mut Payload,
    size: usize,
    words: usize,
) -> io::Result<()>
    requires { WORDS ≤ 524304 }
{
    let mut cells = [0u32; 16500];
    let mut journal = [0u32; WORDS];
    let some = least(size, &cells);
    let most = least(words, &journal);
    put_each(out, payload, &mut cells[..some], &mut journal[..most])
}

// Writes the answer to calls. A short journal is sooner made than one of as many words as a trial may have.
pub(crate) fn put_calls<W: Write>(out: &mut W, payload: &mut Payload) -> io::Result<()> {
    let size = payload.size();
    let words = payload.size();
    if words <= 3200 {
        put_within::<3200, _>(out, payload, size, words)
    } else {
        put_within::<524304, _>(out, payload, size, words)
    }
}
