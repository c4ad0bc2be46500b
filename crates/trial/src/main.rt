// Reads a file of trials from standard input and writes their answers to standard output: oracle/README.md has both forms. A trial's
// cells, journal and room are made for it, so that nothing is left of the one before.

#![tactic(auto)]

mod calls;
mod digests;
mod jobs;
mod lines;
mod machines;
mod payload;
mod rules;

use calls::put_calls;
use intake::read_full;
use jobs::{put_described, put_job, put_run, put_saving};
use lent::least;
use lines::{put_decoded, put_encoded, put_print, put_read};
use payload::Payload;
use rules::put_rule;
use std::io;
use std::io::{Read, Write};

// Writes what an answer has after its first line, by the numbers that the file's form gives the kinds: nothing for one that is none.
fn put_rest<W: Write>(out: &mut W, kind: u8, payload: &mut Payload) -> io::Result<()> {
    match kind {
        1 => put_decoded(out, payload),
        2 => put_encoded(out, payload),
        3 => put_print(out, payload),
        4 => put_read(out, payload),
        5 => put_job(out, payload),
        6 => put_calls(out, payload),
        7 => put_run(out, payload),
        8 => put_saving(out, payload),
        9 => put_described(out, payload),
        10 => put_rule(out, payload),
        _ => Ok(()),
    }
}

// What a trial begins with: its kind, and how many bytes its payload has.
#[derive(Clone, Copy)]
struct Head {
    kind: u8,
    size: usize,
}

impl Head {
    // The head of the next trial, if there is one.
    fn read<R: Read>(input: &mut R) -> io::Result<Option<Head>> {
        let mut bytes = [0u8; 5];
        if read_full(input, &mut bytes)? < bytes.len() {
            return Ok(None);
        }
        let mut head = Payload { rest: &bytes };
        Ok(Some(Head {
            kind: head.byte(),
            size: head.size(),
        }))
    }
}

// Reads the payload of a trial, and writes the answer.
fn answer<R: Read, W: Write>(
    input: &mut R,
    out: &mut W,
    number: u64,
    head: Head,
) -> io::Result<()> {
    let Head { kind, size } = head;
    let mut room = [0u8; 40000];
    let some = least(size, &room);
    let read = read_full(input, &mut room[..some])?;
    writeln!(out, "trial {number} kind {kind}")?;
    put_rest(
        out,
        kind,
        &mut Payload {
            rest: &room[..read],
        },
    )
}

fn main(rt: HostRuntime) -> io::Result<()> {
    let mut input = rt.stdin();
    let mut out = rt.stdout();
    // a loop has to be proved to end: a file of more trials than this is cut
    for number in 0..1048576u64 {
        let Some(head) = Head::read(&mut input)? else {
            return Ok(());
        };
        answer(&mut input, &mut out, number, head)?;
    }
    Ok(())
}
