// What a step costs is measured with this program: `bench ROUNDS [CELLS [BACK]] < JOB`. It loads the job into 16,384 cells or as many as
// asked, goes as many rounds as asked, each a run forward of budget 65,536 and 65,536 steps back or as many as asked, and writes one line
// of what came of it.

#![tactic(auto)]

mod rounds;

use intake::read_full;
use rounds::{Tally, go_round};
use std::env::Env;
use std::io;

// The number that a word of decimal digits is, by its last nine.
fn number(word: &[u8]) -> u32 {
    word.iter()
        .fold(0, |n, b| n % 100000000 * 10 + u32::from(*b) % 16)
}

// An argument as a number, or another number if it is missing.
fn argument(rt: &impl Env, i: usize, otherwise: u32) -> u32 {
    let mut word = [0u8; 16];
    match rt.arg(i, &mut word) {
        Ok(size) if 0 < size => number(&word[..size]),
        _ => otherwise,
    }
}

// Loads a job, and answers what is told of its rounds, or that it is refused.
fn measure(
    job: &[u8],
    cells: &mut [u32],
    journal: &mut [u32],
    times: u32,
    number: u64,
) -> Result<Tally, job::Refused> {
    let machine = job::load(job, [0u32; 5], cells)?;
    Ok(go_round(machine, cells, journal, times, number))
}

fn main(rt: HostRuntime) -> io::Result<()> {
    let mut room = [0u8; 131072];
    let mut cells = [0u32; 16384];
    let mut journal = [0u32; 524288];
    let times = argument(&rt, 1, 1);
    let some = lent::least(argument(&rt, 2, 16384) as usize, &cells);
    let number = argument(&rt, 3, 65536) as u64;
    let read = read_full(&mut rt.stdin(), &mut room)?;
    match measure(
        &room[..read],
        &mut cells[..some],
        &mut journal,
        times,
        number,
    ) {
        Ok(told) => println!(rt;
            "stop {} forward {} back {} sum {}",
            told.stop, told.forward, told.back, told.sum
        ),
        Err(_) => println!(rt; "refused"),
    }
}
