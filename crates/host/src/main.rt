// Reads a job from standard input, runs it, and writes one line of what became of it.

#![tactic(auto)]

use call::Ran;
use intake::read_full;
use machine::Stop;
use refusal::Refusal;
use std::io;

// Why a job is not released: its run is held, with the stop's number, or it is refused, with the refusal's.
#[derive(Drop)]
enum Kept {
    Held(u64),
    Refused(u64),
}

impl From<Refusal> for Kept {
    fn from(why: Refusal) -> Kept {
        Kept::Refused(why.number())
    }
}

impl From<job::Refused> for Kept {
    fn from(refused: job::Refused) -> Kept {
        Kept::from(refused.why)
    }
}

// Whether a run ended with no flag but that of its end.
fn clean(ran: &Ran) -> bool {
    matches!(ran.stop, Stop::Ended) && ran.machine.settings.flags == 256
}

// A clean run is saved into the room, and the saved job's length answered. All that another one did is taken back: the cells hold the
// loaded job again.
fn settle(ran: Ran, cells: &mut [u32], journal: &[u32], room: &mut [u8]) -> Result<usize, Kept> {
    if !clean(&ran) {
        backward::back(ran.machine, cells, journal, ran.count);
        return Err(Kept::Held(ran.stop.number()));
    }
    Ok(saver::save(ran.machine, cells, room)?)
}

// Loads a job of at most 32,768 bytes into the cells and runs it, 400 steps at most. A longer one is refused with 50, a number of the host's
// own. This host gives no date: its five words are zeros.
fn scrub(
    job: &[u8],
    cells: &mut [u32],
    journal: &mut [u32],
    room: &mut [u8],
) -> Result<usize, Kept> {
    if 32768 < job.len() {
        return Err(Kept::Refused(50));
    }
    let machine = job::load(job, [0u32; 5], cells)?;
    let ran = forward::run(machine, cells, journal, 400);
    settle(ran, cells, journal, room)
}

// What the host lends: 4,096 cells, a journal of 8 words for each of 400 steps, and room for any job that is saved from them. The input has
// room for one byte more than a job may have, so that a longer one is seen to be too long.
fn main(rt: HostRuntime) -> io::Result<()> {
    let mut input = [0u8; 32769];
    let mut cells = [0u32; 4096];
    let mut journal = [0u32; 3200];
    let mut room = [0u8; 32768];
    let read = read_full(&mut rt.stdin(), &mut input)?;
    match scrub(&input[..read], &mut cells, &mut journal, &mut room) {
        Ok(length) => println!(rt; "released {length}"),
        Err(Kept::Held(stop)) => println!(rt; "held {stop}"),
        Err(Kept::Refused(number)) => println!(rt; "refused {number}"),
    }
}
