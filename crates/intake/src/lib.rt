// What the programs take in: how they read it, the job that it loads, and the line that they write of a refused one.

#![tactic(auto)]

ghost use Rattle.std.specs.Prelude.{◌≡◌, ◌≢◌, ◌≤◌, ◌<◌, IfOk, IfErr, length, take};
ghost use Rattle.std.specs.Io.{ReadsAtMost};
ghost use Rattle.std.specs.Io.KnownBytes.{Consumes, IsAtEnd};
ghost use Rattle.machine.specs.State.{fresh_machine};
ghost use Rattle.text.specs.Text.{Added};
ghost use Rattle.refusal.specs.Refusal.{number_of};
ghost use Rattle.intake.specs.Intake.{refused_text, taken_of};
ghost use Rattle.intake.specs.Answers.{taken_with};

use machine::Machine;
use std::io;
use std::io::Read;
use text::{put, put_number};

// The cells that a job is loaded into, and the longest input.
#[derive(Clone, Copy)]
pub struct Intake;

impl Intake {
    pub const CELLS: usize = 4096;

    pub const INPUT: usize = 32768;
}

// Why an input is not taken in: the refusal's number, and the offset of its record. Numbers, since a line is promised of every number.
#[derive(Clone, Copy, Debug, PartialEq, Eq)]
pub struct Refused {
    pub number: u64,
    pub offset: u64,
}

impl Refused {
    // The machine of a refused input: a fresh one, with zeros for the host's words.
    #[tactic(auto, unfolding(machine::specs::State::fresh_machine))]
    pub fn machine(self) -> Machine
        ensures { result ≡ fresh_machine }
    {
        Machine::fresh()
    }
}

impl From<job::Refused> for Refused {
    ghost from_gives = { λ found told. told ≡ record { number = number_of found.why; offset = found.offset } };

    fn from(found: job::Refused) -> Refused {
        Refused {
            number: found.why.number(),
            offset: found.offset as u64,
        }
    }
}

// The machine that an input's job loads, into the cells, with zeros for the host's words. An input longer than the longest is refused
// with 50, whatever it holds.
#[tactic(auto, using(crate::proofs::Taking::taken_long))]
pub fn take_in(input: &[u8], cells: &mut [u32]) -> Result<Machine, Refused>
    ensures taken { taken_with result cells.new ≡ taken_of input.now cells.old }
    ensures numbered { IfErr result (λ refused. refused.number ≢ 0) }
{
    if Intake::INPUT < input.len() {
        return Err(Refused {
            number: 50,
            offset: Intake::INPUT as u64,
        });
    }
    Ok(job::load(input, [0u32; 5], cells)?)
}

// Puts the line of a refusal, which has at most 53 bytes, into a text from a place on, and answers where it ends.
pub fn put_refused(text: &mut [u8], at: usize, refused: Refused) -> usize
    ensures added { Added text.old at (refused_text refused.number refused.offset) text.new result }
    ensures short { length (refused_text refused.number refused.offset) ≤ 53 }
{
    let a = put_number(text, at, b"refused ", refused.number);
    let b = put_number(text, a, b" at ", refused.offset);
    put(text, b, b"\n")
}

// Reads until a room is full or the input ends, and answers how many bytes stand at the room's front: those that were taken from the
// input, all of it where they leave room. A read that fails ends it.
pub fn read_full<R: Read>(input: &mut R, room: &mut [u8]) -> io::Result<usize>
    ensures within { ReadsAtMost result room.new }
    ensures kept { length room.new ≡ length room.old }
    ensures taken { IfOk result (λ n. Consumes (R.remaining input.old) (R.remaining input.new) (take n room.new)) }
    ensures whole { IfOk result (λ n. n < length room.new → IsAtEnd (R.remaining input.new)) }
{
    let mut done = 0;
    // How many reads it takes is not known: no `for` is plainer.
    while done < room.len() {
        let n = input.read(&mut room[done..])?;
        if n == 0 {
            return Ok(done);
        }
        done += n;
    }
    Ok(done)
}
