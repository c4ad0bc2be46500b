// Reads a job from standard input, checks its first cells, as many as the argument says, as a rule that only goes forward, and writes
// what the check says to standard output.

#![tactic(auto)]

ghost use Rattle.std.specs.Prelude.{◌≡◌, ◌≤◌, length, take};
ghost use Rattle.verdict.specs.Told.{text_of};

use intake::{Intake, read_full};
use std::env::{Env, FillError};
use std::io;
use std::io::Write;

// Puts the whole text of what the check says of an input, and answers its length.
#[tactic(auto, using(text::proofs::Adds::added_front), unfolding(verdict::specs::Told::text_of))]
fn tell(input: &[u8], argument: &[u8], text: &mut [u8; verdict::TEXT]) -> usize
    ensures within { result ≤ length text.new }
    ensures whole { take result text.new ≡ text_of input.now argument.now }
{
    let mut cells = [0u32; Intake::CELLS];
    let verdict = verdict::check_job(input, argument, &mut cells);
    verdict::put_verdict(text, 0, verdict)
}

// Takes the argument, and answers its length. A longer one than its room is no L, and neither are the bytes there that it begins with.
fn take_argument(rt: &impl Env, word: &mut [u8]) -> usize
    ensures { result ≤ length word.new }
{
    match rt.arg(1, word) {
        Ok(size) => size,
        Err(FillError::TooLong) => word.len(),
        Err(FillError::NotPresent) => 0,
    }
}

// One byte more than a job may have, so that a longer input is seen to be too long.
fn main(rt: HostRuntime) -> io::Result<()> {
    let mut input = [0u8; Intake::INPUT + 1];
    let mut word = [0u8; 8];
    let mut text = [0u8; verdict::TEXT];
    let read = read_full(&mut rt.stdin(), &mut input)?;
    let size = take_argument(&rt, &mut word);
    let end = tell(&input[..read], &word[..size], &mut text);
    rt.stdout().write_all(&text[..end])
}
