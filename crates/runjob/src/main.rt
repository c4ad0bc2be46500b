// Reads a job from standard input, runs it, and writes what became of it to standard output.

#![tactic(auto)]

ghost use Rattle.std.specs.Prelude.{◌≡◌, ◌≤◌, length, take};
ghost use Rattle.outcome.specs.Told.{text_of};

use intake::read_full;
use outcome::Sizes;
use std::io;
use std::io::Write;

// Puts the whole text of what became of an input, and answers its length.
#[tactic(auto, using(text::proofs::Adds::added_front), unfolding(outcome::specs::Told::text_of))]
fn tell(input: &[u8], text: &mut [u8; Sizes::TEXT]) -> usize
    ensures within { result ≤ length text.new }
    ensures whole { take result text.new ≡ text_of input.now }
{
    let mut cells = [0u32; Sizes::CELLS];
    let mut journal = [0u32; Sizes::WORDS];
    let outcome = outcome::run_job(input, &mut cells, &mut journal);
    outcome::put_outcome(text, 0, outcome)
}

// One byte more than a job may have, so that a longer input is seen to be too long.
fn main(rt: HostRuntime) -> io::Result<()> {
    let mut input = [0u8; Sizes::INPUT + 1];
    let mut text = [0u8; Sizes::TEXT];
    let read = read_full(&mut rt.stdin(), &mut input)?;
    let end = tell(&input[..read], &mut text);
    rt.stdout().write_all(&text[..end])
}
