// What becomes of a job: it is loaded and run, which gives a value, and the value is put as text into lent room.

#![tactic(auto)]

ghost use Rattle.std.specs.Prelude.{◌≡◌};
ghost use Rattle.outcome.specs.Outcome.{outcome_of};
ghost use Rattle.outcome.specs.Answers.{end_of, machine_in, outcome_with};
ghost use Rattle.outcome.specs.Told.{told_of, Told};

mod lines;

use call::Ran;
use intake::{Intake, Refused, put_refused, take_in};
use lines::put_ran;

// What `runjob` lends and grants to a job: the cells, the journal's entries and its words, the budget; the longest input, and the
// longest text.
#[derive(Clone, Copy)]
pub struct Sizes;

impl Sizes {
    pub const CELLS: usize = Intake::CELLS;

    pub const ENTRIES: usize = 400;

    pub const WORDS: usize = 8 * Sizes::ENTRIES;

    pub const BUDGET: u64 = 400;

    pub const INPUT: usize = Intake::INPUT;

    pub const TEXT: usize = 4164;
}

// Loads an input's job into the cells and runs it over them and the journal. The machine of a refused job is the one that
// its refusal answers.
pub fn run_job(input: &[u8], cells: &mut [u32], journal: &mut [u32]) -> Result<Ran, Refused>
    ensures { outcome_with result cells.new journal.new ≡ outcome_of input.now cells.old journal.old }
{
    let machine = take_in(input, cells)?;
    Ok(forward::run(machine, cells, journal, Sizes::BUDGET))
}

// Puts what became of a job into a text from a place on, and answers where that ends.
pub fn put_outcome(text: &mut [u8], at: usize, outcome: Result<Ran, Refused>) -> usize
    ensures { Told text.old at (told_of (end_of outcome) (machine_in outcome)) text.new result }
{
    match outcome {
        Ok(ran) => put_ran(text, at, &ran),
        Err(refused) => put_refused(text, at, refused),
    }
}
