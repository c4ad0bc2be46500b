// Whether a job's code is a rule that only goes forward: the job is loaded and checked, which gives a value, and the value is put as
// text into lent room.

#![tactic(auto)]

ghost use Rattle.std.specs.Prelude.{◌≡◌, ◌≤◌, length};
ghost use Rattle.machine.specs.State.{most_cells};
ghost use Rattle.verdict.specs.declared.Unfit.TheVariants.{Refused};
ghost use Rattle.verdict.specs.Verdict.{checked_to, found_in, verdict_of, cells_of};
ghost use Rattle.verdict.specs.Told.{told_of, Told};

mod found;
mod lines;

use found::{first_count, length_in, starts_at_zero};
use intake::{Refused, put_refused, take_in};
use lines::{put_bad_cell, put_bad_length, put_forward_only, put_no_start};
use profile::{BadRule, Flaw, first_bad};

// The longest text.
pub const TEXT: usize = 128;

// Why a job's code is not a rule that only goes forward: it does not load; with no argument, its first record does not begin at cell 0;
// L is not 1 to the most; or the first cell that is not allowed, where it stands, and why.
#[derive(Clone, Copy, Debug, PartialEq, Eq)]
pub enum Unfit {
    Refused(Refused),
    NoStart,
    BadLength { most: usize },
    BadCell { place: usize, cell: u32, flaw: Flaw },
}

impl From<Refused> for Unfit {
    ghost from_gives = { λ refused unfit. unfit ≡ Refused refused };

    fn from(refused: Refused) -> Unfit {
        Unfit::Refused(refused)
    }
}

// Checks the first cells, as many as L says, and answers L: a rule that only goes forward does at most so many steps.
fn check_cells(l: usize, cells: &[u32]) -> Result<usize, Unfit>
    ensures { result ≡ checked_to l cells.now }
{
    match first_bad(cells, l) {
        Ok(()) => Ok(l),
        Err(BadRule::Length) => Err(Unfit::BadLength { most: cells.len() }),
        Err(BadRule::Cell { place, flaw }) => Err(Unfit::BadCell {
            place,
            cell: cells[place],
            flaw,
        }),
    }
}

// Finds L, as the argument says it, or as the first record has it where there is none, and checks a loaded job's cells.
fn check_loaded(job: &[u8], argument: &[u8], cells: &[u32]) -> Result<usize, Unfit>
    requires { length cells.now ≤ most_cells }
    ensures { result ≡ found_in job.now argument.now cells.now }
{
    if !argument.is_empty() {
        return check_cells(length_in(argument, cells.len()), cells);
    }
    if !starts_at_zero(job) {
        return Err(Unfit::NoStart);
    }
    check_cells(first_count(job), cells)
}

// Loads an input's job into the cells and checks the code that begins at cell 0, of as many cells as the argument says.
pub fn check_job(input: &[u8], argument: &[u8], cells: &mut [u32]) -> Result<usize, Unfit>
    ensures verdict { result ≡ verdict_of input.now argument.now cells.old }
    ensures cells { cells.new ≡ cells_of input.now cells.old }
{
    take_in(input, cells)?;
    check_loaded(input, argument, cells)
}

// Puts a verdict into a text from a place on, and answers where it ends.
pub fn put_verdict(text: &mut [u8], at: usize, verdict: Result<usize, Unfit>) -> usize
    ensures { Told text.old at (told_of verdict) text.new result }
{
    match verdict {
        Ok(l) => put_forward_only(text, at, l),
        Err(Unfit::Refused(refused)) => put_refused(text, at, refused),
        Err(Unfit::NoStart) => put_no_start(text, at),
        Err(Unfit::BadLength { most }) => put_bad_length(text, at, most),
        Err(Unfit::BadCell { place, cell, flaw }) => put_bad_cell(text, at, place, cell, flaw),
    }
}
