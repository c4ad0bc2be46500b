// The calls that repeat a step: what a call begins with, and what it leaves beside cells and journal.

#![tactic(auto)]

ghost use Rattle.std.specs.Prelude.{◌≡◌, min};
ghost use Rattle.call.specs.Calls.{check_of, said_by, begins_of};
ghost use Rattle.call.specs.Answers.{checked_of};

use machine::{Kind, Machine, Settings, Stop, good_cells, good_settings};
use profile::first_bad;

// What a call leaves beside cells and journal.
#[derive(Clone, Copy)]
pub struct Ran {
    pub machine: Machine,
    pub stop: Stop,
    pub count: u64,
}

// The stops that keep a call from beginning, in their order: 12, 10, 11.
pub fn check(size: usize, s: Settings, most: u32, depth: u32) -> Result<(), Stop>
    ensures { checked_of result ≡ said_by (check_of size s most depth) }
{
    if !good_cells(size) {
        return Err(Stop::Cells);
    }
    if !good_settings(s) {
        return Err(Stop::Unsettled);
    }
    if most < depth {
        return Err(Stop::Deep);
    }
    Ok(())
}

// The stops that keep a run from beginning: those of every call, then 60 of a profile's rule.
pub fn check_run(kind: Kind, cells: &[u32], s: Settings, most: u32, depth: u32) -> Result<(), Stop>
    ensures { checked_of result ≡ begins_of kind cells.now s most depth }
{
    check(cells.len(), s, most, depth)?;
    if let Kind::Profile(l) = kind {
        first_bad(cells, l)?;
    }
    Ok(())
}

// The lesser of the number of steps asked for and the most that the journal lets a call do.
pub fn lesser(number: u64, most: u32) -> u32
    ensures { result ≡ min number most }
{
    number.min(most as u64) as u32
}
