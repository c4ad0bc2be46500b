// Jobs: a machine and its cells as records of bytes, loaded.

#![tactic(auto)]

ghost use Rattle.std.specs.Prelude.{◌≡◌};
ghost use Rattle.machine.specs.State.{fresh_machine};
ghost use Rattle.job.specs.Job.{load_of};
ghost use Rattle.job.specs.Answers.{load_with};

mod reading;
mod records;

use lent::clear;
use machine::{Machine, good_cells};
use reading::{carry_out, examine};
use refusal::Refusal;

// A refusal, and the offset of the record that has it.
#[derive(Clone, Copy, Debug, PartialEq, Eq)]
pub struct Refused {
    pub why: Refusal,
    pub offset: usize,
}

impl Refused {
    // The machine of a refused load: a fresh one, with zeros for the host's words, whatever the host gave.
    #[tactic(auto, unfolding(machine::specs::State::fresh_machine))]
    pub fn machine(self) -> Machine
        ensures { result ≡ fresh_machine }
    {
        Machine::fresh()
    }
}

// A job, with the host's words, into the cells that the host lends: the machine and the cells that it holds, or the first refusal with
// nothing written. The job's own words decide over the host's.
pub fn load(job: &[u8], host: [u32; 5], cells: &mut [u32]) -> Result<Machine, Refused>
    ensures { load_with result cells.new ≡ load_of job.now host cells.old }
{
    if !good_cells(cells.len()) {
        return Err(Refused {
            why: Refusal::Cells,
            offset: 0,
        });
    }
    examine(job, cells.len())?;
    clear(cells);
    let mut machine = Machine {
        host,
        ..Machine::fresh()
    };
    carry_out(job, &mut machine, cells);
    Ok(machine)
}
