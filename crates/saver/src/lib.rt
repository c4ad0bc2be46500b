// A machine and its cells saved as a job.

#![tactic(auto)]

ghost use Rattle.std.specs.Prelude.{◌≡◌};
ghost use Rattle.saver.specs.Saving.{save_of};
ghost use Rattle.saver.specs.Answers.{save_with};

mod writing;

use machine::{Machine, good_cells, good_settings};
use refusal::Refusal;
use writing::put_job;

// A machine and its cells as a job in the room that the host lends: its length, or a refusal with nothing written. The job's size is what
// the writer answers where it finds no room.
pub fn save(machine: Machine, cells: &[u32], room: &mut [u8]) -> Result<usize, Refusal>
    ensures { save_with result room.new ≡ save_of machine cells.now room.old }
{
    if !good_cells(cells.len()) {
        return Err(Refusal::Cells);
    }
    if !good_settings(machine.settings) {
        return Err(Refusal::Unsettled);
    }
    let size = put_job(&mut [], &machine, cells);
    if room.len() < size {
        return Err(Refusal::Room);
    }
    put_job(room, &machine, cells);
    Ok(size)
}
