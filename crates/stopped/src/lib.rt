// How a run stopped: whether a step that told something stops it, which stop it is, and the settings with flag 256. All but the first is asked once,
// after the loop.

#![tactic(auto)]

ghost use Rattle.std.specs.Prelude.{◌≡◌};
ghost use Rattle.machine.specs.Stops.{said_of, plainly};
ghost use Rattle.packed.specs.Packed.{unpacked_of};
ghost use Rattle.journal.specs.Journal.{settled_of};
ghost use Rattle.step.specs.Step.{outside};
ghost use Rattle.stopped.specs.Stopped.{stopping, refusal_by, stop_after, number_of};

use carried::Told;
use cell::{imm_of, n_of};
use machine::{Address, Kind, Settings, Stop};
use packed::unpack;
use word::Flag;

// Whether a step that told something stops the run.
pub fn stops(s: u32, told: u32) -> bool
    ensures { result ≡ stopping told s }
{
    Told::INT <= told || unpack(s).mask & told != 0
}

// Settings, with flag 256 if it is due.
pub fn settled(s: u32, due: bool) -> Settings
    ensures { result ≡ settled_of due (unpacked_of s) }
{
    let settings = unpack(s);
    if due {
        return Settings {
            flags: settings.flags | Flag::TERMINATION,
            ..settings
        };
    }
    settings
}

// The stop of a step that was refused: 5, 6 or 13.
pub fn refusal(told: u32) -> Stop
    ensures { said_of result ≡ refusal_by told }
{
    match told {
        Told::FAULT => Stop::Fault,
        Told::FLOAT => Stop::Float,
        _ => Stop::Wild,
    }
}

// The stop after a step that is done and stops: 1, 3, 2.
pub fn stop_after(regs: &[u32; 256], told: u32, cell: u32) -> Stop
    ensures { said_of result ≡ stop_after told regs.now cell }
{
    if Address::FLAGS <= regs[255] {
        return Stop::Ended;
    }
    if told == Told::INT {
        return Stop::Int {
            value: regs[n_of(cell) as usize],
            imm: imm_of(cell),
        };
    }
    Stop::Trap
}

// The stop of a PC that is past the cells that a run may fetch from and has not ended.
pub fn stop_outside(kind: Kind) -> Stop
    ensures { said_of result ≡ plainly (outside kind) }
{
    match kind {
        Kind::Plain => Stop::Fetch,
        Kind::Profile(_) => Stop::Outside,
    }
}

// How a run stopped that no step stopped.
pub fn stop_of(pc: u32, kind: Kind, limit: usize, done: u64, budget: u64) -> Stop
    ensures { said_of result ≡ plainly (number_of kind done budget limit pc) }
{
    if 0 < done && Address::FLAGS <= pc {
        return Stop::Ended;
    }
    if done == budget {
        return Stop::Done;
    }
    if Address::FLAGS <= pc {
        return Stop::Ended;
    }
    if limit <= pc as usize {
        return stop_outside(kind);
    }
    Stop::Full
}
