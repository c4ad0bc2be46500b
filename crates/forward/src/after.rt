// What a run leaves beside registers, cells and journal: the stops are told apart once, after the loop, and flag 256 is set there. Settings,
// depth and steps done go together in these calls alone: a struct made for each would be no plainer.
ghost use Rattle.std.specs.Prelude.{◌≡◌, true, List, ◌⊎◌, ℕ, ◌+◌, ◌-◌, ◌≤◌, ◌<◌, length};
ghost use Rattle.machine.specs.State.{State, capacity_of, pc_of};
ghost use Rattle.machine.specs.Stops.{said_of};
ghost use Rattle.step.specs.Step.{code_of};
ghost use Rattle.call.specs.Calls.{Out, stop_at};
ghost use Rattle.stopped.specs.Stopped.{stopping};
ghost use Rattle.forward.specs.Inner.{out_by, held_of, moved_by, go_on_by, resume_of};

use carried::Told;
use machine::{Address, Kind, Settings, Stop};
use packed::unpack;
use stopped::{refusal, settled, stop_after, stop_of};

// What a run comes to: all that it leaves but the registers, which it was lent, and the host's words, which are as they were.
#[derive(Drop)]
pub(crate) struct Upshot {
    pub settings: Settings,
    pub depth: u32,
    pub stop: Stop,
    pub count: u64,
}

// What a run leaves whose next step is refused.
pub(crate) fn refused(s: u32, depth: u32, done: u32, stop: Stop) -> Upshot
    requires { depth + done < 65536 }
    ensures { (regs host cells journal : List ℕ) → out_by result regs host cells journal ≡ stop_at (said_of stop) done (held_of regs s (depth + done) host cells journal) }
{
    Upshot {
        settings: unpack(s),
        depth: depth + done,
        stop,
        count: done as u64,
    }
}

// What a run leaves that a step stopped, done or refused.
pub(crate) fn halt(regs: &[u32; 256], s: u32, depth: u32, done: u32, told: u32, cell: u32) -> Upshot
    requires { (depth + done < 65536) × (stopping told s ≡ true) }
    ensures { (rest : ℕ → State → Out) (host cells journal : List ℕ) → out_by result regs.now host cells journal ≡ go_on_by rest done (moved_by told regs.now s cell (depth + done) host cells journal) }
{
    if Told::FAULT <= told {
        return refused(s, depth, done, refusal(told));
    }
    Upshot {
        settings: settled(s, Address::FLAGS <= regs[255]),
        depth: depth + done + 1,
        stop: stop_after(regs, told, cell),
        count: done as u64 + 1,
    }
}

// What a run leaves that no step stopped: PC is outside the code, the budget is done, or the journal is full.
pub(crate) fn finish(
    regs: &[u32; 256],
    kind: Kind,
    limit: usize,
    s: u32,
    depth: u32,
    done: u32,
    budget: u64,
) -> Upshot
    requires { (depth + done ≤ 65536) × (done ≤ budget) }
    ensures { (host cells journal : List ℕ) → limit ≡ code_of kind (length cells)
        → (limit ≤ pc_of regs.now) ⊎ ((done ≡ budget) ⊎ (capacity_of journal ≤ depth + done))
        → out_by result regs.now host cells journal ≡ resume_of kind (budget - done) done regs.now s (depth + done) host cells journal }
{
    let pc = regs[255];
    Upshot {
        // && would say no more, and ask a case more of the proof
        settings: settled(s, (0 < done) & (Address::FLAGS <= pc)),
        depth: depth + done,
        stop: stop_of(pc, kind, limit, done as u64, budget),
        count: done as u64,
    }
}
