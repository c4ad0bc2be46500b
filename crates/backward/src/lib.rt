// The call back: a machine by value, over cells and a journal that the host lends. PC and settings come once, from the last entry taken back.

#![tactic(auto)]

ghost use Rattle.std.specs.Prelude.{◌≡◌, cond, List, ℕ, ◌≤◌, ltb};
ghost use Rattle.machine.specs.declared.Settings.{Settings};
ghost use Rattle.machine.specs.State.{state_of, capacity_of};
ghost use Rattle.machine.specs.Stops.{said_of, plainly};
ghost use Rattle.call.specs.Calls.{stop_at, back_from, back_of};
ghost use Rattle.call.specs.Answers.{out_of};
ghost use Rattle.backward.specs.Reached.{machine_with, reached};

use call::{Ran, check, lesser};
use journal::{Entry, entry_in, take_back};
use machine::{Machine, Stop, capacity};
use packed::unpack;

// How going back stopped, where no entry is damaged.
fn stop_of(depth: u32, number: u64) -> Stop
    ensures { said_of result ≡ plainly (cond (ltb depth number) 8 0) }
{
    if (depth as u64) < number {
        return Stop::Start;
    }
    Stop::Done
}

// What going back comes to: how many steps it took back, and why it stopped.
#[derive(Drop)]
struct Undone {
    count: u32,
    stop: Stop,
}

// As many steps back as the number says, or up to a stop, over lent registers. The journal is not written.
fn back_over(
    regs: &mut [u32; 256],
    cells: &mut [u32],
    journal: &[u32],
    depth: u32,
    number: u64,
) -> Undone
    requires { depth ≤ capacity_of journal.now }
    ensures few { result.count ≤ depth }
    ensures none { result.count ≡ 0 → regs.new ≡ regs.old }
    ensures left { (s : Settings) (host : List ℕ)
        → stop_at (said_of result.stop) result.count (reached (machine_with regs.old s depth host) result.count regs.new cells.new journal.now)
        ≡ back_from number 0 (state_of (machine_with regs.old s depth host) cells.old journal.now) }
{
    let total = lesser(number, depth);
    let mut at = Entry::WORDS * (depth as usize);
    for count in 0..total {
        let from = at - Entry::WORDS;
        if take_back(regs, cells, entry_in(&journal[from..at])).is_err() {
            return Undone {
                count,
                stop: Stop::Damaged,
            };
        }
        at = from;
    }
    Undone {
        count: total,
        stop: stop_of(depth, number),
    }
}

// The machine after so many steps back: PC and settings are those of the last entry taken back.
fn machine_after(m: Machine, journal: &[u32], undone: u32) -> Machine
    requires { (undone ≤ m.depth) × (m.depth ≤ capacity_of journal.now) }
    ensures { (cells : List ℕ) → state_of result cells journal.now ≡ reached m undone m.regs cells journal.now }
{
    if undone == 0 {
        return m;
    }
    let depth = m.depth - undone;
    let at = Entry::WORDS * (depth as usize);
    let e = entry_in(&journal[at..at + Entry::WORDS]);
    let mut regs = m.regs;
    regs[255] = e.pc;
    Machine {
        regs,
        settings: unpack(e.settings),
        depth,
        ..m
    }
}

// Going back that can begin: the host's words stay.
fn back_on(m: Machine, cells: &mut [u32], journal: &[u32], number: u64) -> Ran
    requires { m.depth ≤ capacity_of journal.now }
    ensures { out_of result cells.new journal.now ≡ back_from number 0 (state_of m cells.old journal.now) }
{
    let mut m = m;
    let depth = m.depth;
    let undone = back_over(&mut m.regs, cells, journal, depth, number);
    Ran {
        machine: machine_after(m, journal, undone.count),
        stop: undone.stop,
        count: undone.count as u64,
    }
}

// Back by a number of steps: the last step taken back until the number is done or a stop is named.
pub fn back(m: Machine, cells: &mut [u32], journal: &[u32], number: u64) -> Ran
    ensures { out_of result cells.new journal.now ≡ back_of number (state_of m cells.old journal.now) }
{
    match check(cells.len(), m.settings, capacity(journal.len()), m.depth) {
        Ok(()) => back_on(m, cells, journal, number),
        Err(stop) => Ran {
            machine: m,
            stop,
            count: 0,
        },
    }
}
