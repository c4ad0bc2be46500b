// The calls run, profile run and step: a machine by value, over cells and a journal that the host lends. One loop for both kinds of run: one
// counter, one test of PC, and the stops told apart after it.

#![tactic(auto)]

ghost use Rattle.std.specs.Prelude.{◌≡◌, ◌≤◌, length};
ghost use Rattle.machine.specs.State.{state_of, capacity_of, most_cells, InRange};
ghost use Rattle.machine.specs.declared.Kind.TheVariants.{Plain, Profile};
ghost use Rattle.packed.specs.Packed.{unpacked_of};
ghost use Rattle.call.specs.Calls.{run_from, run_of};
ghost use Rattle.call.specs.Answers.{out_of};
ghost use Rattle.cell.specs.Cell.{decode_of};
ghost use Rattle.effect.specs.Action.{action_of};
ghost use Rattle.carried.specs.Left.{left, left_of, before};
ghost use Rattle.forward.specs.Inner.{out_by, held_of};

mod after;

use after::{Upshot, finish, halt, refused};
use call::{Ran, check_run, lesser};
use carried::Step;
use guard::{guard_of, limit_of, writes_code};
use instruction::carry_out;
use journal::Entry;
use machine::{Kind, Machine, Stop, capacity, index_of};
use packed::pack;
use stopped::stops;

// What a run is asked for: its kind, how many steps, and how many entries the journal has room for.
#[derive(Clone, Copy)]
struct Plan {
    kind: Kind,
    budget: u64,
    most: u32,
}

// An instruction carried out over a part of the journal, by a step that has told nothing yet: the settings that it leaves, and what it told.
fn carry(
    part: &mut [u32],
    regs: &mut [u32; 256],
    cells: &mut [u32],
    host: &[u32; 5],
    settings: u32,
    cell: u32,
) -> (u32, u32)
    ensures { left regs.new cells.new part.new result.0 result.1
        ≡ left_of 0 (action_of (decode_of cell)) (before regs.old settings host.now cells.old part.old) }
{
    let mut step = Step {
        part,
        regs,
        settings,
        told: 0,
    };
    carry_out(&mut step, cells, host, cell);
    (step.settings, step.told)
}

// As many steps as the budget says, or up to a stop, over lent registers and settings that are one word. Flag 256 is set once, at the end.
fn run_over(
    regs: &mut [u32; 256],
    host: &[u32; 5],
    cells: &mut [u32],
    journal: &mut [u32],
    plan: Plan,
    settings: u32,
    depth: u32,
) -> Upshot
    requires { InRange (unpacked_of settings) × (depth ≤ plan.most) × (plan.most ≡ capacity_of journal.old) × (length cells.old ≤ most_cells) }
    ensures { out_by result regs.new host.now cells.new journal.new
        ≡ run_from plan.kind plan.budget 0 (held_of regs.old settings depth host.now cells.old journal.old) }
{
    let kind = plan.kind;
    let budget = plan.budget;
    let mut s = settings;
    let limit = limit_of(kind, cells.len());
    let guard = guard_of(kind);
    let total = lesser(budget, plan.most - depth);
    let mut at = Entry::WORDS * (depth as usize);
    let mut left = total;
    // as a for over 0..total a step costs 1.0 more
    while 0 < left {
        let done = total - left;
        let p = index_of(regs[255]);
        if limit <= p {
            return finish(regs, kind, limit, s, depth, done, budget);
        }
        let cell = cells[p];
        if writes_code(regs, cells.len(), cell, guard) {
            return refused(s, depth, done, Stop::Overwrite);
        }
        let part = &mut journal[at..at + Entry::WORDS];
        let (settings, told) = carry(part, regs, cells, host, s, cell);
        s = settings;
        if 0 < told && stops(s, told) {
            return halt(regs, s, depth, done, told, cell);
        }
        at += Entry::WORDS;
        left -= 1;
    }
    finish(regs, kind, limit, s, depth, total, budget)
}

// A run that can begin: the host's words are lent to it and stay.
fn run_on(m: Machine, cells: &mut [u32], journal: &mut [u32], plan: Plan) -> Ran
    requires { (m.depth ≤ plan.most) × (plan.most ≡ capacity_of journal.old) × InRange m.settings × (length cells.old ≤ most_cells) }
    ensures { out_of result cells.new journal.new ≡ run_from plan.kind plan.budget 0 (state_of m cells.old journal.old) }
{
    let mut m = m;
    let host = m.host;
    let settings = pack(m.settings);
    let depth = m.depth;
    let upshot = run_over(&mut m.regs, &host, cells, journal, plan, settings, depth);
    Ran {
        machine: Machine {
            settings: upshot.settings,
            depth: upshot.depth,
            ..m
        },
        stop: upshot.stop,
        count: upshot.count,
    }
}

// A run of either kind.
fn run_by(m: Machine, cells: &mut [u32], journal: &mut [u32], kind: Kind, budget: u64) -> Ran
    ensures { out_of result cells.new journal.new ≡ run_of kind budget (state_of m cells.old journal.old) }
{
    let most = capacity(journal.len());
    match check_run(kind, cells, m.settings, most, m.depth) {
        Ok(()) => run_on(m, cells, journal, Plan { kind, budget, most }),
        Err(stop) => Ran {
            machine: m,
            stop,
            count: 0,
        },
    }
}

// A run of a budget: the step repeated until the budget is done or a stop is named.
pub fn run(m: Machine, cells: &mut [u32], journal: &mut [u32], budget: u64) -> Ran
    ensures { out_of result cells.new journal.new ≡ run_of Plain budget (state_of m cells.old journal.old) }
{
    run_by(m, cells, journal, Kind::Plain, budget)
}

// The same of a rule that only goes forward, in cells 0 to l-1: the rule is checked first, PC stays in it and nothing is stored there.
pub fn profile_run(m: Machine, cells: &mut [u32], journal: &mut [u32], l: usize, budget: u64) -> Ran
    ensures { out_of result cells.new journal.new ≡ run_of (Profile l) budget (state_of m cells.old journal.old) }
{
    run_by(m, cells, journal, Kind::Profile(l), budget)
}

// One step: a run that has no more to do.
pub fn step(m: Machine, cells: &mut [u32], journal: &mut [u32]) -> Ran
    ensures { out_of result cells.new journal.new ≡ run_of Plain 1 (state_of m cells.old journal.old) }
{
    run(m, cells, journal, 1)
}
