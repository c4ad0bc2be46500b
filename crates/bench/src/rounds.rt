// Rounds of a run forward and a run back, and what is told of them.
use call::Ran;
use machine::Machine;

// How far a round goes forward.
const BUDGET: u64 = 65536;

// What is told: the last stop forward, the steps forward and back of all rounds, and the sum of the registers.
#[derive(Drop)]
pub(crate) struct Tally {
    pub stop: u64,
    pub forward: u64,
    pub back: u64,
    pub sum: u32,
}

// The sum x after the registers, in order: with each it becomes x*31 + register, modulo 2^32.
fn sum(x: u32, regs: &[u32; 256]) -> u32 {
    regs.iter().fold(x, |x, register| x.wrapping_mul(31).wrapping_add(*register))
}

// The tally after a round whose run forward and number of steps back are given.
fn add_up(told: Tally, ran: &Ran, back: u64) -> Tally {
    Tally {
        stop: ran.stop.number(),
        forward: told.forward.wrapping_add(ran.count),
        back: told.back.wrapping_add(back),
        sum: sum(told.sum, &ran.machine.regs),
    }
}

// The tally after as many rounds as asked, of a run forward and as many steps back as asked.
pub(crate) fn go_round(
    m: Machine,
    cells: &mut [u32],
    journal: &mut [u32],
    times: u32,
    number: u64,
) -> Tally {
    let mut state = m;
    let mut told = Tally {
        stop: 0,
        forward: 0,
        back: 0,
        sum: 0,
    };
    for _ in 0..times {
        let ran = forward::run(state, cells, journal, BUDGET);
        let returned = backward::back(ran.machine, cells, journal, number);
        told = add_up(told, &ran, returned.count);
        state = returned.machine;
    }
    told
}
