// The text of an outcome, line by line. A text and its places are apart, as `text` says.
ghost use Rattle.std.specs.Prelude.{◌≤◌, ◌<◌, length, take};
ghost use Rattle.machine.specs.Stops.{said_of};
ghost use Rattle.text.specs.Text.{Added};
ghost use Rattle.outcome.specs.Told.{exit_text, register_text, registers_text, ran_text, Told};

use call::Ran;
use text::{put, put_number};

// Puts the line of a run: its four numbers are taken one by one, as `exit_text` takes them.
fn put_exit(text: &mut [u8], at: usize, stop: u64, count: u64, pc: u32, flags: u32) -> usize
    ensures added { Added text.old at (exit_text stop count pc flags) text.new result }
    ensures short { length (exit_text stop count pc flags) ≤ 84 }
{
    let a = put_number(text, at, b"exit ", stop);
    let b = put_number(text, a, b" steps ", count);
    let c = put_number(text, b, b" pc ", pc as u64);
    let d = put_number(text, c, b" flags ", flags as u64);
    put(text, d, b"\n")
}

// Puts the line of a register, unless it is 0.
fn put_register(text: &mut [u8], at: usize, i: usize, value: u32) -> usize
    requires { (at ≤ length text.old) × (i < 255) }
    ensures added { Added text.old at (register_text i value) text.new result }
    ensures short { length (register_text i value) ≤ 16 }
{
    if value == 0 {
        return at;
    }
    let a = put_number(text, at, b"R", i as u64);
    let b = put_number(text, a, b" ", value as u64);
    put(text, b, b"\n")
}

// Puts the line of each register that is not 0, up to 254.
fn put_registers(text: &mut [u8], at: usize, regs: &[u32; 256]) -> usize
    requires { at ≤ length text.old }
    ensures added { Added text.old at (registers_text 0 (take 255 regs.now)) text.new result }
    ensures short { length (registers_text 0 (take 255 regs.now)) ≤ 4080 }
{
    let mut end = at;
    for (i, value) in regs[..255].iter().enumerate() {
        end = put_register(text, end, i, *value);
    }
    end
}

// Puts the lines of a run.
pub(crate) fn put_ran(text: &mut [u8], at: usize, ran: &Ran) -> usize
    ensures { Told text.old at (ran_text (said_of ran.now.stop).number ran.now.count ran.now.machine) text.new result }
{
    let machine = &ran.machine;
    let flags = machine.settings.flags;
    let a = put_exit(
        text,
        at,
        ran.stop.number(),
        ran.count,
        machine.regs[255],
        flags,
    );
    put_registers(text, a, &machine.regs)
}
