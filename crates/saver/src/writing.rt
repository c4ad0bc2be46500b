// Writing a job. Each function stores its piece as far as it finds room and answers where the piece ends, so that the same code tells a
// job's size and writes it. Room and place go beside one another, as `text::put` takes them.
ghost use Rattle.std.specs.Prelude.{◌≡◌, [], ◌++◌, ◌+◌, ◌^◌, ◌≤◌, ◌<◌, length};
ghost use Rattle.machine.specs.State.{most_cells};
ghost use Rattle.lent.specs.Little.{bytes_of};
ghost use Rattle.saver.specs.Saving.{word_bytes, run_record, runs_from, value_record, values_from, fresh_of, setup_of, host_of, saved_of};
ghost use Rattle.saver.specs.Inner.{Stored, Fits};

use machine::{Machine, Settings};

// The bytes of a number, stored from a place on as far as they find room. It answers where they end.
fn put(room: &mut [u8], at: usize, width: usize, number: u32) -> usize
    requires end_bound { at + width < 2 ^ 64 }
    requires short { width ≤ 4 }
    ensures { Stored room.old at (bytes_of width number) room.new result }
{
    let all = lent::bytes(number);
    text::put(room, at, &all[..width]);
    at + width
}

// A record's head: the payload's length, and the kind by its number, as `record_of` has it.
fn put_head(room: &mut [u8], at: usize, size: u32, kind: u32) -> usize
    requires { at + 6 < 2 ^ 64 }
    ensures { Stored room.old at (bytes_of 4 size ++ bytes_of 2 kind) room.new result }
{
    let next = put(room, at, 4, size);
    put(room, next, 2, kind)
}

// Words, one after the other.
fn put_words(room: &mut [u8], at: usize, words: &[u32]) -> usize
    requires { Fits at (word_bytes words.now) }
    ensures { Stored room.old at (word_bytes words.now) room.new result }
{
    let mut next = at;
    for word in words {
        next = put(room, next, 4, *word);
    }
    next
}

// A run of cells with its base. A run of no cell is no record.
fn put_run(room: &mut [u8], at: usize, base: usize, run: &[u32]) -> usize
    requires { (base ≤ most_cells) × (length run.now ≤ most_cells) × Fits at (run_record base run.now) }
    ensures { Stored room.old at (run_record base run.now) room.new result }
{
    if run.is_empty() {
        return at;
    }
    let head = put_head(room, at, (2 + 4 * run.len()) as u32, 1);
    let next = put(room, head, 2, base as u32);
    put_words(room, next, run)
}

// Each maximal run of cells that are not 0.
fn put_runs(room: &mut [u8], at: usize, cells: &[u32]) -> usize
    requires { (length cells.now ≤ most_cells) × Fits at (runs_from 0 [] cells.now) }
    ensures { Stored room.old at (runs_from 0 [] cells.now) room.new result }
{
    let mut next = at;
    let mut base = 0;
    for (i, cell) in cells.iter().enumerate() {
        if *cell == 0 {
            next = put_run(room, next, base, &cells[base..i]);
            base = i + 1;
        }
    }
    put_run(room, next, base, &cells[base..])
}

// A register that is not 0.
fn put_value(room: &mut [u8], at: usize, register: usize, value: u32) -> usize
    requires { (register < 256) × Fits at (value_record register value) }
    ensures { Stored room.old at (value_record register value) room.new result }
{
    if value == 0 {
        return at;
    }
    let head = put_head(room, at, 5, 2);
    let next = put(room, head, 1, register as u32);
    put(room, next, 4, value)
}

// Each register that is not 0, rising.
fn put_values(room: &mut [u8], at: usize, regs: &[u32; 256]) -> usize
    requires { Fits at (values_from 0 regs.now) }
    ensures { Stored room.old at (values_from 0 regs.now) room.new result }
{
    let mut next = at;
    for (i, value) in regs.iter().enumerate() {
        next = put_value(room, next, i, *value);
    }
    next
}

// Whether settings are those of a fresh machine.
fn fresh(s: Settings) -> bool
    ensures { result ≡ fresh_of s }
{
    s == Machine::fresh().settings
}

// The settings, unless they are fresh.
fn put_setup(room: &mut [u8], at: usize, s: Settings) -> usize
    requires { at + 11 < 2 ^ 64 }
    ensures { Stored room.old at (setup_of s) room.new result }
{
    if fresh(s) {
        return at;
    }
    let head = put_head(room, at, 5, 3);
    let mask = put(room, head, 2, s.flags);
    let mode = put(room, mask, 2, s.mask);
    put(room, mode, 1, s.mode)
}

// The host's words.
fn put_host(room: &mut [u8], at: usize, words: &[u32; 5]) -> usize
    requires { at + 26 < 2 ^ 64 }
    ensures { Stored room.old at (host_of words.now) room.new result }
{
    let head = put_head(room, at, 20, 5);
    put_words(room, head, words)
}

// The job that a machine and its cells are saved as.
pub(crate) fn put_job(room: &mut [u8], machine: &Machine, cells: &[u32]) -> usize
    requires { length cells.now ≤ most_cells }
    ensures { Stored room.old 0 (saved_of machine.now cells.now) room.new result }
{
    let values = put_runs(room, 0, cells);
    let setup = put_values(room, values, &machine.regs);
    let host = put_setup(room, setup, machine.settings);
    let end = put_host(room, host, &machine.host);
    put_head(room, end, 0, 4)
}
