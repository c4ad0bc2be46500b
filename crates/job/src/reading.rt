// Reading a job: its first refusal, and then its records carried out.
ghost use Rattle.std.specs.Prelude.{◌≡◌, ◌+◌, ◌*◌, ◌≤◌, length, set};
ghost use Rattle.std.proofs.Math.Option.{none};
ghost use Rattle.std.proofs.lemmas.List.Edits.{sets};
ghost use Rattle.job.specs.Job.{register_of, register_value, nothing_yet, fate_of, payload_fate, refusal_from, base_of, cells_in, words_of, content_of, content_from};
ghost use Rattle.job.specs.Inner.{looked_of, noticed, content_with, Sized, Sound};

use crate::Refused;
use crate::records::{
    Kind, Past, Row, ends, fits, in_order, known, passed, row_by, settings_in, settled, within,
};
use lent::number;
use machine::Machine;
use refusal::Refusal;

// What becomes of a record that is not refused: it is the last, or on to the next. No Option, since the definition's `Fate` names both.
#[derive(Drop)]
pub(crate) enum Look {
    Last,
    Next { size: usize, past: Past },
}

// A record's payload: 46, 45, 10. Past, row and payload are taken one by one, as `payload_fate` takes them.
fn look_in(m: usize, past: Past, row: Row, payload: &[u8]) -> Result<Look, Refusal>
    requires { Sized row.kind (length payload.now) }
    ensures { looked_of result ≡ payload_fate m past row payload.now (length payload.now) }
{
    if !in_order(past, row, payload) {
        return Err(Refusal::Order);
    }
    let kind = row.kind;
    if !within(m, kind, payload) {
        return Err(Refusal::Space);
    }
    if !settled(kind, payload) {
        return Err(Refusal::Unsettled);
    }
    if ends(kind) {
        return Ok(Look::Last);
    }
    Ok(Look::Next {
        size: 6 + payload.len(),
        past: passed(past, row, payload),
    })
}

// A record where it begins: 41, 42, 43, 44, and then its payload.
fn look_at(m: usize, past: Past, left: &[u8]) -> Result<Look, Refusal>
    ensures { looked_of result ≡ fate_of m past left.now }
{
    if left.len() < 6 {
        return Err(Refusal::Short);
    }
    let row = row_by(number(left, 4, 2));
    let kind = row.kind;
    if !known(kind) {
        return Err(Refusal::Unknown);
    }
    let size = number(left, 0, 4);
    if !fits(row, size) {
        return Err(Refusal::Length);
    }
    let end = 6 + size as usize;
    if left.len() < end {
        return Err(Refusal::Cut);
    }
    look_in(m, past, row, &left[6..end])
}

// A job's first refusal, or none.
pub(crate) fn examine(job: &[u8], m: usize) -> Result<(), Refused>
    ensures { noticed result ≡ refusal_from (length job.now) m job.now 0 nothing_yet }
{
    let mut at = 0;
    let mut past = Past {
        rank: 0,
        end: 0,
        next: 0,
    };
    // A turn goes on by the record's size: no `for` is plainer.
    while let Look::Next { size, past: seen } = look_at(m, past, &job[at..]).map_err(|why| Refused {
        why,
        offset: at,
    })? {
        at += size;
        past = seen;
    }
    let end = at + 6;
    if end < job.len() {
        return Err(Refused {
            why: Refusal::After,
            offset: end,
        });
    }
    Ok(())
}

// Each word of the part is read from its four bytes: they are lent alone, so that how many there are is known where they are read.
fn put_words(part: &mut [u32], words: &[u8])
    requires words_hold { 4 * length part.old ≤ length words.now }
    ensures { part.new ≡ words_of (length part.old) words.now }
{
    for (i, cell) in part.iter_mut().enumerate() {
        *cell = number(&words[4 * i..4 * i + 4], 0, 4);
    }
}

// The run's cells, from the record's base on, are lent on.
fn put_run(cells: &mut [u32], payload: &[u8])
    requires { Sound (length cells.old) Kind.Run payload.now }
    ensures { cells.new ≡ sets cells.old (base_of payload.now) (cells_in payload.now) }
{
    let base = number(payload, 0, 2) as usize;
    let count = (payload.len() - 2) / 4;
    put_words(&mut cells[base..base + count], &payload[2..]);
}

// A register's value.
fn put_value(regs: &mut [u32; 256], payload: &[u8])
    ensures { regs.new ≡ set regs.old (register_of payload.now) (register_value payload.now) }
{
    regs[number(payload, 0, 1) as usize] = number(payload, 1, 4);
}

// One record carried out.
fn apply(kind: Kind, payload: &[u8], machine: &mut Machine, cells: &mut [u32])
    requires { Sound (length cells.old) kind payload.now }
    ensures content { content_with machine.new cells.new ≡ content_of kind payload.now (content_with machine.old cells.old) }
    ensures depth { machine.new.depth ≡ machine.old.depth }
{
    match kind {
        Kind::Run => put_run(cells, payload),
        Kind::Register => put_value(&mut machine.regs, payload),
        Kind::Setup => machine.settings = settings_in(payload),
        Kind::Host => put_words(&mut machine.host, payload),
        Kind::End | Kind::Other => {}
    }
}

// The records of a job that has no refusal, carried out one after the other.
pub(crate) fn carry_out(job: &[u8], machine: &mut Machine, cells: &mut [u32])
    requires { refusal_from (length job.now) (length cells.old) job.now 0 nothing_yet ≡ none }
    ensures content { content_with machine.new cells.new ≡ content_from (length job.now) job.now (content_with machine.old cells.old) }
    ensures depth { machine.new.depth ≡ machine.old.depth }
{
    let mut at = 0;
    // A turn goes on by the record's size: no `for` is plainer.
    loop {
        let left = &job[at..];
        let row = row_by(number(left, 4, 2));
        let kind = row.kind;
        if ends(kind) {
            return;
        }
        let end = 6 + number(left, 0, 4) as usize;
        apply(kind, &left[6..end], machine, cells);
        at += end;
    }
}
