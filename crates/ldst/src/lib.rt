// 1, LDST: a store of Rn at Rm, then a load of Rn from Rl.

#![tactic(auto)]

ghost use Rattle.std.specs.Prelude.{◌≡◌, false, ℕ, ◌<◌, min, length, get_or, set};
ghost use Rattle.cell.specs.Cell.{n_of, m_of, l_of};
ghost use Rattle.machine.specs.State.{first_special, write_if};
ghost use Rattle.effect.specs.Action.{Ldst};
ghost use Rattle.effect.specs.Operands.{next_of, behind};
ghost use Rattle.effect.specs.Effect.{illegal_load, illegal_store};
ghost use Rattle.carried.specs.Left.{left_of, done_by};
ghost use Rattle.carried.specs.Step.{Lent, left_in, before_in};
ghost use Rattle.ldst.specs.Inner.{load_of, store_of, settings_of, kept_of, transfer_of};

use carried::{Step, Told, advance, entry_at, is_fault, operand};
use cell::{l_of, m_of, n_of};
use journal::{Entry, enter};
use machine::{Address, Settings, index_of};
use packed::{pack, unpack};

// Whether a load from p is illegal.
fn illegal_load(p: u32) -> bool
    ensures { result ≡ illegal_load p }
{
    Address::MODE < p && ((p < Address::HOST) | (Address::HOST_LAST < p))
}

// Whether a store of v at p is illegal.
fn illegal_store(p: u32, v: u32) -> bool
    ensures { result ≡ illegal_store p v }
{
    match p {
        Address::MASK => Settings::FLAGS_BOUND <= v,
        Address::MODE => Settings::MODE_BOUND <= v,
        _ => Address::FLAGS <= p,
    }
}

// The host's word i, by a number that is known, so that no register is kept for where they are.
fn host_word(host: &[u32; 5], i: u32) -> u32
    requires { i < 5 }
    ensures { result ≡ get_or host.now i 0 }
{
    match i {
        0 => host[0],
        1 => host[1],
        2 => host[2],
        3 => host[3],
        _ => host[4],
    }
}

// The value behind a load pointer.
#[tactic(auto, unfolding(effect::specs::Operands::behind))]
fn behind_pointer(cells: &[u32], s: Settings, host: &[u32; 5], p: u32) -> u32
    requires { (p < first_special → p < length cells.now) × (illegal_load p ≡ false) }
    ensures { result ≡ behind cells.now s host.now p }
{
    if p < Address::FLAGS {
        return cells[p as usize];
    }
    match p {
        Address::FLAGS => s.flags,
        Address::MASK => s.mask,
        Address::MODE => s.mode,
        _ => host_word(host, p - Address::HOST),
    }
}

// The settings after a store of v at p: the mask and the mode have addresses.
#[tactic(auto, unfolding(crate::specs::Inner::settings_of))]
fn resettled(p: u32, v: u32, s: Settings) -> Settings
    ensures { result ≡ settings_of p v s }
{
    match p {
        Address::MASK => Settings { mask: v, ..s },
        Address::MODE => Settings { mode: v, ..s },
        _ => s,
    }
}

// A place that is written, as an entry has it: its number, its old value, and which part of the entry it is; all 0 where there is none, since an
// entry has 0 there, so that an Option would be no plainer.
#[derive(Drop)]
struct Kept {
    number: u32,
    old: u32,
    uses: u32,
}

impl Kept {
    // Nothing is written.
    const NONE: Kept = Kept {
        number: 0,
        old: 0,
        uses: 0,
    };
}

// v is stored at p if p is an address of memory.
#[tactic(auto, unfolding(crate::specs::Inner::store_of, crate::specs::Inner::kept_of))]
fn store(cells: &mut [u32], p: u32, v: u32) -> Kept
    requires { p < first_special → p < length cells.old }
    ensures kept { result ≡ kept_of (store_of p v).used (store_of p v).address cells.old 4 }
    ensures stored { cells.new ≡ write_if (store_of p v).used cells.old (store_of p v).address (store_of p v).value }
{
    if 1 <= p && p < Address::FLAGS {
        let i = p as usize;
        let old = cells[i];
        cells[i] = v;
        return Kept {
            number: p,
            old,
            uses: 4,
        };
    }
    Kept::NONE
}

// PC moves on; then register n gets v if the pointer p is not 0.
#[tactic(auto, unfolding(crate::specs::Inner::load_of, crate::specs::Inner::kept_of))]
fn load(regs: &mut [u32; 256], p: u32, n: u32, v: u32) -> Kept
    requires { n < 256 }
    ensures kept { result ≡ kept_of (load_of p n v).used (load_of p n v).number regs.old 1 }
    ensures loaded { regs.new
        ≡ write_if (load_of p n v).used (set regs.old 255 (next_of regs.old)) (load_of p n v).number (load_of p n v).value }
{
    let i = n as usize;
    let old = regs[i];
    advance(regs);
    if p == 0 {
        return Kept::NONE;
    }
    regs[i] = v;
    Kept {
        number: n,
        old,
        uses: 1,
    }
}

// A store of v at x and a load of register n from y, where both can be.
fn store_and_load(
    step: &mut Step,
    cells: &mut [u32],
    host: &[u32; 5],
    n: u32,
    v: u32,
    x: u32,
    y: u32,
)
    requires allowed { (n < 256) × (illegal_load y ≡ false) × (illegal_store x v ≡ false) }
    requires within { (x < first_special → x < length cells.old) × (y < first_special → y < length cells.old) }
    ensures lent { Lent step.old step.new }
    ensures left { left_in step.new cells.new
        ≡ done_by step.old.told (transfer_of n v x y (before_in step.old host.now cells.old)) (before_in step.old host.now cells.old) }
{
    let settings = unpack(step.settings);
    let found = entry_at(step.regs[255], step.settings);
    let got = behind_pointer(cells, settings, host, y);
    let stored = store(cells, x, v);
    let loaded = load(step.regs, y, n, got);
    let entry = Entry {
        numbers: loaded.number,
        a: loaded.old,
        address: stored.number,
        old: stored.old,
        uses: loaded.uses + stored.uses,
        ..found
    };
    enter(step.part, entry);
    step.settings = pack(resettled(x, v, settings));
}

// LDST whatever its pointers are. Why | and not ||, `carried::is_fault` says.
fn transfer_any(step: &mut Step, cells: &mut [u32], host: &[u32; 5], cell: u32)
    ensures lent { Lent step.old step.new }
    ensures left { left_in step.new cells.new
        ≡ left_of step.old.told (Ldst (n_of cell) (m_of cell) (l_of cell)) (before_in step.old host.now cells.old) }
{
    let n = n_of(cell);
    let v = operand(step.regs, n);
    let x = operand(step.regs, m_of(cell));
    let y = operand(step.regs, l_of(cell));
    if is_fault(cells.len(), y) | is_fault(cells.len(), x) {
        step.refuse(Told::FAULT);
        return;
    }
    if illegal_load(y) | illegal_store(x, v) {
        step.illegal();
        return;
    }
    store_and_load(step, cells, host, n, v, x, y);
}

// Cells that are below the special addresses.
fn memory(size: usize) -> usize
    ensures { result ≡ min size first_special }
{
    size.min(0xFFFF0000)
}

// LDST: a load from memory alone and a store to memory alone go the short way.
pub fn transfer(step: &mut Step, cells: &mut [u32], host: &[u32; 5], cell: u32)
    ensures lent { Lent step.old step.new }
    ensures left { left_in step.new cells.new
        ≡ left_of step.old.told (Ldst (n_of cell) (m_of cell) (l_of cell)) (before_in step.old host.now cells.old) }
{
    let n = n_of(cell);
    let i = n as usize;
    let m = m_of(cell) as usize;
    let l = l_of(cell) as usize;
    let old = step.regs[i];
    let pc = advance(step.regs);
    let y = step.regs[l];
    let x = step.regs[m];
    let size = memory(cells.len());
    if x == 0 {
        let k = index_of(y);
        if 0 < k && k < size {
            let v = cells[k];
            let entry = Entry {
                numbers: n,
                a: old,
                uses: 1,
                ..entry_at(pc, step.settings)
            };
            enter(step.part, entry);
            step.regs[i] = v;
            return;
        }
    } else if y == 0 {
        let k = index_of(x);
        if k < size {
            let entry = Entry {
                address: x,
                old: cells[k],
                uses: 4,
                ..entry_at(pc, step.settings)
            };
            enter(step.part, entry);
            cells[k] = step.regs[i];
            return;
        }
    }
    step.regs[255] = pc;
    transfer_any(step, cells, host, cell);
}
