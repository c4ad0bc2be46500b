// Machines in trials: written, and made from a payload.
use crate::digests::digest;
use crate::payload::Payload;
use machine::{Machine, Settings};
use std::io;
use std::io::Write;

// Writes a machine and its cells.
pub(crate) fn put_machine<W: Write>(out: &mut W, m: &Machine, cells: &[u32]) -> io::Result<()> {
    let Settings { flags, mask, mode } = m.settings;
    write!(
        out,
        "flags {flags} mask {mask} mode {mode} depth {} words {} registers {} cells {}",
        m.depth,
        digest(&m.host),
        digest(&m.regs),
        digest(cells)
    )
}

// Makes the settings of a payload, their count first: each has a place, of as many bytes as is said, and a word. One whose place is
// outside the list does nothing.
pub(crate) fn set_words(words: &mut [u32], payload: &mut Payload, width: usize) {
    for _ in 0..payload.half() {
        let place = payload.number(width) as usize;
        let word = payload.word();
        if place < words.len() {
            words[place] = word;
        }
    }
}

// The host's five words of a payload.
pub(crate) fn host_of(payload: &mut Payload) -> [u32; 5] {
    [
        payload.word(),
        payload.word(),
        payload.word(),
        payload.word(),
        payload.word(),
    ]
}

// The machine of a payload: settings, depth, the host's words and the registers that are not 0.
pub(crate) fn machine_of(payload: &mut Payload) -> Machine {
    let settings = Settings {
        flags: payload.word(),
        mask: payload.word(),
        mode: payload.word(),
    };
    let depth = payload.word();
    let host = host_of(payload);
    let mut regs = [0u32; 256];
    set_words(&mut regs, payload, 1);
    Machine {
        regs,
        settings,
        depth,
        host,
    }
}
