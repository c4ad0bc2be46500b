// The rules of a record: the table of kinds with their order and lengths, and the space that a base has.
ghost use Rattle.std.specs.Prelude.{◌≡◌, ◌+◌, length};
ghost use Rattle.job.specs.Job.{line, row_by, known_of, fits_of, ends_of, past_of, in_order, rises_of, base_of, count_of, within_of, settings_fit, settings_in};
ghost use Rattle.job.specs.Inner.{Sized};

use lent::number;
use machine::{Settings, good_settings};

// A record's kind, or none: six, as the definitions and `wordless_by` have them.
#[derive(Clone, Copy)]
pub(crate) enum Kind {
    Run,
    Register,
    Setup,
    Host,
    End,
    Other,
}

// A row of the table: a kind, its place in the order, and the least and the most bytes of its payload, which go up by fours from the least.
#[derive(Clone, Copy)]
pub(crate) struct Row {
    pub kind: Kind,
    pub rank: u32,
    pub least: u32,
    pub most: u32,
}

// What the records so far leave to the order: the last kind's place, the end of the last cells, the least register that may come.
#[derive(Clone, Copy)]
pub(crate) struct Past {
    pub rank: u32,
    pub end: u32,
    pub next: u32,
}

// A row of these parts.
fn line(kind: Kind, rank: u32, least: u32, most: u32) -> Row
    ensures { result ≡ line kind rank least most }
{
    Row {
        kind,
        rank,
        least,
        most,
    }
}

// The table of kinds, by their numbers in their order.
#[tactic(auto, unfolding(crate::specs::Job::row_by))]
pub(crate) fn row_by(number: u32) -> Row
    ensures { result ≡ row_by number }
{
    match number {
        1 => line(Kind::Run, 1, 6, 65538),
        2 => line(Kind::Register, 2, 5, 5),
        3 => line(Kind::Setup, 3, 5, 5),
        5 => line(Kind::Host, 4, 20, 20),
        4 => line(Kind::End, 5, 0, 0),
        _ => line(Kind::Other, 6, 1, 0),
    }
}

pub(crate) fn known(kind: Kind) -> bool
    ensures { result ≡ known_of kind }
{
    !matches!(kind, Kind::Other)
}

// Whether a payload has a length of its row.
pub(crate) fn fits(row: Row, size: u32) -> bool
    ensures { result ≡ fits_of row size }
{
    row.least <= size && size <= row.most && (size - row.least) % 4 == 0
}

// Whether a kind ends the job.
pub(crate) fn ends(kind: Kind) -> bool
    ensures { result ≡ ends_of kind }
{
    matches!(kind, Kind::End | Kind::Other)
}

// Bases and registers rise, and the settings and the host's words come once.
fn rises(past: Past, row: Row, payload: &[u8]) -> bool
    ensures { result ≡ rises_of past row.kind row.rank payload.now }
{
    match row.kind {
        Kind::Run => past.end <= number(payload, 0, 2),
        Kind::Register => past.next <= number(payload, 0, 1),
        Kind::Setup | Kind::Host => past.rank < row.rank,
        Kind::End | Kind::Other => true,
    }
}

// Whether a record keeps the order.
#[tactic(auto, unfolding(crate::specs::Job::in_order))]
pub(crate) fn in_order(past: Past, row: Row, payload: &[u8]) -> bool
    ensures { result ≡ in_order past row payload.now }
{
    past.rank <= row.rank && rises(past, row, payload)
}

// The end of a run's cells.
fn run_end(payload: &[u8]) -> u32
    requires { Sized Kind.Run (length payload.now) }
    ensures { result ≡ base_of payload.now + count_of payload.now }
{
    number(payload, 0, 2) + ((payload.len() - 2) / 4) as u32
}

// Whether a run of cells ends within the m cells.
pub(crate) fn within(m: usize, kind: Kind, payload: &[u8]) -> bool
    requires { Sized kind (length payload.now) }
    ensures { result ≡ within_of m kind payload.now }
{
    match kind {
        Kind::Run => run_end(payload) as usize <= m,
        _ => true,
    }
}

// The settings that a payload holds.
pub(crate) fn settings_in(payload: &[u8]) -> Settings
    ensures { result ≡ settings_in payload.now }
{
    Settings {
        flags: number(payload, 0, 2),
        mask: number(payload, 2, 2),
        mode: number(payload, 4, 1),
    }
}

// Whether a record's settings are in range.
pub(crate) fn settled(kind: Kind, payload: &[u8]) -> bool
    ensures { result ≡ settings_fit kind payload.now }
{
    match kind {
        Kind::Setup => good_settings(settings_in(payload)),
        _ => true,
    }
}

// The past with this record in it.
pub(crate) fn passed(past: Past, row: Row, payload: &[u8]) -> Past
    requires { Sized row.kind (length payload.now) }
    ensures { result ≡ past_of past row.kind row.rank payload.now }
{
    let rank = row.rank;
    match row.kind {
        Kind::Run => Past {
            rank,
            end: run_end(payload),
            ..past
        },
        Kind::Register => Past {
            rank,
            next: number(payload, 0, 1) + 1,
            ..past
        },
        Kind::Setup | Kind::Host => Past { rank, ..past },
        Kind::End | Kind::Other => past,
    }
}
