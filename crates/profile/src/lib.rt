// Rules that only go forward: which cells a profile allows, and the first cell of a rule that it does not.

#![tactic(auto)]

ghost use Rattle.std.specs.Prelude.{◌≡◌};
ghost use Rattle.std.specs.Prelude.{Ok, Err};
ghost use Rattle.std.proofs.Math.Option.{some};
ghost use Rattle.machine.specs.Stops.{said_of};
ghost use Rattle.profile.specs.Profile.{into, ahead, judged_of, rule_of};
ghost use Rattle.profile.specs.Answers.{barred_by};

use cell::{Form, form_of, imm_of, l_of, m_of, n_of, opcode_of};
use machine::Stop;

// Why a cell is not allowed: its opcode is reserved, or one of 80 to 106; it is an INT; it is a BZ that goes back; R255 is its target.
#[derive(Clone, Copy, Debug, PartialEq, Eq)]
pub enum Flaw {
    Reserved,
    Float,
    Int,
    Back,
    Target,
}

// Why a rule cannot be run as one that only goes forward: the number of its cells is 0 or there are fewer; or its first cell that is not
// allowed, and why.
#[derive(Clone, Copy, Debug, PartialEq, Eq)]
pub enum BadRule {
    Length,
    Cell { place: usize, flaw: Flaw },
}

// Stop 60 of a profile run has the place of the first bad cell, and 0 for a bad length.
impl From<BadRule> for Stop {
    ghost from_gives = { λ bad stop. some (said_of stop) ≡ barred_by (Err bad) };

    fn from(bad: BadRule) -> Stop {
        match bad {
            BadRule::Length => Stop::Barred { place: 0 },
            BadRule::Cell { place, flaw: _ } => Stop::Barred { place },
        }
    }
}

// A register that is a target: R255 may not be one.
fn aim(i: u32) -> Result<(), Flaw>
    ensures { result ≡ into i (Ok tt) }
{
    if i == 255 {
        return Err(Flaw::Target);
    }
    Ok(())
}

// A branch: it may not go back.
fn branch(imm: u16) -> Result<(), Flaw>
    ensures { result ≡ ahead imm }
{
    if 32767 < imm {
        return Err(Flaw::Back);
    }
    Ok(())
}

// Whether a profile allows a cell.
pub fn judge(cell: u32) -> Result<(), Flaw>
    ensures { result ≡ judged_of cell }
{
    let opcode = opcode_of(cell);
    let n = n_of(cell);
    let m = m_of(cell);
    let l = l_of(cell);
    let imm = imm_of(cell);
    if let Form::Reserved = form_of(opcode as u8) {
        return Err(Flaw::Reserved);
    }
    match opcode {
        80..=106 => Err(Flaw::Float),
        122 => Err(Flaw::Int),
        121 => branch(imm),
        0 => aim(n).and(aim(l)),
        54 | 107 => aim(m).and(aim(l)),
        4 if imm == 65535 => Ok(()),
        _ => aim(n),
    }
}

// Whether a profile allows all of a rule's cells, so many from cell 0 on; the first that it does not allow, if one is not.
pub fn first_bad(cells: &[u32], l: usize) -> Result<(), BadRule>
    ensures { result ≡ rule_of l cells.now }
{
    if l == 0 || cells.len() < l {
        return Err(BadRule::Length);
    }
    for (place, cell) in cells[..l].iter().enumerate() {
        if let Err(flaw) = judge(*cell) {
            return Err(BadRule::Cell { place, flaw });
        }
    }
    Ok(())
}
