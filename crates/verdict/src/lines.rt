// The text of a verdict, line by line. A text and its places are apart, as `text` says.
ghost use Rattle.text.specs.Text.{Added};
ghost use Rattle.line.specs.Line.{line_of};
ghost use Rattle.std.specs.Prelude.{◌≡◌, Ok, Err};
ghost use Rattle.verdict.specs.declared.Unfit.TheVariants.{NoStart, BadLength, BadCell};
ghost use Rattle.verdict.specs.Told.{flaw_text, told_of, Told};

use profile::Flaw;
use text::{put, put_number};

// Puts the line of a job whose first record does not begin at cell 0.
pub(crate) fn put_no_start(text: &mut [u8], at: usize) -> usize
    ensures { Told text.old at (told_of (Err NoStart)) text.new result }
{
    put(
        text,
        at,
        b"refused 60: the first record does not begin at cell 0\n",
    )
}

// Puts the line of an L that is not 1 to the most.
pub(crate) fn put_bad_length(text: &mut [u8], at: usize, most: usize) -> usize
    ensures { Told text.old at (told_of (Err (BadLength most))) text.new result }
{
    let a = put_number(text, at, b"refused 60: L must be 1 to ", most as u64);
    put(text, a, b"\n")
}

// Puts the line of a rule that only goes forward.
pub(crate) fn put_forward_only(text: &mut [u8], at: usize, l: usize) -> usize
    ensures { Told text.old at (told_of (Ok l)) text.new result }
{
    let a = put_number(text, at, b"forward only: at most ", l as u64);
    put(text, a, b" steps\n")
}

// Puts a cell's line.
fn put_cell(text: &mut [u8], at: usize, cell: u32) -> usize
    ensures { Added text.old at (line_of cell) text.new result }
{
    let mut line = [0u8; 24];
    let size = line::put_line(&mut line, cell);
    put(text, at, &line[..size])
}

// The line that says why a cell is not allowed.
fn flaw_line(flaw: Flaw) -> &'static [u8]
    ensures { result.now ≡ flaw_text flaw }
{
    match flaw {
        Flaw::Reserved => b"not allowed: the opcode is reserved\n",
        Flaw::Float => b"not allowed: opcodes 80 to 106 are for floats\n",
        Flaw::Int => b"not allowed: INT would stop the rule\n",
        Flaw::Back => b"not allowed: the branch goes back\n",
        Flaw::Target => {
            b"not allowed: R255 is a target, which it may be in LDUI R255, #65535 alone\n"
        }
    }
}

// Puts the lines of a cell that is not allowed. Place, cell and flaw are taken one by one, as `told_of` takes them.
pub(crate) fn put_bad_cell(text: &mut [u8], at: usize, place: usize, cell: u32, flaw: Flaw) -> usize
    ensures { Told text.old at (told_of (Err (BadCell place cell flaw))) text.new result }
{
    let a = put_number(text, at, b"cell ", place as u64);
    let b = put(text, a, b": ");
    let c = put_cell(text, b, cell);
    put(text, c, flaw_line(flaw))
}
