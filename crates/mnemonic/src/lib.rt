// The words that begin a line, each a mnemonic and a space, put into lent room.

#![tactic(auto)]

ghost use Rattle.std.specs.Prelude.{◌≡◌};
ghost use Rattle.text.specs.Text.{Added};
ghost use Rattle.mnemonic.specs.Mnemonic.{word_of};

use text::put;

// The words that begin a line, in opcode order. A reserved opcode has CELL.
const WORDS: [&[u8]; 123] = [
    b"CPSWP ", b"LDST ", b"CELL ", b"LDLI ", b"LDUI ", b"LDLIZ ", b"LDLISE ", b"LDLIF ", b"CELL ",
    b"CELL ", b"CELL ", b"CELL ", b"CELL ", b"CELL ", b"CELL ", b"CELL ", b"ADD ", b"ADC ",
    b"SUB ", b"SBB ", b"MUL ", b"UDIV ", b"SDIV ", b"MOD ", b"AND ", b"OR ", b"XOR ", b"NAND ",
    b"LNAND ", b"LSH ", b"URSH ", b"SRSH ", b"UGT ", b"SGT ", b"EQ ", b"ADDI ", b"ADCI ", b"SUBI ",
    b"SBBI ", b"MULI ", b"UDIVI ", b"SDIVI ", b"MODI ", b"ANDI ", b"ORI ", b"XORI ", b"LSHI ",
    b"URSHI ", b"SRSHI ", b"UGTI ", b"SGTI ", b"EQI ", b"ULTI ", b"SLTI ", b"SPLIT ", b"CELL ",
    b"CELL ", b"CELL ", b"CELL ", b"CELL ", b"CELL ", b"CELL ", b"CELL ", b"CELL ", b"CELL ",
    b"CELL ", b"CELL ", b"CELL ", b"CELL ", b"CELL ", b"CELL ", b"CELL ", b"CELL ", b"CELL ",
    b"CELL ", b"CELL ", b"CELL ", b"CELL ", b"CELL ", b"CELL ", b"FADD ", b"FSUB ", b"FMUL ",
    b"FDIV ", b"FMOD ", b"FEXP ", b"FLOG ", b"FSIN ", b"FASIN ", b"FGT ", b"FEQ ", b"I2F ",
    b"F2I ", b"FADDI ", b"FSUBI ", b"FMULI ", b"FDIVI ", b"FMODI ", b"FEXPI ", b"FLOGI ",
    b"FSINI ", b"FASINI ", b"FGTI ", b"FEQI ", b"FLTI ", b"II2F ", b"IF2I ", b"FSPLIT ", b"CELL ",
    b"CELL ", b"CELL ", b"CELL ", b"CELL ", b"CELL ", b"CELL ", b"CELL ", b"CELL ", b"CELL ",
    b"CELL ", b"CELL ", b"CELL ", b"BZ ", b"INT ",
];

// The word of an opcode. One past the table has CELL, by a test: no proof closed over what `get` promises of a slice of slices.
fn word(opcode: u8) -> &'static [u8]
    ensures { result.now ≡ word_of opcode }
{
    let x = opcode as usize;
    if x < WORDS.len() { WORDS[x] } else { b"CELL " }
}

// Puts the word of an opcode at the start of a text, and answers where it ends.
pub fn put_word(text: &mut [u8], opcode: u8) -> usize
    ensures { Added text.old 0 (word_of opcode) text.new result }
{
    put(text, 0, word(opcode))
}
