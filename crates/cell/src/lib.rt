// A cell as an instruction: where its numbers lie, decoding it, and encoding it from an opcode and operands.

#![tactic(auto)]

ghost use Rattle.std.specs.Prelude.{◌≡◌, ◌<◌};
ghost use Rattle.cell.specs.Cell.{form_of, opcode_of, n_of, m_of, l_of, imm_of, decode_of, encode_of};
ghost use Rattle.cell.specs.Answers.{encoded_reply};

mod forms;

use forms::FORMS;

// How the 24 bits below an opcode are read: three registers, a register and an immediate, or not at all.
#[derive(Clone, Copy)]
pub enum Form {
    Registers,
    Immediate,
    Reserved,
}

// A decoded cell. A reserved cell is answered whole.
#[derive(Clone, Copy)]
pub enum Instruction {
    Registers { opcode: u8, n: u8, m: u8, l: u8 },
    Immediate { opcode: u8, n: u8, imm: u16 },
    Reserved(u32),
}

// The operands of an instruction to encode, in either form.
#[derive(Clone, Copy)]
pub enum Operands {
    Registers { n: u8, m: u8, l: u8 },
    Immediate { n: u8, imm: u16 },
}

// Why an instruction is not encoded: 21, the opcode is reserved; 22, the operands are not of its form.
#[derive(Clone, Copy, Debug, PartialEq, Eq)]
pub enum EncodeError {
    ReservedOpcode,
    OtherForm,
}

// The form of an opcode, as the list has it.
#[tactic(auto, using(crate::proofs::Listed::form_listed))]
pub fn form_of(opcode: u8) -> Form
    ensures { result ≡ form_of opcode }
{
    FORMS[opcode as usize]
}

// A cell's opcode, its highest 8 bits. A step takes it and the numbers below from each cell: their bodies stay those that docs/COST.md counts.
pub fn opcode_of(cell: u32) -> u32
    ensures { (result ≡ opcode_of cell) × (result < 256) }
{
    cell / 16777216
}

// The first register, below the opcode.
pub fn n_of(cell: u32) -> u32
    ensures { (result ≡ n_of cell) × (result < 256) }
{
    cell / 65536 % 256
}

// The second register, below n.
pub fn m_of(cell: u32) -> u32
    ensures { (result ≡ m_of cell) × (result < 256) }
{
    cell / 256 % 256
}

// The third register, a cell's lowest 8 bits.
pub fn l_of(cell: u32) -> u32
    ensures { (result ≡ l_of cell) × (result < 256) }
{
    cell % 256
}

// The immediate, which lies where m and l do.
pub fn imm_of(cell: u32) -> u16
    ensures { result ≡ imm_of cell }
{
    (cell % 65536) as u16
}

// The instruction that a cell is.
#[tactic(auto, unfolding(crate::specs::Cell::decode_of))]
pub fn decode(cell: u32) -> Instruction
    ensures { result ≡ decode_of cell }
{
    let [opcode, n, m, l] = cell.to_be_bytes();
    let imm = imm_of(cell);
    match form_of(opcode) {
        Form::Registers => Instruction::Registers { opcode, n, m, l },
        Form::Immediate => Instruction::Immediate { opcode, n, imm },
        Form::Reserved => Instruction::Reserved(cell),
    }
}

// The cell of an opcode and operands, or the refusal.
#[tactic(auto, unfolding(crate::specs::Cell::encode_of))]
pub fn encode(opcode: u8, operands: Operands) -> Result<u32, EncodeError>
    ensures { encoded_reply result ≡ encode_of opcode operands }
{
    match (form_of(opcode), operands) {
        (Form::Registers, Operands::Registers { n, m, l }) => {
            Ok(u32::from_be_bytes([opcode, n, m, l]))
        }
        (Form::Immediate, Operands::Immediate { n, imm }) => {
            let [high, low] = imm.to_be_bytes();
            Ok(u32::from_be_bytes([opcode, n, high, low]))
        }
        (Form::Reserved, _) => Err(EncodeError::ReservedOpcode),
        _ => Err(EncodeError::OtherForm),
    }
}
