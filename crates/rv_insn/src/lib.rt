//! The instructions of RV32I, and the words that stand for them (RISC-V unprivileged specification, RV32I
//! base integer instruction set).
#![tactic(auto)]

ghost use Rattle.std.specs.Prelude.{◌≡◌, ◌+◌, ◌-◌, ◌*◌, ◌^◌, ◌<◌, ◌≤◌, IfSome, IsTrue, All, Some};
ghost use Rattle.rv_insn.specs.Word.{bits, rd, rs1, rs2, sign_extended, imm_i, imm_s, imm_b, imm_u, imm_j, shamt};
ghost use Rattle.rv_insn.specs.Table.{decoded, key_of, picked, rows};
ghost use Rattle.rv_insn.specs.Keys.{key_at, number_of, turned};
ghost use Rattle.rv_insn.specs.Encoding.{IsEncodable, IsR, IsRegister, encoded, low, packed, word_b, word_i, word_j, word_r, word_s, word_shift, word_u};

/// An instruction of RV32I (RISC-V unprivileged specification, RV32I). `rd`, `rs1` and `rs2` are numbers of
/// registers, 0 to 31. `imm` is the immediate as a signed number: of a branch or `Jal` the even distance
/// from pc to the target in bytes, of `Lui` and `Auipc` all 32 bits, of which the low twelve are 0, of a
/// shift by a constant the shift, 0 to 31, and else a number of twelve bits.
#[derive(Clone, Copy)]
pub enum Insn {
    Lui { rd: u8, imm: i32 },
    Auipc { rd: u8, imm: i32 },
    Jal { rd: u8, imm: i32 },
    Jalr { rd: u8, rs1: u8, imm: i32 },
    Beq { rs1: u8, rs2: u8, imm: i32 },
    Bne { rs1: u8, rs2: u8, imm: i32 },
    Blt { rs1: u8, rs2: u8, imm: i32 },
    Bge { rs1: u8, rs2: u8, imm: i32 },
    Bltu { rs1: u8, rs2: u8, imm: i32 },
    Bgeu { rs1: u8, rs2: u8, imm: i32 },
    Lb { rd: u8, rs1: u8, imm: i32 },
    Lh { rd: u8, rs1: u8, imm: i32 },
    Lw { rd: u8, rs1: u8, imm: i32 },
    Lbu { rd: u8, rs1: u8, imm: i32 },
    Lhu { rd: u8, rs1: u8, imm: i32 },
    Sb { rs1: u8, rs2: u8, imm: i32 },
    Sh { rs1: u8, rs2: u8, imm: i32 },
    Sw { rs1: u8, rs2: u8, imm: i32 },
    Addi { rd: u8, rs1: u8, imm: i32 },
    Slti { rd: u8, rs1: u8, imm: i32 },
    Sltiu { rd: u8, rs1: u8, imm: i32 },
    Xori { rd: u8, rs1: u8, imm: i32 },
    Ori { rd: u8, rs1: u8, imm: i32 },
    Andi { rd: u8, rs1: u8, imm: i32 },
    Slli { rd: u8, rs1: u8, imm: i32 },
    Srli { rd: u8, rs1: u8, imm: i32 },
    Srai { rd: u8, rs1: u8, imm: i32 },
    Add { rd: u8, rs1: u8, rs2: u8 },
    Sub { rd: u8, rs1: u8, rs2: u8 },
    Sll { rd: u8, rs1: u8, rs2: u8 },
    Slt { rd: u8, rs1: u8, rs2: u8 },
    Sltu { rd: u8, rs1: u8, rs2: u8 },
    Xor { rd: u8, rs1: u8, rs2: u8 },
    Srl { rd: u8, rs1: u8, rs2: u8 },
    Sra { rd: u8, rs1: u8, rs2: u8 },
    Or { rd: u8, rs1: u8, rs2: u8 },
    And { rd: u8, rs1: u8, rs2: u8 },
    Fence,
    Ecall,
    Ebreak,
}

// The bits of a word from `high` down to `low`.
#[inline(always)]
fn bits(word: u32, high: u32, low: u32) -> u32
    requires low { low ≤ high }
    requires high { high < 32 }
    ensures value { result ≡ bits word high low }
    ensures fits { result < 2 ^ (high + 1 - low) }
{
    word >> low & u32::MAX >> (31 - (high - low))
}

// The signed number that the low `size` bits stand for.
#[inline(always)]
fn sign_extend(number: u32, size: u32) -> i32
    requires positive { 0 < size }
    requires size { size ≤ 32 }
    requires fits { number < 2 ^ size }
    ensures { result ≡ sign_extended size number }
{
    (number << (32 - size)).cast_signed() >> (32 - size)
}

// The immediates of the formats.
#[inline(always)]
fn imm_i(word: u32) -> i32
    ensures { result ≡ imm_i word }
{
    sign_extend(bits(word, 31, 20), 12)
}

#[inline(always)]
fn imm_s(word: u32) -> i32
    ensures { result ≡ imm_s word }
{
    sign_extend(bits(word, 31, 25) * 32 + bits(word, 11, 7), 12)
}

#[inline(always)]
fn imm_b(word: u32) -> i32
    ensures { result ≡ imm_b word }
{
    let high = bits(word, 31, 31) * 4096 + bits(word, 7, 7) * 2048;
    sign_extend(high + bits(word, 30, 25) * 32 + bits(word, 11, 8) * 2, 13)
}

#[inline(always)]
fn imm_u(word: u32) -> i32
    ensures { result ≡ imm_u word }
{
    sign_extend(bits(word, 31, 12) * 4096, 32)
}

#[inline(always)]
fn imm_j(word: u32) -> i32
    ensures { result ≡ imm_j word }
{
    let high = bits(word, 31, 31) * 1_048_576 + bits(word, 19, 12) * 4096;
    sign_extend(
        high + bits(word, 20, 20) * 2048 + bits(word, 30, 21) * 2,
        21,
    )
}

/// The instruction that a word is, with its registers and its immediate (RISC-V unprivileged specification,
/// RV32I: the instruction listing). `None` says that the word is no instruction of RV32I. A `FENCE` of any
/// fields is `Fence`.
#[inline(always)]
pub fn decode(word: u32) -> Option<Insn>
    ensures value { result ≡ decoded word }
    ensures each_row { All (λ row. IsTrue (row.takes (key_of word)) → result ≡ Some (row.insn word)) rows }
    ensures encodable { IfSome result IsEncodable }
{
    row_of(word)
}

// The registers of a word, and the shift of a shift by a constant.
#[inline(always)]
fn rd(word: u32) -> u8
    ensures { result ≡ rd word }
{
    bits(word, 11, 7) as u8
}

#[inline(always)]
fn rs1(word: u32) -> u8
    ensures { result ≡ rs1 word }
{
    bits(word, 19, 15) as u8
}

#[inline(always)]
fn rs2(word: u32) -> u8
    ensures { result ≡ rs2 word }
{
    bits(word, 24, 20) as u8
}

#[inline(always)]
fn shamt(word: u32) -> i32
    ensures { result ≡ shamt word }
{
    bits(word, 24, 20).cast_signed()
}

// The row that takes a word. The opcode of each row ends in two ones, so those of the word less three are two
// zeros; as the top of the number of the row they leave no row to a word where they are anything else.
#[inline(always)]
fn row_of(word: u32) -> Option<Insn>
    ensures { result ≡ decoded word }
{
    let turned = turned(word.wrapping_sub(3));
    let top = bits(turned, 12, 10) * 32 + bits(turned, 31, 30) * 0x0200_0000;
    row_at(word, bits(turned, 4, 0) + top)
}

// A number with its lowest two bits at the top.
#[inline(always)]
fn turned(number: u32) -> u32
    ensures { result ≡ turned number }
{
    (number >> 2) + (number << 30)
}

// The instruction of a word, by its format.
macro_rules! insn {
    ($name:ident, R, $word:ident) => {
        Some(Insn::$name { rd: rd($word), rs1: rs1($word), rs2: rs2($word) })
    };
    ($name:ident, I, $word:ident) => {
        Some(Insn::$name { rd: rd($word), rs1: rs1($word), imm: imm_i($word) })
    };
    ($name:ident, S, $word:ident) => {
        Some(Insn::$name { rs1: rs1($word), rs2: rs2($word), imm: imm_s($word) })
    };
    ($name:ident, B, $word:ident) => {
        Some(Insn::$name { rs1: rs1($word), rs2: rs2($word), imm: imm_b($word) })
    };
    ($name:ident, U, $word:ident) => {
        Some(Insn::$name { rd: rd($word), imm: imm_u($word) })
    };
    ($name:ident, J, $word:ident) => {
        Some(Insn::$name { rd: rd($word), imm: imm_j($word) })
    };
    ($name:ident, shift, $word:ident) => {
        Some(Insn::$name { rd: rd($word), rs1: rs1($word), imm: shamt($word) })
    };
}

// The row by one number, so that one jump finds it: funct3 and, below it, the upper five bits of the
// opcode. A row that has no funct3 stands at all eight.
#[inline(always)]
fn row_at(word: u32, key: u32) -> Option<Insn>
    requires { key ≡ number_of word }
    ensures { result ≡ picked (key_at key word) word }
{
    match key {
        0b000_01101
        | 0b001_01101
        | 0b010_01101
        | 0b011_01101
        | 0b100_01101
        | 0b101_01101
        | 0b110_01101
        | 0b111_01101 => insn!(Lui, U, word),
        0b000_00101
        | 0b001_00101
        | 0b010_00101
        | 0b011_00101
        | 0b100_00101
        | 0b101_00101
        | 0b110_00101
        | 0b111_00101 => insn!(Auipc, U, word),
        0b000_11011
        | 0b001_11011
        | 0b010_11011
        | 0b011_11011
        | 0b100_11011
        | 0b101_11011
        | 0b110_11011
        | 0b111_11011 => insn!(Jal, J, word),
        0b000_11001 => insn!(Jalr, I, word),
        0b000_11000 => insn!(Beq, B, word),
        0b001_11000 => insn!(Bne, B, word),
        0b100_11000 => insn!(Blt, B, word),
        0b101_11000 => insn!(Bge, B, word),
        0b110_11000 => insn!(Bltu, B, word),
        0b111_11000 => insn!(Bgeu, B, word),
        0b000_00000 => insn!(Lb, I, word),
        0b001_00000 => insn!(Lh, I, word),
        0b010_00000 => insn!(Lw, I, word),
        0b100_00000 => insn!(Lbu, I, word),
        0b101_00000 => insn!(Lhu, I, word),
        0b000_01000 => insn!(Sb, S, word),
        0b001_01000 => insn!(Sh, S, word),
        0b010_01000 => insn!(Sw, S, word),
        0b000_00100 => insn!(Addi, I, word),
        0b010_00100 => insn!(Slti, I, word),
        0b011_00100 => insn!(Sltiu, I, word),
        0b100_00100 => insn!(Xori, I, word),
        0b110_00100 => insn!(Ori, I, word),
        0b111_00100 => insn!(Andi, I, word),
        0b001_00100 => match bits(word, 31, 25) {
            0 => insn!(Slli, shift, word),
            _ => None,
        },
        0b101_00100 => match bits(word, 31, 25) {
            0 => insn!(Srli, shift, word),
            0x20 => insn!(Srai, shift, word),
            _ => None,
        },
        0b000_01100 => match bits(word, 31, 25) {
            0 => insn!(Add, R, word),
            0x20 => insn!(Sub, R, word),
            _ => None,
        },
        0b001_01100 => match bits(word, 31, 25) {
            0 => insn!(Sll, R, word),
            _ => None,
        },
        0b010_01100 => match bits(word, 31, 25) {
            0 => insn!(Slt, R, word),
            _ => None,
        },
        0b011_01100 => match bits(word, 31, 25) {
            0 => insn!(Sltu, R, word),
            _ => None,
        },
        0b100_01100 => match bits(word, 31, 25) {
            0 => insn!(Xor, R, word),
            _ => None,
        },
        0b101_01100 => match bits(word, 31, 25) {
            0 => insn!(Srl, R, word),
            0x20 => insn!(Sra, R, word),
            _ => None,
        },
        0b110_01100 => match bits(word, 31, 25) {
            0 => insn!(Or, R, word),
            _ => None,
        },
        0b111_01100 => match bits(word, 31, 25) {
            0 => insn!(And, R, word),
            _ => None,
        },
        0b000_00011 => Some(Insn::Fence),
        0b000_11100 => match word {
            0x0000_0073 => Some(Insn::Ecall),
            0x0010_0073 => Some(Insn::Ebreak),
            _ => None,
        },
        _ => None,
    }
}

/// The word of an instruction whose fields are in their ranges, which `decode` reads back as the same
/// instruction. `Fence` gets all its fields set, 0x0ff0000f.
pub fn encode(insn: Insn) -> u32
    requires { IsEncodable insn }
    ensures value { result ≡ encoded insn }
    ensures reads_back { decoded result ≡ Some insn }
{
    word_of(insn)
}

// The word by the format of the instruction. That it is read back is a law of the words, told once for each
// format, so it is no clause here.
fn word_of(insn: Insn) -> u32
    requires { IsEncodable insn }
    ensures { result ≡ encoded insn }
{
    match insn {
        Insn::Lui { rd, imm } => word_u(0x37, rd, imm),
        Insn::Auipc { rd, imm } => word_u(0x17, rd, imm),
        Insn::Jal { rd, imm } => word_j(0x6f, rd, imm),
        Insn::Jalr { rd, rs1, imm } => word_i(0x67, 0, rd, rs1, imm),
        Insn::Beq { rs1, rs2, imm } => word_b(0x63, 0, rs1, rs2, imm),
        Insn::Bne { rs1, rs2, imm } => word_b(0x63, 1, rs1, rs2, imm),
        Insn::Blt { rs1, rs2, imm } => word_b(0x63, 4, rs1, rs2, imm),
        Insn::Bge { rs1, rs2, imm } => word_b(0x63, 5, rs1, rs2, imm),
        Insn::Bltu { rs1, rs2, imm } => word_b(0x63, 6, rs1, rs2, imm),
        Insn::Bgeu { rs1, rs2, imm } => word_b(0x63, 7, rs1, rs2, imm),
        Insn::Lb { rd, rs1, imm } => word_i(0x03, 0, rd, rs1, imm),
        Insn::Lh { rd, rs1, imm } => word_i(0x03, 1, rd, rs1, imm),
        Insn::Lw { rd, rs1, imm } => word_i(0x03, 2, rd, rs1, imm),
        Insn::Lbu { rd, rs1, imm } => word_i(0x03, 4, rd, rs1, imm),
        Insn::Lhu { rd, rs1, imm } => word_i(0x03, 5, rd, rs1, imm),
        Insn::Sb { rs1, rs2, imm } => word_s(0x23, 0, rs1, rs2, imm),
        Insn::Sh { rs1, rs2, imm } => word_s(0x23, 1, rs1, rs2, imm),
        Insn::Sw { rs1, rs2, imm } => word_s(0x23, 2, rs1, rs2, imm),
        Insn::Addi { rd, rs1, imm } => word_i(0x13, 0, rd, rs1, imm),
        Insn::Slti { rd, rs1, imm } => word_i(0x13, 2, rd, rs1, imm),
        Insn::Sltiu { rd, rs1, imm } => word_i(0x13, 3, rd, rs1, imm),
        Insn::Xori { rd, rs1, imm } => word_i(0x13, 4, rd, rs1, imm),
        Insn::Ori { rd, rs1, imm } => word_i(0x13, 6, rd, rs1, imm),
        Insn::Andi { rd, rs1, imm } => word_i(0x13, 7, rd, rs1, imm),
        Insn::Slli { rd, rs1, imm } => word_shift(0x13, 1, 0x00, rd, rs1, imm),
        Insn::Srli { rd, rs1, imm } => word_shift(0x13, 5, 0x00, rd, rs1, imm),
        Insn::Srai { rd, rs1, imm } => word_shift(0x13, 5, 0x20, rd, rs1, imm),
        Insn::Add { rd, rs1, rs2 } => word_r(0x33, 0, 0x00, rd, rs1, rs2),
        Insn::Sub { rd, rs1, rs2 } => word_r(0x33, 0, 0x20, rd, rs1, rs2),
        Insn::Sll { rd, rs1, rs2 } => word_r(0x33, 1, 0x00, rd, rs1, rs2),
        Insn::Slt { rd, rs1, rs2 } => word_r(0x33, 2, 0x00, rd, rs1, rs2),
        Insn::Sltu { rd, rs1, rs2 } => word_r(0x33, 3, 0x00, rd, rs1, rs2),
        Insn::Xor { rd, rs1, rs2 } => word_r(0x33, 4, 0x00, rd, rs1, rs2),
        Insn::Srl { rd, rs1, rs2 } => word_r(0x33, 5, 0x00, rd, rs1, rs2),
        Insn::Sra { rd, rs1, rs2 } => word_r(0x33, 5, 0x20, rd, rs1, rs2),
        Insn::Or { rd, rs1, rs2 } => word_r(0x33, 6, 0x00, rd, rs1, rs2),
        Insn::And { rd, rs1, rs2 } => word_r(0x33, 7, 0x00, rd, rs1, rs2),
        Insn::Fence => 0x0ff0_000f,
        Insn::Ecall => 0x0000_0073,
        Insn::Ebreak => 0x0010_0073,
    }
}

// The fields of a word put together.
fn packed(opcode: u32, rd: u32, funct3: u32, rs1: u32, rs2: u32, funct7: u32) -> u32
    requires opcode { opcode < 2 ^ 7 }
    requires rd { rd < 2 ^ 5 }
    requires funct3 { funct3 < 2 ^ 3 }
    requires rs1 { rs1 < 2 ^ 5 }
    requires rs2 { rs2 < 2 ^ 5 }
    requires funct7 { funct7 < 2 ^ 7 }
    ensures { result ≡ packed opcode rd funct3 rs1 rs2 funct7 }
{
    opcode + (rd << 7) + (funct3 << 12) + (rs1 << 15) + (rs2 << 20) + (funct7 << 25)
}

fn word_r(opcode: u32, funct3: u32, funct7: u32, rd: u8, rs1: u8, rs2: u8) -> u32
    requires opcode { opcode < 2 ^ 7 }
    requires funct3 { funct3 < 2 ^ 3 }
    requires funct7 { funct7 < 2 ^ 7 }
    requires fields { IsR rd rs1 rs2 }
    ensures { result ≡ word_r opcode funct3 funct7 rd rs1 rs2 }
{
    packed(opcode, rd.into(), funct3, rs1.into(), rs2.into(), funct7)
}

fn word_i(opcode: u32, funct3: u32, rd: u8, rs1: u8, imm: i32) -> u32
    requires opcode { opcode < 2 ^ 7 }
    requires funct3 { funct3 < 2 ^ 3 }
    requires rd { IsRegister rd }
    requires rs1 { IsRegister rs1 }
    ensures { result ≡ word_i opcode funct3 rd rs1 imm }
{
    let low = low(imm, 12);
    packed(
        opcode,
        rd.into(),
        funct3,
        rs1.into(),
        bits(low, 4, 0),
        bits(low, 11, 5),
    )
}

fn word_s(opcode: u32, funct3: u32, rs1: u8, rs2: u8, imm: i32) -> u32
    requires opcode { opcode < 2 ^ 7 }
    requires funct3 { funct3 < 2 ^ 3 }
    requires rs1 { IsRegister rs1 }
    requires rs2 { IsRegister rs2 }
    ensures { result ≡ word_s opcode funct3 rs1 rs2 imm }
{
    let low = low(imm, 12);
    packed(
        opcode,
        bits(low, 4, 0),
        funct3,
        rs1.into(),
        rs2.into(),
        bits(low, 11, 5),
    )
}

fn word_b(opcode: u32, funct3: u32, rs1: u8, rs2: u8, imm: i32) -> u32
    requires opcode { opcode < 2 ^ 7 }
    requires funct3 { funct3 < 2 ^ 3 }
    requires rs1 { IsRegister rs1 }
    requires rs2 { IsRegister rs2 }
    ensures { result ≡ word_b opcode funct3 rs1 rs2 imm }
{
    let low = low(imm, 13);
    let rd = bits(low, 4, 1) * 2 + bits(low, 11, 11);
    let funct7 = bits(low, 12, 12) * 64 + bits(low, 10, 5);
    packed(opcode, rd, funct3, rs1.into(), rs2.into(), funct7)
}

fn word_u(opcode: u32, rd: u8, imm: i32) -> u32
    requires opcode { opcode < 2 ^ 7 }
    requires rd { IsRegister rd }
    ensures { result ≡ word_u opcode rd imm }
{
    let low = low(imm, 32);
    opcode + (u32::from(rd) << 7) + (bits(low, 31, 12) << 12)
}

fn word_j(opcode: u32, rd: u8, imm: i32) -> u32
    requires opcode { opcode < 2 ^ 7 }
    requires rd { IsRegister rd }
    ensures { result ≡ word_j opcode rd imm }
{
    let low = low(imm, 21);
    let middle = (bits(low, 19, 12) << 12) + (bits(low, 11, 11) << 20) + (bits(low, 10, 1) << 21);
    opcode + (u32::from(rd) << 7) + middle + (bits(low, 20, 20) << 31)
}

fn word_shift(opcode: u32, funct3: u32, funct7: u32, rd: u8, rs1: u8, imm: i32) -> u32
    requires opcode { opcode < 2 ^ 7 }
    requires funct3 { funct3 < 2 ^ 3 }
    requires funct7 { funct7 < 2 ^ 7 }
    requires rd { IsRegister rd }
    requires rs1 { IsRegister rs1 }
    ensures { result ≡ word_shift opcode funct3 funct7 rd rs1 imm }
{
    packed(opcode, rd.into(), funct3, rs1.into(), low(imm, 5), funct7)
}

// The low `size` bits of an immediate.
fn low(imm: i32, size: u32) -> u32
    requires low { 0 < size }
    requires high { size ≤ 32 }
    ensures value { result ≡ low size imm }
    ensures fits { result < 2 ^ size }
{
    bits(imm.cast_unsigned(), size - 1, 0)
}
