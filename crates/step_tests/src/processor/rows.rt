//! A word of each row of the instruction table, as the GNU assembler gives it, and an illegal neighbour of
//! each.
use rv_insn::{Insn, decode, encode};
use std::test::Fail;
use test_asserts::same;

macro_rules! upper {
    ($name:ident, $rd:expr, $imm:expr) => {
        Insn::$name { rd: $rd, imm: $imm }
    };
}

macro_rules! immediate {
    ($name:ident, $rd:expr, $rs1:expr, $imm:expr) => {
        Insn::$name { rd: $rd, rs1: $rs1, imm: $imm }
    };
}

macro_rules! sources {
    ($name:ident, $rs1:expr, $rs2:expr, $imm:expr) => {
        Insn::$name { rs1: $rs1, rs2: $rs2, imm: $imm }
    };
}

macro_rules! registers {
    ($name:ident, $rd:expr, $rs1:expr, $rs2:expr) => {
        Insn::$name { rd: $rd, rs1: $rs1, rs2: $rs2 }
    };
}

// An instruction, its word, and a word that no row takes.
static TABLE: [(Insn, u32, u32); 40] = [
    // lui x5, 0xfffff
    (upper!(Lui, 5, -4096), 0xfffff2b7, 0xfffff2b6),
    // auipc x31, 0x12345
    (upper!(Auipc, 31, 0x12345000), 0x12345f97, 0x12345f95),
    // jal x1, .-1048576
    (upper!(Jal, 1, -1048576), 0x800000ef, 0x800000ff),
    // jalr x0, -2048(x31)
    (immediate!(Jalr, 0, 31, -2048), 0x800f8067, 0x800f9067),
    // beq x1, x2, .+4094
    (sources!(Beq, 1, 2, 4094), 0x7e208fe3, 0x7e20afe3),
    // bne x3, x4, .-4096
    (sources!(Bne, 3, 4, -4096), 0x80419063, 0x8041b063),
    // blt x5, x6, .+8
    (sources!(Blt, 5, 6, 8), 0x0062c463, 0x0062a463),
    // bge x7, x8, .-8
    (sources!(Bge, 7, 8, -8), 0xfe83dce3, 0xfe83bce3),
    // bltu x9, x10, .+2048
    (sources!(Bltu, 9, 10, 2048), 0x00a4e0e3, 0x00a4a0e3),
    // bgeu x11, x12, .-2
    (sources!(Bgeu, 11, 12, -2), 0xfec5ffe3, 0xfec5bfe3),
    // lb x13, 2047(x14)
    (immediate!(Lb, 13, 14, 2047), 0x7ff70683, 0x7ff73683),
    // lh x15, -1(x16)
    (immediate!(Lh, 15, 16, -1), 0xfff81783, 0xfff83783),
    // lw x17, 0(x18)
    (immediate!(Lw, 17, 18, 0), 0x00092883, 0x00096883),
    // lbu x19, 1(x20)
    (immediate!(Lbu, 19, 20, 1), 0x001a4983, 0x001a6983),
    // lhu x21, 1024(x22)
    (immediate!(Lhu, 21, 22, 1024), 0x400b5a83, 0x400b7a83),
    // sb x23, -2048(x24)
    (sources!(Sb, 24, 23, -2048), 0x817c0023, 0x817c3023),
    // sh x25, 2047(x26)
    (sources!(Sh, 26, 25, 2047), 0x7f9d1fa3, 0x7f9d5fa3),
    // sw x27, -1(x28)
    (sources!(Sw, 28, 27, -1), 0xffbe2fa3, 0xffbe7fa3),
    // addi x29, x30, -2048
    (immediate!(Addi, 29, 30, -2048), 0x800f0e93, 0x800f0e9b),
    // slti x1, x2, 2047
    (immediate!(Slti, 1, 2, 2047), 0x7ff12093, 0x7ff1209b),
    // sltiu x3, x4, -1
    (immediate!(Sltiu, 3, 4, -1), 0xfff23193, 0xfff2319b),
    // xori x5, x6, 5
    (immediate!(Xori, 5, 6, 5), 0x00534293, 0x0053429b),
    // ori x7, x8, 6
    (immediate!(Ori, 7, 8, 6), 0x00646393, 0x0064639b),
    // andi x9, x10, 7
    (immediate!(Andi, 9, 10, 7), 0x00757493, 0x0075749b),
    // slli x11, x12, 31
    (immediate!(Slli, 11, 12, 31), 0x01f61593, 0x41f61593),
    // srli x13, x14, 1
    (immediate!(Srli, 13, 14, 1), 0x00175693, 0x02175693),
    // srai x15, x16, 16
    (immediate!(Srai, 15, 16, 16), 0x41085793, 0xc1085793),
    // add x17, x18, x19
    (registers!(Add, 17, 18, 19), 0x013908b3, 0x033908b3),
    // sub x20, x21, x22
    (registers!(Sub, 20, 21, 22), 0x416a8a33, 0x436a8a33),
    // sll x23, x24, x25
    (registers!(Sll, 23, 24, 25), 0x019c1bb3, 0x419c1bb3),
    // slt x26, x27, x28
    (registers!(Slt, 26, 27, 28), 0x01cdad33, 0x41cdad33),
    // sltu x29, x30, x31
    (registers!(Sltu, 29, 30, 31), 0x01ff3eb3, 0x41ff3eb3),
    // xor x1, x2, x3
    (registers!(Xor, 1, 2, 3), 0x003140b3, 0x403140b3),
    // srl x4, x5, x6
    (registers!(Srl, 4, 5, 6), 0x0062d233, 0x0262d233),
    // sra x7, x8, x9
    (registers!(Sra, 7, 8, 9), 0x409453b3, 0xc09453b3),
    // or x10, x11, x12
    (registers!(Or, 10, 11, 12), 0x00c5e533, 0x40c5e533),
    // and x13, x14, x15
    (registers!(And, 13, 14, 15), 0x00f776b3, 0x02f776b3),
    // fence
    (Insn::Fence, 0x0ff0000f, 0x0ff0100f),
    // ecall
    (Insn::Ecall, 0x00000073, 0x000000f3),
    // ebreak
    (Insn::Ebreak, 0x00100073, 0x00108073),
];

// The number of an instruction's row in the table, and its fields: two are the same where they have the same.
fn told_by(insn: Insn) -> (u8, u8, u8, i32) {
    match insn {
        Insn::Lui { rd, imm } => (0, rd, 0, imm),
        Insn::Auipc { rd, imm } => (1, rd, 0, imm),
        Insn::Jal { rd, imm } => (2, rd, 0, imm),
        Insn::Jalr { rd, rs1, imm } => (3, rd, rs1, imm),
        Insn::Beq { rs1, rs2, imm } => (4, rs1, rs2, imm),
        Insn::Bne { rs1, rs2, imm } => (5, rs1, rs2, imm),
        Insn::Blt { rs1, rs2, imm } => (6, rs1, rs2, imm),
        Insn::Bge { rs1, rs2, imm } => (7, rs1, rs2, imm),
        Insn::Bltu { rs1, rs2, imm } => (8, rs1, rs2, imm),
        Insn::Bgeu { rs1, rs2, imm } => (9, rs1, rs2, imm),
        Insn::Lb { rd, rs1, imm } => (10, rd, rs1, imm),
        Insn::Lh { rd, rs1, imm } => (11, rd, rs1, imm),
        Insn::Lw { rd, rs1, imm } => (12, rd, rs1, imm),
        Insn::Lbu { rd, rs1, imm } => (13, rd, rs1, imm),
        Insn::Lhu { rd, rs1, imm } => (14, rd, rs1, imm),
        Insn::Sb { rs1, rs2, imm } => (15, rs1, rs2, imm),
        Insn::Sh { rs1, rs2, imm } => (16, rs1, rs2, imm),
        Insn::Sw { rs1, rs2, imm } => (17, rs1, rs2, imm),
        Insn::Addi { rd, rs1, imm } => (18, rd, rs1, imm),
        Insn::Slti { rd, rs1, imm } => (19, rd, rs1, imm),
        Insn::Sltiu { rd, rs1, imm } => (20, rd, rs1, imm),
        Insn::Xori { rd, rs1, imm } => (21, rd, rs1, imm),
        Insn::Ori { rd, rs1, imm } => (22, rd, rs1, imm),
        Insn::Andi { rd, rs1, imm } => (23, rd, rs1, imm),
        Insn::Slli { rd, rs1, imm } => (24, rd, rs1, imm),
        Insn::Srli { rd, rs1, imm } => (25, rd, rs1, imm),
        Insn::Srai { rd, rs1, imm } => (26, rd, rs1, imm),
        Insn::Add { rd, rs1, rs2 } => (27, rd, rs1, i32::from(rs2)),
        Insn::Sub { rd, rs1, rs2 } => (28, rd, rs1, i32::from(rs2)),
        Insn::Sll { rd, rs1, rs2 } => (29, rd, rs1, i32::from(rs2)),
        Insn::Slt { rd, rs1, rs2 } => (30, rd, rs1, i32::from(rs2)),
        Insn::Sltu { rd, rs1, rs2 } => (31, rd, rs1, i32::from(rs2)),
        Insn::Xor { rd, rs1, rs2 } => (32, rd, rs1, i32::from(rs2)),
        Insn::Srl { rd, rs1, rs2 } => (33, rd, rs1, i32::from(rs2)),
        Insn::Sra { rd, rs1, rs2 } => (34, rd, rs1, i32::from(rs2)),
        Insn::Or { rd, rs1, rs2 } => (35, rd, rs1, i32::from(rs2)),
        Insn::And { rd, rs1, rs2 } => (36, rd, rs1, i32::from(rs2)),
        Insn::Fence => (37, 0, 0, 0),
        Insn::Ecall => (38, 0, 0, 0),
        Insn::Ebreak => (39, 0, 0, 0),
    }
}

fn is_same(found: Option<Insn>, insn: Insn) -> bool {
    match found {
        Some(found) => told_by(found) == told_by(insn),
        None => false,
    }
}

// The word is the instruction's, and the other is no instruction's.
fn assert_row(insn: Insn, word: u32, illegal: u32) -> Result<(), Fail> {
    let shown = (is_same(decode(word), insn), decode(illegal).is_none());
    same(
        "the words",
        &(word, illegal, shown),
        &(word, illegal, (true, true)),
    )
}

#[test]
fn rows() -> Result<(), Fail> {
    for row in TABLE.iter() {
        assert_row(row.0, row.1, row.2)?;
    }
    Ok(())
}

#[test]
fn written() -> Result<(), Fail> {
    let words = [
        encode(immediate!(Addi, 29, 30, -2048)),
        encode(sources!(Bne, 3, 4, -4096)),
        encode(Insn::Fence),
    ];
    same("the words", &words, &[0x800f0e93, 0x80419063, 0x0ff0_000f])
}
