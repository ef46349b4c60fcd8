//! The instructions of a statement, from its fields.
ghost use Rattle.std.specs.Prelude.{◌≡◌, ◌<◌, ◌^◌, ◌≤ℤ◌, ◌<ℤ◌};
ghost use Rattle.rv_insn.specs.Encoding.{IsEncodable, IsEven, IsRegister, IsShift, IsSigned, IsUpper, encoded};
ghost use Rattle.rv_asm.specs.Instructions.{register_insn, number_insn, shift_insn, load_insn, store_insn, branch_insn, upper_insn, upper_immediate, bare_insn, low_part, first_half, second_half};

use crate::form::{
    BareInsn, BranchInsn, LoadInsn, NumberInsn, RegisterInsn, ShiftInsn, StoreInsn, UpperInsn,
};
use rv_insn::{Insn, encode};

/// The word of an instruction, for callers that do not ask whether it is read back.
pub fn word_of(insn: Insn) -> u32
    requires { IsEncodable insn }
    ensures { result ≡ encoded insn }
{
    encode(insn)
}

/// The instruction with these registers.
pub fn register_insn(insn: RegisterInsn, rd: u8, rs1: u8, rs2: u8) -> Insn
    requires rd { IsRegister rd }
    requires rs1 { IsRegister rs1 }
    requires rs2 { IsRegister rs2 }
    ensures insn { result ≡ register_insn insn rd rs1 rs2 }
    ensures encodable { IsEncodable result }
{
    match insn {
        RegisterInsn::Add => Insn::Add { rd, rs1, rs2 },
        RegisterInsn::Sub => Insn::Sub { rd, rs1, rs2 },
        RegisterInsn::Sll => Insn::Sll { rd, rs1, rs2 },
        RegisterInsn::Slt => Insn::Slt { rd, rs1, rs2 },
        RegisterInsn::Sltu => Insn::Sltu { rd, rs1, rs2 },
        RegisterInsn::Xor => Insn::Xor { rd, rs1, rs2 },
        RegisterInsn::Srl => Insn::Srl { rd, rs1, rs2 },
        RegisterInsn::Sra => Insn::Sra { rd, rs1, rs2 },
        RegisterInsn::Or => Insn::Or { rd, rs1, rs2 },
        RegisterInsn::And => Insn::And { rd, rs1, rs2 },
    }
}

/// The instruction with these registers and this number.
pub fn number_insn(insn: NumberInsn, rd: u8, rs1: u8, number: i32) -> Insn
    requires rd { IsRegister rd }
    requires rs1 { IsRegister rs1 }
    requires number { IsSigned 12 number }
    ensures insn { result ≡ number_insn insn rd rs1 number }
    ensures encodable { IsEncodable result }
{
    match insn {
        NumberInsn::Addi => Insn::Addi {
            rd,
            rs1,
            imm: number,
        },
        NumberInsn::Slti => Insn::Slti {
            rd,
            rs1,
            imm: number,
        },
        NumberInsn::Sltiu => Insn::Sltiu {
            rd,
            rs1,
            imm: number,
        },
        NumberInsn::Xori => Insn::Xori {
            rd,
            rs1,
            imm: number,
        },
        NumberInsn::Ori => Insn::Ori {
            rd,
            rs1,
            imm: number,
        },
        NumberInsn::Andi => Insn::Andi {
            rd,
            rs1,
            imm: number,
        },
    }
}

/// The shift by so many bits.
pub fn shift_insn(insn: ShiftInsn, rd: u8, rs1: u8, shift: i32) -> Insn
    requires rd { IsRegister rd }
    requires rs1 { IsRegister rs1 }
    requires shift { IsShift shift }
    ensures insn { result ≡ shift_insn insn rd rs1 shift }
    ensures encodable { IsEncodable result }
{
    match insn {
        ShiftInsn::Slli => Insn::Slli {
            rd,
            rs1,
            imm: shift,
        },
        ShiftInsn::Srli => Insn::Srli {
            rd,
            rs1,
            imm: shift,
        },
        ShiftInsn::Srai => Insn::Srai {
            rd,
            rs1,
            imm: shift,
        },
    }
}

/// The load or jump at this number from a register.
pub fn load_insn(insn: LoadInsn, rd: u8, rs1: u8, number: i32) -> Insn
    requires rd { IsRegister rd }
    requires rs1 { IsRegister rs1 }
    requires number { IsSigned 12 number }
    ensures insn { result ≡ load_insn insn rd rs1 number }
    ensures encodable { IsEncodable result }
{
    match insn {
        LoadInsn::Lb => Insn::Lb {
            rd,
            rs1,
            imm: number,
        },
        LoadInsn::Lh => Insn::Lh {
            rd,
            rs1,
            imm: number,
        },
        LoadInsn::Lw => Insn::Lw {
            rd,
            rs1,
            imm: number,
        },
        LoadInsn::Lbu => Insn::Lbu {
            rd,
            rs1,
            imm: number,
        },
        LoadInsn::Lhu => Insn::Lhu {
            rd,
            rs1,
            imm: number,
        },
        LoadInsn::Jalr => Insn::Jalr {
            rd,
            rs1,
            imm: number,
        },
    }
}

/// The store at this number from a register.
pub fn store_insn(insn: StoreInsn, rs1: u8, rs2: u8, number: i32) -> Insn
    requires rs1 { IsRegister rs1 }
    requires rs2 { IsRegister rs2 }
    requires number { IsSigned 12 number }
    ensures insn { result ≡ store_insn insn rs1 rs2 number }
    ensures encodable { IsEncodable result }
{
    match insn {
        StoreInsn::Sb => Insn::Sb {
            rs1,
            rs2,
            imm: number,
        },
        StoreInsn::Sh => Insn::Sh {
            rs1,
            rs2,
            imm: number,
        },
        StoreInsn::Sw => Insn::Sw {
            rs1,
            rs2,
            imm: number,
        },
    }
}

/// The branch over this distance.
pub fn branch_insn(insn: BranchInsn, rs1: u8, rs2: u8, distance: i32) -> Insn
    requires rs1 { IsRegister rs1 }
    requires rs2 { IsRegister rs2 }
    requires distance { IsEven 13 distance }
    ensures insn { result ≡ branch_insn insn rs1 rs2 distance }
    ensures encodable { IsEncodable result }
{
    match insn {
        BranchInsn::Beq => Insn::Beq {
            rs1,
            rs2,
            imm: distance,
        },
        BranchInsn::Bne => Insn::Bne {
            rs1,
            rs2,
            imm: distance,
        },
        BranchInsn::Blt => Insn::Blt {
            rs1,
            rs2,
            imm: distance,
        },
        BranchInsn::Bge => Insn::Bge {
            rs1,
            rs2,
            imm: distance,
        },
        BranchInsn::Bltu => Insn::Bltu {
            rs1,
            rs2,
            imm: distance,
        },
        BranchInsn::Bgeu => Insn::Bgeu {
            rs1,
            rs2,
            imm: distance,
        },
    }
}

/// The immediate whose upper 20 bits are these.
fn upper_immediate(upper: u32) -> i32
    requires { upper < 2 ^ 20 }
    ensures immediate { result ≡ upper_immediate upper }
    ensures fits { IsUpper result }
{
    (upper << 12).cast_signed()
}

/// The instruction with these upper bits.
pub fn upper_insn(insn: UpperInsn, rd: u8, upper: u32) -> Insn
    requires rd { IsRegister rd }
    requires upper { upper < 2 ^ 20 }
    ensures insn { result ≡ upper_insn insn rd upper }
    ensures encodable { IsEncodable result }
{
    let imm = upper_immediate(upper);
    match insn {
        UpperInsn::Lui => Insn::Lui { rd, imm },
        UpperInsn::Auipc => Insn::Auipc { rd, imm },
    }
}

/// The instruction without fields.
pub fn bare_insn(insn: BareInsn) -> Insn
    ensures insn { result ≡ bare_insn insn }
    ensures encodable { IsEncodable result }
{
    match insn {
        BareInsn::Fence => Insn::Fence,
        BareInsn::Ecall => Insn::Ecall,
        BareInsn::Ebreak => Insn::Ebreak,
    }
}

// ---- two words for a number

/// The number from -2048 to 2047 that agrees with `value` modulo 4096.
fn low_part(value: u32) -> i32
    ensures part { result ≡ low_part value }
    ensures fits { IsSigned 12 result }
{
    (value << 20).cast_signed() >> 20
}

/// The word that loads the upper bits of a number.
pub fn first_half(rd: u8, value: u32) -> u32
    requires { IsRegister rd }
    ensures { result ≡ first_half rd value }
{
    let upper = ((u64::from(value) + 2048) / 4096 % 0x10_0000) as u32;
    let imm = upper_immediate(upper);
    word_of(Insn::Lui { rd, imm })
}

/// The word that adds the rest of it.
pub fn second_half(rd: u8, value: u32) -> u32
    requires { IsRegister rd }
    ensures { result ≡ second_half rd value }
{
    let imm = low_part(value);
    word_of(Insn::Addi { rd, rs1: rd, imm })
}
