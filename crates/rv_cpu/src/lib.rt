//! The processor of a process: one instruction of RV32I, and many (RISC-V unprivileged specification, RV32I
//! base integer instruction set).
#![tactic(auto)]

pub mod registers;

ghost use Rattle.std.specs.Prelude.{◌≡◌, true, ◌*◌, ◌^◌, ◌<◌, ◌≤◌, ℕ, List, Some, length, int_lt};
ghost use Rattle.std.specs.Int.{w32, cast_unsigned, cast_signed};
ghost use Rattle.rv_insn.specs.Encoding.{IsEncodable};
ghost use Rattle.rv_insn.specs.Word.{sign_extended};
ghost use Rattle.rv_mem.specs.Memory.{IsWidth};
ghost use Rattle.rv_cpu.specs.Exec.{Executed, branches, bytes_after, did_of, exec, exec_marks, executed, fetched, is_call, is_ecall, jumps, loads, marks_after, marks_stored, onward, plus, reg, regs_after, set_reg, signed, stores, widened, word};
ghost use Rattle.rv_cpu.specs.Kinds.{is_computed, is_operation};
ghost use Rattle.rv_cpu.specs.Run.{machine_of, ran, Stops};

use crate::registers::{advance, read, write};
use byteorder::{ByteOrder, LittleEndian};
use rv_insn::{Insn, decode};
use rv_mem::{BadAddr, Ram};
use t32_base::process::Regs;

/// What an instruction did.
#[derive(Clone, Copy, PartialEq, Eq, Debug)]
pub enum Did {
    /// It was made.
    Stepped,
    /// It is a system call, `ECALL`. Nothing changed: pc still points to it.
    Call,
    /// It traps, and nothing changed: pc still points to it. The codes are 0, a jump or a taken branch to an
    /// address that is no multiple of 4; 1, its word is not all in memory; 2, its word is no instruction;
    /// 3, `EBREAK`; 4 and 5, a load from an address that is no multiple of its width, or with a byte outside
    /// the memory; 6 and 7, the same of a store.
    Trap(u8),
}

/// Makes the instruction at `pc`, on the registers and the memory of a process (RISC-V unprivileged
/// specification, RV32I). A store marks the page that it writes to. Takes no memory.
pub fn exec(regs: &mut Regs, ram: &mut Ram) -> Did
    ensures did { result ≡ did_of (exec regs.old ram.old.bytes) }
    ensures regs { regs.new ≡ regs_after (exec regs.old ram.old.bytes) regs.old }
    ensures bytes { ram.new.bytes ≡ bytes_after (exec regs.old ram.old.bytes) ram.old.bytes }
    ensures dirty { ram.new.dirty ≡ exec_marks regs.old ram.old.bytes ram.old.dirty }
    ensures marks { length ram.new.dirty ≡ length ram.old.dirty }
{
    run(regs, ram, 1).1
}

/// Makes instructions as `exec` does, at most `most`, and stops before the first one that is a system call
/// or a trap. Answers how many it made, and what the one did that it tried last: the call or the trap at which it
/// stopped, or `Stepped` where it made `most`. Takes no memory.
///
/// It is the only place where an instruction is made, so that the compiler makes one loop of it.
pub fn run(regs: &mut Regs, ram: &mut Ram, most: u32) -> (u32, Did)
    ensures made { result.0 ≤ most }
    ensures ran { ran result.0 (machine_of regs.old ram.old) ≡ Some (machine_of regs.new ram.new) }
    ensures stops { result.0 < most → Stops (exec regs.new ram.new.bytes) result.1 }
    ensures all { most ≤ result.0 → result.1 ≡ Did.Stepped }
    ensures marks { length ram.new.dirty ≡ length ram.old.dirty }
{
    for made in 0..most {
        match instruct(regs, ram) {
            Did::Stepped => {}
            did => return (made, did),
        }
    }
    (most, Did::Stepped)
}

// The instruction at `pc`.
#[inline(always)]
fn instruct(regs: &mut Regs, ram: &mut Ram) -> Did
    ensures did { result ≡ did_of (exec regs.old ram.old.bytes) }
    ensures regs { regs.new ≡ regs_after (exec regs.old ram.old.bytes) regs.old }
    ensures bytes { ram.new.bytes ≡ bytes_after (exec regs.old ram.old.bytes) ram.old.bytes }
    ensures dirty { ram.new.dirty ≡ exec_marks regs.old ram.old.bytes ram.old.dirty }
    ensures marks { length ram.new.dirty ≡ length ram.old.dirty }
{
    let Some(word) = fetch(regs, ram) else {
        return Did::Trap(1);
    };
    match decode(word) {
        None => Did::Trap(2),
        Some(insn) => execute(insn, regs, ram),
    }
}

/// Whether the instruction at `pc` is a system call, `ECALL`. Takes no memory.
pub fn calls_next(regs: &Regs, ram: &Ram) -> bool
    ensures { result ≡ is_call (exec regs.now ram.now.bytes) }
{
    match fetch(regs, ram) {
        Some(word) => is_ecall(decode(word)),
        None => false,
    }
}

// Whether a word was decoded as the system call.
fn is_ecall(insn: Option<Insn>) -> bool
    ensures { result ≡ is_ecall insn }
{
    matches!(insn, Some(Insn::Ecall))
}

// The word at `pc`, if it lies in memory.
#[inline(always)]
fn fetch(regs: &Regs, ram: &Ram) -> Option<u32>
    ensures { result ≡ fetched regs.now ram.now.bytes }
{
    let mut word = [0; 4];
    match ram.copy_out(regs.pc, &mut word) {
        Ok(()) => Some(LittleEndian::read_u32(&word)),
        Err(_) => None,
    }
}

// A decoded instruction. Those that only compute stand apart, in two functions, so that each match is short.
#[inline(always)]
fn execute(insn: Insn, regs: &mut Regs, ram: &mut Ram) -> Did
    requires { IsEncodable insn }
    ensures did { result ≡ did_of (executed insn regs.old ram.old.bytes) }
    ensures regs { regs.new ≡ regs_after (executed insn regs.old ram.old.bytes) regs.old }
    ensures bytes { ram.new.bytes ≡ bytes_after (executed insn regs.old ram.old.bytes) ram.old.bytes }
    ensures dirty { ram.new.dirty ≡ marks_after (executed insn regs.old ram.old.bytes) insn regs.old ram.old.dirty }
{
    match insn {
        Insn::Jal { rd, imm } => jumps(regs, rd, regs.pc.wrapping_add_signed(imm)),
        Insn::Jalr { rd, rs1, imm } => {
            let target = read(regs, rs1).wrapping_add_signed(imm);
            jumps(regs, rd, target - target % 2)
        }
        Insn::Beq { rs1, rs2, imm } => branches(regs, read(regs, rs1) == read(regs, rs2), imm),
        Insn::Bne { rs1, rs2, imm } => branches(regs, read(regs, rs1) != read(regs, rs2), imm),
        Insn::Blt { rs1, rs2, imm } => branches(regs, is_less(regs, rs1, rs2), imm),
        Insn::Bge { rs1, rs2, imm } => branches(regs, !is_less(regs, rs1, rs2), imm),
        Insn::Bltu { rs1, rs2, imm } => branches(regs, read(regs, rs1) < read(regs, rs2), imm),
        Insn::Bgeu { rs1, rs2, imm } => branches(regs, read(regs, rs1) >= read(regs, rs2), imm),
        Insn::Lb { rd, rs1, imm } => loads_signed(regs, ram, rd, rs1, imm, 1),
        Insn::Lh { rd, rs1, imm } => loads_signed(regs, ram, rd, rs1, imm, 2),
        Insn::Lw { rd, rs1, imm } => loads(regs, ram, rd, rs1, imm, 4),
        Insn::Lbu { rd, rs1, imm } => loads(regs, ram, rd, rs1, imm, 1),
        Insn::Lhu { rd, rs1, imm } => loads(regs, ram, rd, rs1, imm, 2),
        Insn::Sb { rs1, rs2, imm } => stores(regs, ram, rs1, rs2, imm, 1),
        Insn::Sh { rs1, rs2, imm } => stores(regs, ram, rs1, rs2, imm, 2),
        Insn::Sw { rs1, rs2, imm } => stores(regs, ram, rs1, rs2, imm, 4),
        Insn::Fence => goes_on(regs),
        Insn::Ecall => Did::Call,
        Insn::Ebreak => Did::Trap(3),
        _ => computes(insn, regs),
    }
}

// An instruction that only computes.
#[inline(always)]
fn computes(insn: Insn, regs: &mut Regs) -> Did
    requires encodable { IsEncodable insn }
    requires kind { is_computed insn ≡ true }
    ensures did { (m : List ℕ) → result ≡ did_of (executed insn regs.old m) }
    ensures regs { (m : List ℕ) → regs.new ≡ regs_after (executed insn regs.old m) regs.old }
{
    match insn {
        Insn::Lui { rd, imm } => puts(regs, rd, imm.cast_unsigned()),
        Insn::Auipc { rd, imm } => puts(regs, rd, regs.pc.wrapping_add_signed(imm)),
        Insn::Addi { rd, rs1, imm } => puts(regs, rd, read(regs, rs1).wrapping_add_signed(imm)),
        Insn::Slti { rd, rs1, imm } => puts(regs, rd, u32::from(signed(regs, rs1) < imm)),
        Insn::Sltiu { rd, rs1, imm } => puts(
            regs,
            rd,
            u32::from(read(regs, rs1) < imm.cast_unsigned()),
        ),
        Insn::Xori { rd, rs1, imm } => puts(regs, rd, read(regs, rs1) ^ imm.cast_unsigned()),
        Insn::Ori { rd, rs1, imm } => puts(regs, rd, read(regs, rs1) | imm.cast_unsigned()),
        Insn::Andi { rd, rs1, imm } => puts(regs, rd, read(regs, rs1) & imm.cast_unsigned()),
        Insn::Slli { rd, rs1, imm } => puts(regs, rd, read(regs, rs1) << imm.cast_unsigned()),
        Insn::Srli { rd, rs1, imm } => puts(regs, rd, read(regs, rs1) >> imm.cast_unsigned()),
        Insn::Srai { rd, rs1, imm } => puts(
            regs,
            rd,
            (signed(regs, rs1) >> imm.cast_unsigned()).cast_unsigned(),
        ),
        _ => operates(insn, regs),
    }
}

// One that computes of two registers.
#[inline(always)]
fn operates(insn: Insn, regs: &mut Regs) -> Did
    requires encodable { IsEncodable insn }
    requires kind { is_operation insn ≡ true }
    ensures did { (m : List ℕ) → result ≡ did_of (executed insn regs.old m) }
    ensures regs { (m : List ℕ) → regs.new ≡ regs_after (executed insn regs.old m) regs.old }
{
    match insn {
        Insn::Add { rd, rs1, rs2 } => puts(regs, rd, read(regs, rs1).wrapping_add(read(regs, rs2))),
        Insn::Sub { rd, rs1, rs2 } => puts(regs, rd, read(regs, rs1).wrapping_sub(read(regs, rs2))),
        Insn::Sll { rd, rs1, rs2 } => puts(regs, rd, read(regs, rs1).wrapping_shl(read(regs, rs2))),
        Insn::Slt { rd, rs1, rs2 } => puts(regs, rd, u32::from(is_less(regs, rs1, rs2))),
        Insn::Sltu { rd, rs1, rs2 } => puts(regs, rd, u32::from(read(regs, rs1) < read(regs, rs2))),
        Insn::Xor { rd, rs1, rs2 } => puts(regs, rd, read(regs, rs1) ^ read(regs, rs2)),
        Insn::Srl { rd, rs1, rs2 } => puts(regs, rd, read(regs, rs1).wrapping_shr(read(regs, rs2))),
        Insn::Sra { rd, rs1, rs2 } => puts(
            regs,
            rd,
            signed(regs, rs1)
                .wrapping_shr(read(regs, rs2))
                .cast_unsigned(),
        ),
        Insn::Or { rd, rs1, rs2 } => puts(regs, rd, read(regs, rs1) | read(regs, rs2)),
        Insn::And { rd, rs1, rs2 } => puts(regs, rd, read(regs, rs1) & read(regs, rs2)),
        _ => unreachable!(),
    }
}

// A register as a signed number.
#[inline(always)]
fn signed(regs: &Regs, i: u8) -> i32
    requires { i < 32 }
    ensures { result ≡ signed (reg regs.now i) }
{
    read(regs, i).cast_signed()
}

// Whether the first register is below the second, as signed numbers.
#[inline(always)]
fn is_less(regs: &Regs, rs1: u8, rs2: u8) -> bool
    requires rs1 { rs1 < 32 }
    requires rs2 { rs2 < 32 }
    ensures { result ≡ int_lt (signed (reg regs.now rs1)) (signed (reg regs.now rs2)) }
{
    signed(regs, rs1) < signed(regs, rs2)
}

// The bytes of a number that a load gave, as a signed number's 32 bits.
#[inline(always)]
fn widened(number: u32, width: u8) -> u32
    requires width { IsWidth width }
    requires fits { number < 2 ^ (8 * width) }
    ensures { result ≡ widened (8 * width) number }
{
    let free = 32 - 8 * u32::from(width);
    ((number << free).cast_signed() >> free).cast_unsigned()
}

// What an instruction does that does nothing else.
#[inline(always)]
fn goes_on(regs: &mut Regs) -> Did
    ensures did { result ≡ Did.Stepped }
    ensures regs { regs.new ≡ onward regs.old }
{
    advance(regs);
    Did::Stepped
}

// A register gets a value.
#[inline(always)]
fn puts(regs: &mut Regs, rd: u8, value: u32) -> Did
    requires { rd < 32 }
    ensures did { result ≡ Did.Stepped }
    ensures regs { regs.new ≡ onward (set_reg regs.old rd value) }
{
    write(regs, rd, value);
    goes_on(regs)
}

// A register gets the address of the next instruction, and pc that of a target.
#[inline(always)]
fn jumps(regs: &mut Regs, rd: u8, target: u32) -> Did
    requires { rd < 32 }
    ensures did { (m : List ℕ) → result ≡ did_of (jumps regs.old m rd target) }
    ensures regs { (m : List ℕ) → regs.new ≡ regs_after (jumps regs.old m rd target) regs.old }
{
    if target % 4 != 0 {
        return Did::Trap(0);
    }
    let next = regs.pc.wrapping_add(4);
    write(regs, rd, next);
    regs.pc = target;
    Did::Stepped
}

// To a target, or on.
#[inline(always)]
fn branches(regs: &mut Regs, taken: bool, imm: i32) -> Did
    ensures did { (m : List ℕ) → result ≡ did_of (branches regs.old m taken imm) }
    ensures regs { (m : List ℕ) → regs.new ≡ regs_after (branches regs.old m taken imm) regs.old }
{
    if !taken {
        return goes_on(regs);
    }
    let target = regs.pc.wrapping_add_signed(imm);
    if target % 4 != 0 {
        return Did::Trap(0);
    }
    regs.pc = target;
    Did::Stepped
}

// A register gets the number of so many bytes.
#[inline(always)]
fn loads(regs: &mut Regs, ram: &Ram, rd: u8, rs1: u8, imm: i32, width: u8) -> Did
    requires rd { rd < 32 }
    requires rs1 { rs1 < 32 }
    requires width { IsWidth width }
    ensures did { result ≡ did_of (loads regs.old ram.now.bytes width (λ n. n) rd (plus (reg regs.old rs1) (word imm))) }
    ensures regs { regs.new ≡ regs_after (loads regs.old ram.now.bytes width (λ n. n) rd (plus (reg regs.old rs1) (word imm))) regs.old }
{
    let addr = read(regs, rs1).wrapping_add_signed(imm);
    match ram.load(addr, width) {
        Ok(number) => puts(regs, rd, number),
        Err(BadAddr::Misaligned(_)) => Did::Trap(4),
        Err(BadAddr::OutOfRange(_)) => Did::Trap(5),
    }
}

// The same, where the highest bit of these bytes is a sign.
#[inline(always)]
fn loads_signed(regs: &mut Regs, ram: &Ram, rd: u8, rs1: u8, imm: i32, width: u8) -> Did
    requires rd { rd < 32 }
    requires rs1 { rs1 < 32 }
    requires width { IsWidth width }
    ensures did { result ≡ did_of (loads regs.old ram.now.bytes width (widened (8 * width)) rd (plus (reg regs.old rs1) (word imm))) }
    ensures regs { regs.new ≡ regs_after (loads regs.old ram.now.bytes width (widened (8 * width)) rd (plus (reg regs.old rs1) (word imm))) regs.old }
{
    let addr = read(regs, rs1).wrapping_add_signed(imm);
    match ram.load(addr, width) {
        Ok(number) => puts(regs, rd, widened(number, width)),
        Err(BadAddr::Misaligned(_)) => Did::Trap(4),
        Err(BadAddr::OutOfRange(_)) => Did::Trap(5),
    }
}

// So many bytes of a register go to memory. pc is read before they are written, since the compiler does not
// know that they are not pc.
#[inline(always)]
fn stores(regs: &mut Regs, ram: &mut Ram, rs1: u8, rs2: u8, imm: i32, width: u8) -> Did
    requires rs1 { rs1 < 32 }
    requires rs2 { rs2 < 32 }
    requires width { IsWidth width }
    ensures did { result ≡ did_of (stores regs.old ram.old.bytes width (reg regs.old rs2) (plus (reg regs.old rs1) (word imm))) }
    ensures regs { regs.new ≡ regs_after (stores regs.old ram.old.bytes width (reg regs.old rs2) (plus (reg regs.old rs1) (word imm))) regs.old }
    ensures bytes { ram.new.bytes ≡ bytes_after (stores regs.old ram.old.bytes width (reg regs.old rs2) (plus (reg regs.old rs1) (word imm))) ram.old.bytes }
    ensures dirty { ram.new.dirty ≡ marks_stored (stores regs.old ram.old.bytes width (reg regs.old rs2) (plus (reg regs.old rs1) (word imm))) (plus (reg regs.old rs1) (word imm)) width ram.old.dirty }
{
    let next = regs.pc.wrapping_add(4);
    let addr = read(regs, rs1).wrapping_add_signed(imm);
    match ram.store(addr, width, read(regs, rs2)) {
        Ok(()) => {
            regs.pc = next;
            Did::Stepped
        }
        Err(BadAddr::Misaligned(_)) => Did::Trap(6),
        Err(BadAddr::OutOfRange(_)) => Did::Trap(7),
    }
}
