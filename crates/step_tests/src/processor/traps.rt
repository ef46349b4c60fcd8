//! Each trap at the last address inside and at the first outside, in a memory of one page.
use rv_cpu::{Did, exec};
use rv_mem::Ram;
use std::alloc::Global;
use std::test::Fail;
use t32_base::process::Regs;
use test_asserts::same;

// A word, the address that it stands at, where that lies in memory, and register 5; and what the
// instruction does. The words are those of the GNU assembler.
static TABLE: [(u32, u32, u32, Did); 53] = [
    // addi x0, x0, 0: a fetch at the last place
    (0x00000013, 0x100fc, 0x00000, Did::Stepped),
    // addi x0, x0, 0: a fetch that ends or begins outside
    (0x00000013, 0x100fd, 0x00000, Did::Trap(1)),
    // addi x0, x0, 0: a fetch that ends or begins outside
    (0x00000013, 0x10100, 0x00000, Did::Trap(1)),
    // addi x0, x0, 0: a fetch that ends or begins outside
    (0x00000013, 0x0fffc, 0x00000, Did::Trap(1)),
    // addi x0, x0, 0: a fetch that ends or begins outside
    (0x00000013, 0x0ffff, 0x00000, Did::Trap(1)),
    // .word 0: an illegal word at the last place
    (0x00000000, 0x100fc, 0x00000, Did::Trap(2)),
    // .word 0: and outside
    (0x00000000, 0x10100, 0x00000, Did::Trap(1)),
    // ebreak: ebreak at the last place
    (0x00100073, 0x100fc, 0x00000, Did::Trap(3)),
    // ebreak: and outside
    (0x00100073, 0x10100, 0x00000, Did::Trap(1)),
    // jal x1, .+2: a target that is no multiple of 4
    (0x002000ef, 0x100fc, 0x00000, Did::Trap(0)),
    // jal x1, .+4: a target outside is no trap yet
    (0x004000ef, 0x100fc, 0x00000, Did::Stepped),
    // jalr x1, 0(x5): the same
    (0x000280e7, 0x100fc, 0x100fe, Did::Trap(0)),
    // jalr x1, 1(x5): bit 0 is cleared first
    (0x001280e7, 0x100fc, 0x100fc, Did::Stepped),
    // jalr x1, 0(x5): outside
    (0x000280e7, 0x100fc, 0x10100, Did::Stepped),
    // beq x0, x0, .+2: a taken branch
    (0x00000163, 0x100fc, 0x00000, Did::Trap(0)),
    // bne x0, x0, .+2: a branch that is not taken
    (0x00001163, 0x100fc, 0x00000, Did::Stepped),
    // beq x0, x0, .+4: outside
    (0x00000263, 0x100fc, 0x00000, Did::Stepped),
    // lb x6, 0(x5): the last place inside
    (0x00028303, 0x10000, 0x100ff, Did::Stepped),
    // lb x6, 0(x5): the first outside
    (0x00028303, 0x10000, 0x10100, Did::Trap(5)),
    // lb x6, 0(x5): the last below memory
    (0x00028303, 0x10000, 0x0ffff, Did::Trap(5)),
    // lbu x6, 0(x5): the last place inside
    (0x0002c303, 0x10000, 0x100ff, Did::Stepped),
    // lbu x6, 0(x5): the first outside
    (0x0002c303, 0x10000, 0x10100, Did::Trap(5)),
    // lbu x6, 0(x5): the last below memory
    (0x0002c303, 0x10000, 0x0ffff, Did::Trap(5)),
    // lh x6, 0(x5): the last place inside
    (0x00029303, 0x10000, 0x100fe, Did::Stepped),
    // lh x6, 0(x5): the first outside
    (0x00029303, 0x10000, 0x10100, Did::Trap(5)),
    // lh x6, 0(x5): the last below memory
    (0x00029303, 0x10000, 0x0fffe, Did::Trap(5)),
    // lh x6, 0(x5): no multiple of the width, and partly outside
    (0x00029303, 0x10000, 0x100ff, Did::Trap(4)),
    // lh x6, 0(x5): no multiple of the width, below memory
    (0x00029303, 0x10000, 0x0ffff, Did::Trap(4)),
    // lhu x6, 0(x5): the last place inside
    (0x0002d303, 0x10000, 0x100fe, Did::Stepped),
    // lhu x6, 0(x5): the first outside
    (0x0002d303, 0x10000, 0x10100, Did::Trap(5)),
    // lhu x6, 0(x5): the last below memory
    (0x0002d303, 0x10000, 0x0fffe, Did::Trap(5)),
    // lhu x6, 0(x5): no multiple of the width, and partly outside
    (0x0002d303, 0x10000, 0x100ff, Did::Trap(4)),
    // lhu x6, 0(x5): no multiple of the width, below memory
    (0x0002d303, 0x10000, 0x0ffff, Did::Trap(4)),
    // lw x6, 0(x5): the last place inside
    (0x0002a303, 0x10000, 0x100fc, Did::Stepped),
    // lw x6, 0(x5): the first outside
    (0x0002a303, 0x10000, 0x10100, Did::Trap(5)),
    // lw x6, 0(x5): the last below memory
    (0x0002a303, 0x10000, 0x0fffc, Did::Trap(5)),
    // lw x6, 0(x5): no multiple of the width, and partly outside
    (0x0002a303, 0x10000, 0x100fd, Did::Trap(4)),
    // lw x6, 0(x5): no multiple of the width, below memory
    (0x0002a303, 0x10000, 0x0ffff, Did::Trap(4)),
    // sb x6, 0(x5): the last place inside
    (0x00628023, 0x10000, 0x100ff, Did::Stepped),
    // sb x6, 0(x5): the first outside
    (0x00628023, 0x10000, 0x10100, Did::Trap(7)),
    // sb x6, 0(x5): the last below memory
    (0x00628023, 0x10000, 0x0ffff, Did::Trap(7)),
    // sh x6, 0(x5): the last place inside
    (0x00629023, 0x10000, 0x100fe, Did::Stepped),
    // sh x6, 0(x5): the first outside
    (0x00629023, 0x10000, 0x10100, Did::Trap(7)),
    // sh x6, 0(x5): the last below memory
    (0x00629023, 0x10000, 0x0fffe, Did::Trap(7)),
    // sh x6, 0(x5): no multiple of the width, and partly outside
    (0x00629023, 0x10000, 0x100ff, Did::Trap(6)),
    // sh x6, 0(x5): no multiple of the width, below memory
    (0x00629023, 0x10000, 0x0ffff, Did::Trap(6)),
    // sw x6, 0(x5): the last place inside
    (0x0062a023, 0x10000, 0x100fc, Did::Stepped),
    // sw x6, 0(x5): the first outside
    (0x0062a023, 0x10000, 0x10100, Did::Trap(7)),
    // sw x6, 0(x5): the last below memory
    (0x0062a023, 0x10000, 0x0fffc, Did::Trap(7)),
    // sw x6, 0(x5): no multiple of the width, and partly outside
    (0x0062a023, 0x10000, 0x100fd, Did::Trap(6)),
    // sw x6, 0(x5): no multiple of the width, below memory
    (0x0062a023, 0x10000, 0x0ffff, Did::Trap(6)),
    // ecall: a system call at the last place
    (0x00000073, 0x100fc, 0x00000, Did::Call),
    // ecall: and outside
    (0x00000073, 0x10100, 0x00000, Did::Trap(1)),
];

// Places the word in a memory: whether that is allowed just where four bytes lie inside.
fn place(ram: &mut Ram, pc: u32, word: u32) -> bool {
    let placed = ram.copy_in(pc, &word.to_le_bytes()).is_ok();
    placed == ram.inside(pc, 4)
}

// The bytes of the memory, and whether they could be copied out.
fn bytes(ram: &Ram) -> ([u8; 256], bool) {
    let mut bytes = [0; 256];
    let copied = ram.copy_out(0x10000, &mut bytes).is_ok();
    (bytes, copied)
}

// What the instruction did; whether the bytes could be copied out before and after it; and whether the program counter, register
// 6 and the bytes are as they were.
fn executed(ram: &mut Ram, pc: u32, x5: u32) -> (Did, [bool; 2], bool) {
    let mut regs = Regs::new(pc);
    regs.x[5] = x5;
    let (before, copied) = bytes(ram);
    let did = exec(&mut regs, ram);
    let (after, copied_again) = bytes(ram);
    let kept = (regs.pc, regs.x[6], after) == (pc, 0, before);
    (did, [copied, copied_again], kept)
}

// An instruction that traps or calls keeps all as it was.
fn assert_did(alloc: Global, row: &(u32, u32, u32, Did)) -> Result<(), Fail> {
    let (word, pc, x5, wanted) = *row;
    let mut ram = Ram::filled(alloc, 1, &[])?;
    let placed = place(&mut ram, pc, word);
    let (did, copied, kept) = executed(&mut ram, pc, x5);
    same(
        "the word, where it stands, and what it did",
        &(word, pc, did, (placed, copied, kept || did == Did::Stepped)),
        &(word, pc, wanted, (true, [true; 2], true)),
    )
}

#[test]
fn traps(rt: HostRuntime) -> Result<(), Fail> {
    for row in TABLE.iter() {
        assert_did(rt.alloc(), row)?;
    }
    Ok(())
}
