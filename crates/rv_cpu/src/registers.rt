//! The registers of a process, by number.
ghost use Rattle.std.specs.Prelude.{◌≡◌, ◌<◌};
ghost use Rattle.rv_cpu.specs.Exec.{onward, reg, set_reg};

use t32_base::process::Regs;

/// The number in register `i`, which is below 32.
#[inline(always)]
pub fn read(regs: &Regs, i: u8) -> u32
    requires { i < 32 }
    ensures { result ≡ reg regs.now i }
{
    regs.x[usize::from(i)]
}

/// Writes register `rd`, which is below 32: a write to register 0 is lost.
#[inline(always)]
pub fn write(regs: &mut Regs, rd: u8, value: u32)
    requires { rd < 32 }
    ensures { regs.new ≡ set_reg regs.old rd value }
{
    regs.x[usize::from(rd)] = value;
    regs.x[0] = 0;
}

/// To the next instruction: pc is 4 further, modulo 2^32.
#[inline(always)]
pub fn advance(regs: &mut Regs)
    ensures { regs.new ≡ onward regs.old }
{
    regs.pc = regs.pc.wrapping_add(4);
}
