//! Where the processes of a run were trapped.
ghost use Rattle.std.specs.Prelude.{◌≡◌, ◌++◌, IfOk, OnOk, Some, map};
ghost use Rattle.text_parts.specs.Lines.{lines_of};
ghost use Rattle.proc_state.specs.State.{state_of};
ghost use Rattle.run_notes.specs.Traps.{elder as elder_of, image_of as image_of_root, line_text, parent_or as parent_or_of, trap_line as trap_line_of, trap_part, trap_text, traps_of};

use hints::asm_lines::asm_line;
use plain_kernel::item::Item;
use plain_kernel::plain::Plain;
use proc_state::process::Process;
use rv_mem::BASE;
use std::alloc::Global;
use sys_text::system::{Root, System};
use t32_base::lists::{Bytes, Text};
use t32_base::process::{End, Pid, Status};
use t32_base::streams::NoMemory;

/// A line for each process that ended by a trap, in the kernel to which these items lead: the address of its instruction, and the
/// line of the system text that made that, where it is one of an `asm` block.
pub fn traps(
    alloc: Global,
    text: &[u8],
    system: &System,
    items: &[Item],
    plain: &Plain,
) -> Result<Text, NoMemory>
    ensures { IfOk result (λ note. note ≡ traps_of (lines_of text.now) system.now items.now plain.now (map (λ e. e.0) plain.now.processes)) }
{
    let mut note = Bytes::new(alloc);
    let pids = plain.pids()?;
    for pid in pids.as_slice() {
        if let Some(process) = plain.process(*pid) {
            put_trap(alloc, &mut note, text, system, items, *pid, process)?;
        }
    }
    Ok(note)
}

fn put_trap(
    alloc: Global,
    note: &mut Text,
    text: &[u8],
    system: &System,
    items: &[Item],
    pid: Pid,
    process: &Process,
) -> Result<(), NoMemory>
    ensures { OnOk result (note.new ≡ note.old ++ trap_part (lines_of text.now) system.now items.now pid (Some (state_of process.now))) }
{
    match process.small.status {
        Status::Ended(End::Trap(code)) => {
            let pc = process.small.regs.pc;
            let line = trap_line(alloc, text, system, items, pid, pc)?;
            put_line(alloc, note, pid, code, pc, line)
        }
        _ => Ok(()),
    }
}

fn put_line(
    alloc: Global,
    note: &mut Text,
    pid: Pid,
    code: u8,
    pc: u32,
    line: Option<u64>,
) -> Result<(), NoMemory>
    ensures { OnOk result (note.new ≡ note.old ++ (trap_text pid.0 code pc ++ line_text line)) }
{
    put_address(alloc, note, pid.0, code, pc)?;
    match line {
        Some(number) => put_number(alloc, note, number),
        None => note.extend(b"\n"),
    }
}

fn put_address(alloc: Global, note: &mut Text, pid: u32, code: u8, pc: u32) -> Result<(), NoMemory>
    ensures { OnOk result (note.new ≡ note.old ++ trap_text pid code pc) }
{
    let said = format!(in alloc; "t32: pid {pid}: trap {code} at pc 0x{pc:x}")?;
    note.extend(said.as_bytes())
}

fn put_number(alloc: Global, note: &mut Text, number: u64) -> Result<(), NoMemory>
    ensures { OnOk result (note.new ≡ note.old ++ line_text (Some number)) }
{
    let said = format!(in alloc; ", line {number} of the text\n")?;
    note.extend(said.as_bytes())
}

// The line of the text that made the instruction at this address of a process.
fn trap_line(
    alloc: Global,
    text: &[u8],
    system: &System,
    items: &[Item],
    pid: Pid,
    pc: u32,
) -> Result<Option<u64>, NoMemory>
    ensures { IfOk result (λ line. line ≡ trap_line_of (lines_of text.now) system.now items.now pid pc) }
{
    match image_of(system.roots.as_slice(), elder(items, pid)) {
        Some(image) if pc >= BASE => asm_line(alloc, text, image, u64::from((pc - BASE) / 4)),
        _ => Ok(None),
    }
}

// The root from which a process comes by these items.
fn elder(items: &[Item], pid: Pid) -> Pid
    ensures { result ≡ elder_of items.now pid }
{
    items
        .iter()
        .rev()
        .fold(pid, |child, item| parent_or(child, *item))
}

// The parent of a process, where the item is its birth, and else the process.
fn parent_or(pid: Pid, item: Item) -> Pid
    ensures { result ≡ parent_or_of pid item }
{
    match item {
        Item::Fork(parent, child) if child.0 == pid.0 => parent,
        _ => pid,
    }
}

// The image of a root: its pid tells its home, and the how manieth of those with that home it is.
fn image_of(roots: &[Root], pid: Pid) -> Option<u64>
    ensures { result ≡ image_of_root roots.now pid }
{
    let mut rest = roots;
    let mut left = (pid.0 / 16).saturating_sub(1);
    'roots: while let Some((root, after)) = rest.split_first() {
        if u32::from(root.home.0) == pid.0 % 16 {
            if left == 0 {
                return Some(root.image);
            }
            left -= 1;
        }
        rest = after;
    }
    None
}
