//! Each call of the memory, and of many instructions, where memory suffices.
use rv_cpu::{Did, exec, run};
use rv_mem::{BadAddr, NoMemory, Ram};
use std::alloc::Global;
use std::test::Fail;
use t32_base::process::Regs;
use test_asserts::same;

// Stores 2, 4 and 6 at 4 after the address in x7, and then makes a system call:
//       addi x5, x0, 3
// loop: addi x6, x6, 2
//       addi x5, x5, -1
//       sw x6, 4(x7)
//       bne x5, x0, loop
//       ecall
static PROGRAM: [u8; 24] = [
    0x93, 0x02, 0x30, 0x00, 0x13, 0x03, 0x23, 0x00, 0x93, 0x82, 0xf2, 0xff, 0x23, 0xa2, 0x63, 0x00,
    0xe3, 0x9a, 0x02, 0xfe, 0x73, 0x00, 0x00, 0x00,
];

// What a run made and at what it stopped, and the program counter and x6 then.
type Ran = ((u32, Did), u32, u32);

// The most instructions of a run, and what it was.
static RUNS: [(u32, Ran); 4] = [
    (0, ((0, Did::Stepped), 0x10000, 0)),
    (4, ((4, Did::Stepped), 0x10010, 2)),
    (9, ((9, Did::Stepped), 0x10014, 6)),
    (100, ((0, Did::Call), 0x10014, 6)),
];

fn ran(regs: &mut Regs, ram: &mut Ram, most: u32) -> Ran {
    let ran = run(regs, ram, most);
    (ran, regs.pc, regs.x[6])
}

fn assert_runs(regs: &mut Regs, ram: &mut Ram) -> Result<(), Fail> {
    for row in RUNS.iter() {
        same("a run", &ran(regs, ram, row.0), &row.1)?;
    }
    Ok(())
}

// Whether the pages 0 and 1 were written, of a memory that has two.
fn dirty(ram: &Ram) -> Option<(bool, bool)> {
    if ram.pages() != 2 {
        return None;
    }
    Some((ram.is_dirty(0), ram.is_dirty(1)))
}

// What the call did, what a load answers then, and which pages were written.
type Called = (Did, Option<u32>, Option<(bool, bool)>);

fn called(ram: &mut Ram) -> Result<Called, Fail> {
    let mut regs = Regs::new(0x10000);
    regs.x[7] = 0x10100;
    assert_runs(&mut regs, ram)?;
    let did = exec(&mut regs, ram);
    Ok((did, ram.load(0x10104, 4).ok(), dirty(ram)))
}

static CALLED: Called = (Did::Call, Some(6), Some((false, true)));

#[test]
fn runs_to_the_call(rt: HostRuntime) -> Result<(), Fail> {
    let mut ram = Ram::filled(rt.alloc(), 2, &PROGRAM)?;
    same("the call", &called(&mut ram)?, &CALLED)
}

// Whether an access lies inside, whether a store and copies are allowed, and what is copied out.
type Written = ([bool; 4], [u8; 4]);

fn written(ram: &mut Ram) -> Written {
    let inside = ram.inside(0x101fc, 4);
    let stored = ram.store(0x100fe, 2, 0xabcd1234).is_ok();
    let copied_in = ram.copy_in(0x100ff, &[1, 2]).is_ok();
    let mut out = [0; 4];
    let copied_out = ram.copy_out(0x100fd, &mut out).is_ok();
    ([inside, stored, copied_in, copied_out], out)
}

static WRITTEN: Written = ([true; 4], [0, 0x34, 1, 2]);

fn part(ram: &Ram) -> Option<[u8; 2]> {
    if !ram.inside(0x10001, 2) {
        return None;
    }
    ram.part(0x10001, 2).try_into().ok()
}

// Of a memory of two pages: the last byte of page 0, of which page 1 becomes a copy; which were written then; and two bytes of page 1.
type Copied = Option<(u8, Option<(bool, bool)>, Option<u32>)>;

fn copied(ram: &mut Ram) -> Copied {
    if ram.pages() != 2 {
        return None;
    }
    let page = ram.page(0);
    ram.set_page(1, &page);
    Some((page[255], dirty(ram), ram.load(0x10100, 2).ok()))
}

static COPIED: Copied = Some((1, Some((true, false)), Some(0x0807)));

// Whether page 0 was written, once that is cleared, and page 1 of the child, made before; and what loads of the child answer.
type Child = (Option<bool>, Option<bool>, Option<u32>, Option<BadAddr>);

fn child(ram: &mut Ram) -> Result<Child, NoMemory> {
    let child = ram.child()?;
    ram.clear_dirty();
    let first = dirty(ram).map(|pages| pages.0);
    let second = dirty(&child).map(|pages| pages.1);
    Ok((
        first,
        second,
        child.load(0x101ff, 1).ok(),
        child.load(0x10200, 1).err(),
    ))
}

static CHILD: Child = (
    Some(false),
    Some(true),
    Some(1),
    Some(BadAddr::OutOfRange(0x10200)),
);

#[test]
fn memory_gives_back(rt: HostRuntime) -> Result<(), Fail> {
    let mut ram = Ram::filled(rt.alloc(), 2, &[7, 8, 9])?;
    assert_gives_back(&mut ram)
}

fn assert_gives_back(ram: &mut Ram) -> Result<(), Fail> {
    same("what is written", &written(ram), &WRITTEN)?;
    same("two bytes", &part(ram), &Some([8, 9]))?;
    same("a page", &copied(ram), &COPIED)?;
    same("a child", &child(ram)?, &CHILD)
}

fn assert_told(alloc: Global, fault: BadAddr, words: &str) -> Result<(), Fail> {
    let told = format!(in alloc; "{fault}")?;
    same("the words", &told.as_str(), &words)
}

#[test]
fn says_why(rt: HostRuntime) -> Result<(), Fail> {
    assert_told(
        rt.alloc(),
        BadAddr::Misaligned(0x10003),
        "address 0x10003 is no multiple of the width of the access",
    )?;
    assert_told(
        rt.alloc(),
        BadAddr::OutOfRange(0x20000),
        "the access at address 0x20000 goes outside the memory",
    )
}
