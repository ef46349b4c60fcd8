//! The kernel without failures, call by call.
ghost use Rattle.std.specs.Prelude.{◌≡◌, IfOk, true};
ghost use Rattle.sys_text.specs.Valid.{is_system};

use plain_kernel::booting::starts_of;
use plain_kernel::item::{Item, NotApplied, RunRefused};
use plain_kernel::plain::{Plain, default_run, run};
use plain_kernel::start::Start;
use std::alloc::Global;
use std::test::Fail;
use sys_text::read_system;
use sys_text::system::System;
use t32_base::process::{End, Pid, Status};
use t32_base::streams::NoMemory;
use test_asserts::same;
use test_systems::HI;

fn assert_unlinked(system: &System) -> Result<(), Fail> {
    same("no channel", &system.chans.is_empty(), &true)
}

// The system, which has no channel.
fn system(alloc: Global) -> Result<System, Fail>
    ensures { IfOk result (λ system. is_system system ≡ true) }
{
    let system = read_system(alloc, HI.as_bytes())?;
    assert_unlinked(&system)?;
    Ok(system)
}

fn booted(alloc: Global) -> Result<Plain, Fail> {
    let system = system(alloc)?;
    Ok(Plain::boot(alloc, &system)?)
}

fn assert_started(plain: &Plain) -> Result<(), Fail> {
    let pids = plain.pids()?;
    same("the processes", &pids.as_slice(), &[Pid(16)].as_slice())?;
    let shown = (plain.can_move(), plain.process(Pid(17)).is_none());
    same("what can move, and who is not there", &shown, &(true, true))
}

#[test]
fn a_kernel_starts_with_its_roots(rt: HostRuntime) -> Result<(), Fail> {
    let plain = booted(rt.alloc())?;
    assert_started(&plain)?;
    assert_written(&plain, b"")?;
    same("another terminal", &plain.tty(1), &None)
}

// This was written to terminal 0.
fn assert_written(plain: &Plain, bytes: &[u8]) -> Result<(), Fail> {
    match plain.tty(0) {
        Some(written) => same("what is written", &written, &bytes),
        None => Err("there is no terminal 0".into()),
    }
}

// One root of two pages, whose image has one word more than the first page holds, behind 62 that are 0.
static TWO_PAGES: &str =
    "clusters 2\npager 0 1\nsyncreads 32\nsyncsteps 4096\nimage long 2\nwords 00200893 00000000 00000000 00000000 00000000 00000000 00000000 00000000\nwords 00000000 00000000 00000000 00000000 00000000 00000000 00000000 00000000\nwords 00000000 00000000 00000000 00000000 00000000 00000000 00000000 00000000\nwords 00000000 00000000 00000000 00000000 00000000 00000000 00000000 00000000\nwords 00000000 00000000 00000000 00000000 00000000 00000000 00000000 00000000\nwords 00000000 00000000 00000000 00000000 00000000 00000000 00000000 00000000\nwords 00000000 00000000 00000000 00000000 00000000 00000000 00000000 00000000\nwords 00000000 00000000 00000000 00000000 00000000 00000000 00000000 0a6968ff\nwords 00100513\nend\nroot 0 1 quarter long 1000 0 0\n";

type Page = [u8; 256];

fn two_pages(start: &Start) -> Option<(Page, Page)> {
    if start.pages() != 2 {
        return None;
    }
    Some((start.page(0), start.page(1)))
}

// The same of the memory of its process.
fn process_pages(alloc: Global, start: Start) -> Result<Option<(Page, Page)>, NoMemory> {
    let process = start.process(alloc)?;
    if process.ram.pages() != 2 {
        return Ok(None);
    }
    Ok(Some((process.ram.page(0), process.ram.page(1))))
}

// The first five bytes of a page.
fn front(page: &Page) -> [u8; 5] {
    let [a, b, c, d, e, ..] = *page;
    [a, b, c, d, e]
}

// Its last five.
fn back(page: &Page) -> [u8; 5] {
    let [.., a, b, c, d, e] = *page;
    [a, b, c, d, e]
}

fn assert_pages(start: &Start) -> Result<(), Fail> {
    if start.pages() != 2 {
        return Err("there are not two pages".into());
    }
    let first = start.page(0);
    let second = start.page(1);
    let shown = [front(&first), back(&first), front(&second)];
    let wanted = [
        [0x93, 0x08, 0x20, 0, 0],
        [0, 0xff, 0x68, 0x69, 0x0a],
        [0x13, 0x05, 0x10, 0, 0],
    ];
    same("the pages", &shown, &wanted)?;
    same("the last byte", &second[255], &0)
}

fn assert_start(alloc: Global, start: Start) -> Result<(), Fail> {
    assert_pages(&start)?;
    let pages = two_pages(&start);
    let process = process_pages(alloc, start)?;
    same("the memory of the process", &process, &pages)
}

#[test]
fn a_root_at_its_start_has_the_pages_of_its_process(rt: HostRuntime) -> Result<(), Fail> {
    let system = read_system(rt.alloc(), TWO_PAGES.as_bytes())?;
    for (pid, start) in starts_of(rt.alloc(), &system)? {
        same("the pid", &pid, &16)?;
        assert_start(rt.alloc(), start)?;
    }
    Ok(())
}

// The status and the count of steps of a process.
fn state(plain: &Plain, pid: Pid) -> Option<(Status, u64)> {
    let process = plain.process(pid)?;
    Some((process.small.status, process.small.steps))
}

// What cannot be applied, and the steps that could be made.
static DISABLED: [(Item, u64); 6] = [
    (Item::Run(Pid(16), 0), 0),
    (Item::Run(Pid(17), 1), 0),
    (Item::Fork(Pid(16), Pid(32)), 0),
    (Item::Take(Pid(16)), 0),
    (Item::Run(Pid(16), 5), 4),
    (Item::Run(Pid(16), 1), 0),
];

fn assert_disabled(plain: &mut Plain) -> Result<(), Fail> {
    for row in DISABLED.iter() {
        let refused = NotApplied::Disabled { done: row.1 };
        same("the item", &plain.apply(&row.0), &Err(refused))?;
    }
    Ok(())
}

fn assert_applied(plain: &mut Plain) -> Result<(), Fail> {
    plain.apply(&Item::Run(Pid(16), 6))?;
    assert_written(plain, b"hi\n")?;
    assert_disabled(plain)?;
    let ended = (Status::Ended(End::Exit(0)), 10);
    let shown = (plain.can_move(), state(plain, Pid(16)));
    same("the end", &shown, &(false, Some(ended)))
}

#[test]
fn a_schedule_is_applied_item_by_item(rt: HostRuntime) -> Result<(), Fail> {
    let mut plain = booted(rt.alloc())?;
    assert_applied(&mut plain)
}

static WHOLE: [Item; 2] = [Item::Run(Pid(16), 6), Item::Run(Pid(16), 4)];

static BAD: [Item; 2] = [Item::Run(Pid(16), 6), Item::Run(Pid(16), 5)];

// Whether a process can move after a schedule.
fn moves_after(alloc: Global, items: &[Item]) -> Result<Result<bool, RunRefused>, Fail> {
    let system = system(alloc)?;
    Ok(run(alloc, &system, items).map(|plain| plain.can_move()))
}

#[test]
fn a_schedule_runs_whole_or_names_its_first_bad_item(rt: HostRuntime) -> Result<(), Fail> {
    let shown = [
        moves_after(rt.alloc(), &WHOLE)?,
        moves_after(rt.alloc(), &BAD)?,
    ];
    let refused = RunRefused::BadItem { index: 1 };
    same("the runs", &shown, &[Ok(false), Err(refused)])
}

fn default_plain(alloc: Global) -> Result<Plain, Fail> {
    let system = system(alloc)?;
    Ok(default_run(alloc, &system)?)
}

#[test]
fn the_default_run_writes_what_the_program_does(rt: HostRuntime) -> Result<(), Fail> {
    let plain = default_plain(rt.alloc())?;
    assert_written(&plain, b"hi\n")
}
