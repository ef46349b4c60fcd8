//! What is printed of a run and of its log.
use bus_msg::entry::{By, Cause, Dests, Entry, Post, What};
use plain_kernel::item::Item;
use plain_kernel::plain::{Plain, run};
use report_text::outcome::Outcome;
use report_text::run::{Ended, Run};
use report_text::whole::{log_text, report};
use std::alloc::Global;
use std::test::Fail;
use sys_text::read_system;
use sys_text::system::System;
use t32_base::letter::{Body, Letter, To};
use t32_base::lists::{Bytes, List};
use t32_base::process::{ClusterNo, End, Pid};
use t32_base::shared_bytes::SharedBytes;
use t32_base::streams::NoMemory;
use test_asserts::same;
use test_systems::HI;

const WHOLE: &str =
    "tty 0 3\nhi\n\npid 16 exit 0\ncrash none\nbus 3 syncs 0 withheld 0\nschedule 2\nrun 16 6\nrun 16 4\nlog 3\n0 0 mail 16 at 6 out 0 tty 0 68690a\n1 0 exit 16 at 10 exit 0\n2 bus done\n";

const LOST: &str =
    "tty 0 3\nhi\n\npid 16 exit 0\ncrash 0 at 0\nreturn 0 at 1\ncrash 1 at 2\nlost 1 at 2\nbus 3 syncs 0 withheld 7\nschedule 0\n";

const BORN: &str = "tty 0 3\nhi\n\npid 16 exit 0\npid 32 waiting\npid 48 exit 7\n";

fn entry(place: u64, by: By, what: What) -> Entry {
    Entry {
        place,
        post: Post { by, what },
        dests: Dests {
            clusters: 3,
            tty: None,
        },
    }
}

// A process writes three bytes by its step 6.
fn hi_of(alloc: Global, place: u64, from: Pid) -> Result<Entry, NoMemory> {
    let letter = Letter {
        from,
        out: 0,
        to: To::Tty(0),
        body: Body::Said(SharedBytes::copy_of(alloc, b"hi\n")?),
    };
    let mail = What::Mail { at: 6, letter };
    Ok(entry(place, By::Cluster(ClusterNo(0)), mail))
}

// A process ends.
fn exit_of(place: u64, pid: Pid, at: u64, code: u8) -> Entry {
    let end = End::Exit(code);
    entry(
        place,
        By::Cluster(ClusterNo(0)),
        What::Exit { pid, at, end },
    )
}

// The log of the system that writes three bytes and exits.
fn log_of_hi(alloc: Global) -> Result<List<Entry>, NoMemory> {
    let mail = hi_of(alloc, 0, Pid(16))?;
    let rests = List::new(alloc);
    let entries = vec![in alloc;
        mail,
        exit_of(1, Pid(16), 10, 0),
        entry(2, By::Bus, What::Done { rests }),
    ]?;
    Ok(List::from_vec(entries))
}

pub fn run_of(
    alloc: Global,
    log: List<Entry>,
    items: &[Item],
    ended: Ended,
    withheld: u64,
) -> Result<Run, NoMemory> {
    let items = List::from_vec(items.to_vec(alloc)?);
    Ok(Run {
        log,
        items,
        ended,
        steps: List::new(alloc),
        disk_calls: List::new(alloc),
        withheld,
    })
}

// The kernel after the schedule of that system.
fn kernel_of_hi(alloc: Global) -> Result<Plain, Fail> {
    let system = read_system(alloc, HI.as_bytes())?;
    assert_unlinked(&system)?;
    Ok(run(alloc, &system, &HI_ITEMS)?)
}

fn assert_unlinked(system: &System) -> Result<(), Fail> {
    same("no channel", &system.chans.is_empty(), &true)
}

static HI_ITEMS: [Item; 2] = [Item::Run(Pid(16), 6), Item::Run(Pid(16), 4)];

// The report of a run, and behind it its log.
fn whole_text(alloc: Global, plain: &Plain, done: &Run) -> Result<Bytes, NoMemory> {
    let mut text = report(alloc, plain, done)?;
    let log = log_text(alloc, done.log.as_slice())?;
    text.extend(log.as_slice())?;
    Ok(text)
}

fn run_of_hi(alloc: Global) -> Result<Run, NoMemory> {
    let log = log_of_hi(alloc)?;
    run_of(alloc, log, &HI_ITEMS, Ended::Finished, 0)
}

fn assert_whole(alloc: Global, plain: &Plain) -> Result<(), Fail> {
    let done = run_of_hi(alloc)?;
    let text = whole_text(alloc, plain, &done)?;
    same("the report", &text.as_slice(), &WHOLE.as_bytes())
}

#[test]
fn a_run_is_printed_with_its_log(rt: HostRuntime) -> Result<(), Fail> {
    let plain = kernel_of_hi(rt.alloc())?;
    assert_whole(rt.alloc(), &plain)
}

// The log of two losses, and a return between them.
pub fn log_of_losses(alloc: Global) -> Result<List<Entry>, NoMemory> {
    let losses = vec![in alloc;
        crash_of(0, ClusterNo(0), Cause::Place),
        entry(1, By::Bus, What::Return { k: ClusterNo(0) }),
        crash_of(2, ClusterNo(1), Cause::Step(4)),
    ]?;
    Ok(List::from_vec(losses))
}

fn crash_of(place: u64, k: ClusterNo, cause: Cause) -> Entry {
    entry(place, By::Bus, What::Crash { k, cause })
}

// The run of that log: the loss that ended it stands once more.
fn lost_run(alloc: Global) -> Result<Run, NoMemory> {
    let log = log_of_losses(alloc)?;
    let cluster = ClusterNo(1);
    run_of(alloc, log, &[], Ended::Lost { cluster, at: 2 }, 7)
}

fn assert_lost(alloc: Global, plain: &Plain) -> Result<(), Fail> {
    let lost = lost_run(alloc)?;
    let text = report(alloc, plain, &lost)?;
    same("the report", &text.as_slice(), &LOST.as_bytes())
}

#[test]
fn losses_and_returns_are_printed_in_the_order_of_the_log(rt: HostRuntime) -> Result<(), Fail> {
    let plain = kernel_of_hi(rt.alloc())?;
    assert_lost(rt.alloc(), &plain)
}

// A process forks.
fn birth_of(place: u64, parent: Pid, at: u64, child: Pid, end: u8) -> Entry {
    let what = What::Birth {
        parent,
        at,
        child,
        end,
    };
    entry(place, By::Cluster(ClusterNo(0)), what)
}

// The log of a process that forks twice and exits. Its first child writes three bytes, and its second child exits.
fn log_of_births(alloc: Global) -> Result<List<Entry>, NoMemory> {
    let mail = hi_of(alloc, 2, Pid(32))?;
    let entries = vec![in alloc;
        birth_of(0, Pid(16), 3, Pid(32), 1),
        birth_of(1, Pid(16), 5, Pid(48), 2),
        mail,
        exit_of(3, Pid(48), 9, 7),
        exit_of(4, Pid(16), 12, 0),
    ]?;
    Ok(List::from_vec(entries))
}

fn outcome_of_births(alloc: Global) -> Result<Outcome, Fail> {
    let system = read_system(alloc, HI.as_bytes())?;
    let log = log_of_births(alloc)?;
    Ok(Outcome::of(alloc, &system, log.as_slice())?)
}

#[test]
fn a_child_is_there_from_its_birth_and_waits_unless_it_has_ended(
    rt: HostRuntime,
) -> Result<(), Fail> {
    let outcome = outcome_of_births(rt.alloc())?;
    let text = outcome.report(rt.alloc())?;
    same("the report", &text.as_slice(), &BORN.as_bytes())
}
