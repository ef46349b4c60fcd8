//! What each kind of entry makes of what is kept of a process. Process 16 is a fullback at home in cluster 0, with its backup in cluster 1.
ghost use Rattle.std.specs.Prelude.{◌≡◌, ◌-◌, ◌<◌, ◌^◌, true, IsTrue};
ghost use Rattle.sys_text.specs.Valid.{is_system};

use audited_process::audited::Audited;
use bus_msg::entry::{By, Cause, Dests, Entry, Post, What};
use bus_msg::shared::Shared;
use cert_sched::start::placement_at_boot;
use channel_table::placement::Placement;
use proc_state::process::Process;
use std::alloc::Global;
use std::test::Fail;
use sys_text::read_system;
use sys_text::system::System;
use t32_base::letter::{BackRec, Body, Letter, To};
use t32_base::lists::List;
use t32_base::process::{ClusterNo, Counts, Pid};
use t32_base::streams::NoMemory;
use test_asserts::same;

const TEXT: &str =
    "clusters 3\npager 0 1\nsyncreads 32\nsyncsteps 4096\nimage bad 1\nwords 00000000\nend\nroot 0 1 full bad 1000 1 0\n";

const PID: Pid = Pid(16);

// ---- what is told of it

// The letters that wait, those that are saved, whether its record has a state, whether page 0 was sent as it was at no step, whether
// it has only been moved, and whether it waits for its new backup.
type Told = (u64, u64, bool, bool, bool, bool);

fn told(audited: &Audited, places: &Placement) -> Told {
    let since = &audited.since_moved;
    (
        audited.process.mail.len() as u64,
        audited.begun.saved,
        audited.begun.start.stated,
        since.sent.has(0, 0),
        since.only,
        since.waits(PID, places),
    )
}

// ---- the entries

fn letter() -> Letter {
    Letter {
        from: Pid(17),
        out: 1,
        to: To::Proc(PID, 1),
        body: Body::EndOf,
    }
}

fn page(alloc: Global) -> Result<What, NoMemory> {
    Ok(What::Page {
        pid: PID,
        at: 0,
        index: 0,
        bytes: Shared::new(alloc, [0; 256])?,
    })
}

// Its synchronisation.
fn sync(alloc: Global, process: &Process) -> Result<What, NoMemory> {
    Ok(What::Sync {
        pid: PID,
        small: Shared::new(alloc, process.small.copy())?,
        read: List::new(alloc),
        took: None,
    })
}

// A new backup for it.
fn backup(alloc: Global, fresh: bool) -> Result<What, NoMemory> {
    let mut recs = List::new(alloc);
    recs.push(BackRec {
        pid: PID,
        state: None,
        saved: List::new(alloc),
        next: 0,
        counts: Counts {
            ends: [0; 32],
            signals: 0,
        },
        births: List::new(alloc),
    })?;
    Ok(What::Rebackup {
        to: ClusterNo(2),
        fresh,
        recs: Shared::new(alloc, recs)?,
    })
}

#[derive(Clone, Copy, PartialEq, Eq, Debug)]
enum Step {
    Letter,
    Page,
    Loss,
    OtherLoss,
    Standing,
    Fresh,
    Sync,
    Stop,
}

fn what_of(alloc: Global, process: &Process, step: Step) -> Result<What, NoMemory> {
    match step {
        Step::Letter => Ok(What::Mail {
            at: 1,
            letter: letter(),
        }),
        Step::Page => page(alloc),
        Step::Loss => Ok(What::Crash {
            k: ClusterNo(0),
            cause: Cause::Place,
        }),
        Step::OtherLoss => Ok(What::Crash {
            k: ClusterNo(2),
            cause: Cause::Place,
        }),
        Step::Standing => backup(alloc, false),
        Step::Fresh => backup(alloc, true),
        Step::Sync => sync(alloc, process),
        Step::Stop => Ok(What::Stop),
    }
}

// Whether it has got few letters, as in a test.
fn has_room(audited: &Audited) -> bool
    ensures letters { IsTrue result → audited.now.process.mail.next < 2 ^ 64 - 1 }
    ensures saved { IsTrue result → audited.now.begun.saved < 2 ^ 64 - 1 }
{
    audited.process.mail.next() < 9 && audited.begun.saved < 9
}

fn take(
    alloc: Global,
    places: &Placement,
    audited: &mut Audited,
    entry: &Entry,
) -> Result<(), Fail> {
    audited.ahead.clear();
    if !has_room(audited) {
        return Err("it has got too many letters".into());
    }
    Ok(audited.take(alloc, PID, places, entry)?)
}

fn take_step(
    alloc: Global,
    places: &Placement,
    audited: &mut Audited,
    step: Step,
) -> Result<(), Fail> {
    let what = what_of(alloc, &audited.process, step)?;
    let dests = Dests {
        clusters: 7,
        tty: None,
    };
    let entry = Entry {
        place: 0,
        post: Post { by: By::Bus, what },
        dests,
    };
    take(alloc, places, audited, &entry)
}

// ---- one after the other

// What is told after each.
static TAKEN: [(Step, Told); 11] = [
    (Step::Page, (0, 0, true, true, false, false)),
    (Step::Letter, (1, 1, true, true, false, false)),
    (Step::Loss, (1, 1, true, false, true, true)),
    (Step::OtherLoss, (1, 1, true, false, true, true)),
    (Step::Letter, (2, 2, true, false, true, true)),
    (Step::Standing, (2, 2, true, false, true, false)),
    (Step::Page, (2, 2, true, true, false, false)),
    (Step::Fresh, (2, 2, true, true, false, false)),
    (Step::Loss, (2, 2, true, false, true, true)),
    (Step::Sync, (2, 2, true, false, false, true)),
    (Step::Stop, (2, 2, true, false, false, true)),
];

fn assert_taken(alloc: Global, places: &Placement, audited: &mut Audited) -> Result<(), Fail> {
    for (step, wanted) in &TAKEN {
        take_step(alloc, places, audited, *step)?;
        same(
            "a process",
            &(*step, told(audited, places)),
            &(*step, *wanted),
        )?;
    }
    Ok(())
}

fn assert_root(alloc: Global, places: &Placement) -> Result<(), Fail> {
    let process = Process::root(alloc, PID, 0x10000, 1, &[], 1000, 1, 0)?;
    let mut audited = Audited::root(alloc, process)?;
    assert_taken(alloc, places, &mut audited)
}

// A child has no state in its record before its first cut.
static BORN: [(Step, Told); 3] = [
    (Step::Letter, (1, 1, false, false, false, false)),
    (Step::Sync, (1, 1, true, false, false, false)),
    (Step::Letter, (2, 2, true, false, false, false)),
];

fn assert_born(alloc: Global, places: &Placement, audited: &mut Audited) -> Result<(), Fail> {
    for (step, wanted) in &BORN {
        take_step(alloc, places, audited, *step)?;
        same(
            "a child",
            &(*step, told(audited, places)),
            &(*step, *wanted),
        )?;
    }
    Ok(())
}

fn assert_child(alloc: Global, places: &Placement) -> Result<(), Fail> {
    let process = Process::root(alloc, PID, 0x10000, 1, &[], 1000, 1, 0)?;
    let mut audited = Audited::child(alloc, process)?;
    assert_born(alloc, places, &mut audited)
}

fn assert_in(alloc: Global, system: &System) -> Result<(), Fail>
    requires { is_system system.now ≡ true }
{
    let places = placement_at_boot(alloc, system)?;
    assert_root(alloc, &places)?;
    assert_child(alloc, &places)
}

#[test]
fn a_process_goes_on_with_the_log(rt: HostRuntime) -> Result<(), Fail> {
    let system = read_system(rt.alloc(), TEXT.as_bytes())?;
    assert_in(rt.alloc(), &system)
}
