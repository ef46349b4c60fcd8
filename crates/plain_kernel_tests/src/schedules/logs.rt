//! The schedule of a log, from its entries.
use bus_msg::entry::{By, Cause, Dests, Entry, Post, What};
use bus_msg::shared::Shared;
use cert_sched::cert::Cert;
use plain_kernel::item::Item;
use std::alloc::Global;
use std::test::Fail;
use t32_base::letter::{BackRec, Body, Letter, To};
use t32_base::lists::List;
use t32_base::process::{ClusterNo, Counts, End, EndState, Pid, Regs, Small, Status};
use t32_base::shared_bytes::SharedBytes;
use t32_base::streams::NoMemory;
use test_asserts::same;

// What an entry says, as the tests write it.
enum Said {
    // A process writes a line by a step.
    Mail(u32, u64),
    Exit(u32, u64),
    // A process bears a child by a step.
    Birth(u32, u64, u32),
    // A process synchronises after so many steps, with the signal that it took.
    Sync(u32, u32, Option<u8>),
    // A process gets a new backup, fresh or standing, with its state after so many steps.
    Rebackup(bool, u32, u32),
    Crash,
    // The end, with the steps of each process that has not ended.
    Done(&'static [(u32, u64)]),
}

/// A line that a process writes to terminal 0 by a step.
fn mail(alloc: Global, pid: u32, at: u64) -> Result<What, NoMemory> {
    Ok(What::Mail {
        at,
        letter: Letter {
            from: Pid(pid),
            out: 0,
            to: To::Tty(0),
            body: Body::Said(SharedBytes::copy_of(alloc, b"hi\n")?),
        },
    })
}

fn exit(pid: u32, at: u64) -> What {
    What::Exit {
        pid: Pid(pid),
        at,
        end: End::Exit(0),
    }
}

fn birth(parent: u32, at: u64, child: u32) -> What {
    What::Birth {
        parent: Pid(parent),
        at,
        child: Pid(child),
        end: 1,
    }
}

/// A process that has made so many steps.
fn small(pid: u32, steps: u32) -> Small {
    Small {
        pid: Pid(pid),
        regs: Regs::new(0x10000),
        ends: [EndState::Shut; 32],
        handler: 0,
        frame: None,
        left: 1000,
        steps: u64::from(steps),
        births: 0,
        status: Status::Live,
        pages: 1,
    }
}

fn sync(alloc: Global, pid: u32, steps: u32, took: Option<u8>) -> Result<What, NoMemory> {
    Ok(What::Sync {
        pid: Pid(pid),
        small: Shared::new(alloc, small(pid, steps))?,
        read: List::new(alloc),
        took,
    })
}

fn record(alloc: Global, pid: u32, steps: u32) -> BackRec {
    BackRec {
        pid: Pid(pid),
        state: Some(small(pid, steps)),
        saved: List::new(alloc),
        next: 0,
        counts: Counts {
            ends: [0; 32],
            signals: 0,
        },
        births: List::new(alloc),
    }
}

fn alone(alloc: Global, record: BackRec) -> Result<List<BackRec>, NoMemory> {
    let mut recs = List::new(alloc);
    recs.push(record)?;
    Ok(recs)
}

/// A new backup for a process, with its state after so many steps.
fn rebackup(alloc: Global, fresh: bool, pid: u32, steps: u32) -> Result<What, NoMemory> {
    Ok(What::Rebackup {
        to: ClusterNo(1),
        fresh,
        recs: Shared::new(alloc, alone(alloc, record(alloc, pid, steps))?)?,
    })
}

fn crash() -> What {
    What::Crash {
        k: ClusterNo(0),
        cause: Cause::Place,
    }
}

/// The end, with the steps of each process that has not ended.
fn done(alloc: Global, steps: &[(u32, u64)]) -> Result<What, NoMemory> {
    let mut rests = List::new(alloc);
    for (pid, at) in steps {
        rests.push((Pid(*pid), *at))?;
    }
    Ok(What::Done { rests })
}

fn what(alloc: Global, said: &Said) -> Result<What, NoMemory> {
    match said {
        Said::Mail(pid, at) => mail(alloc, *pid, *at),
        Said::Exit(pid, at) => Ok(exit(*pid, *at)),
        Said::Birth(parent, at, child) => Ok(birth(*parent, *at, *child)),
        Said::Sync(pid, steps, took) => sync(alloc, *pid, *steps, *took),
        Said::Rebackup(fresh, pid, steps) => rebackup(alloc, *fresh, *pid, *steps),
        Said::Crash => Ok(crash()),
        Said::Done(steps) => done(alloc, steps),
    }
}

/// Adds an entry that says this.
fn add(cert: &mut Cert, what: What) -> Result<(), NoMemory> {
    cert.add(&Entry {
        place: 0,
        post: Post { by: By::Bus, what },
        dests: Dests {
            clusters: 3,
            tty: None,
        },
    })
}

fn add_said(alloc: Global, cert: &mut Cert, said: &Said) -> Result<(), NoMemory> {
    let what = what(alloc, said)?;
    add(cert, what)
}

fn add_log(alloc: Global, cert: &mut Cert, log: &[Said]) -> Result<(), NoMemory> {
    for said in log {
        add_said(alloc, cert, said)?;
    }
    Ok(())
}

// The schedule of a log has just these items.
fn assert_items(alloc: Global, case: &str, log: &[Said], wanted: &[Item]) -> Result<(), Fail> {
    let mut cert = Cert::none(alloc);
    add_log(alloc, &mut cert, log)?;
    same(case, &cert.items(), &wanted)
}

// What a log shows, the log, and its items.
static LOGS: [(&str, &[Said], &[Item]); 7] = [
    ("a log without entries has no items", &[], &[]),
    (
        "a process that writes and exits has two runs",
        &[Said::Mail(16, 6), Said::Exit(16, 10), Said::Done(&[])],
        &[Item::Run(Pid(16), 6), Item::Run(Pid(16), 4)],
    ),
    (
        "a synchronisation is a run and a crash is none",
        &[
            Said::Sync(16, 64, None),
            Said::Crash,
            Said::Exit(16, 102),
            Said::Done(&[]),
        ],
        &[Item::Run(Pid(16), 64), Item::Run(Pid(16), 38)],
    ),
    (
        "a new backup is a run where its process has run",
        &[
            Said::Mail(16, 6),
            Said::Rebackup(false, 16, 20),
            Said::Rebackup(true, 16, 9),
            Said::Exit(16, 13),
        ],
        &[
            Item::Run(Pid(16), 6),
            Item::Run(Pid(16), 3),
            Item::Run(Pid(16), 4),
        ],
    ),
    (
        "the end is the run of each process that is further",
        &[
            Said::Mail(16, 5),
            Said::Mail(17, 4),
            Said::Done(&[(16, 5), (17, 9)]),
        ],
        &[
            Item::Run(Pid(16), 5),
            Item::Run(Pid(17), 4),
            Item::Run(Pid(17), 5),
        ],
    ),
    (
        "a birth is a run and a fork",
        &[
            Said::Birth(16, 2, 32),
            Said::Mail(32, 7),
            Said::Mail(16, 7),
            Said::Mail(32, 11),
            Said::Exit(32, 12),
            Said::Exit(16, 8),
        ],
        &[
            Item::Run(Pid(16), 1),
            Item::Fork(Pid(16), Pid(32)),
            Item::Run(Pid(32), 7),
            Item::Run(Pid(16), 5),
            Item::Run(Pid(32), 4),
            Item::Run(Pid(32), 1),
            Item::Run(Pid(16), 1),
        ],
    ),
    (
        "a signal that was taken stands after the run",
        &[
            Said::Sync(16, 9, Some(11)),
            Said::Mail(16, 15),
            Said::Exit(16, 21),
        ],
        &[
            Item::Run(Pid(16), 9),
            Item::Take(Pid(16)),
            Item::Run(Pid(16), 6),
            Item::Run(Pid(16), 6),
        ],
    ),
];

#[test]
fn the_schedule_of_a_log_is_its_runs_forks_and_takes(rt: HostRuntime) -> Result<(), Fail> {
    for row in LOGS.iter() {
        assert_items(rt.alloc(), row.0, row.1, row.2)?;
    }
    Ok(())
}
