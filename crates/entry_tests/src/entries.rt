//! The entries that the tests make, by what their rows say.
use bus_msg::entry::{Cause, What};
use bus_msg::shared::Shared;
use std::alloc::Global;
use t32_base::letter::{Arrived, BackRec, Body, Letter, To};
use t32_base::lists::List;
use t32_base::process::{ClusterNo, Counts, End, EndState, Pid, Regs, Small, Status};
use t32_base::shared_bytes::SharedBytes;
use t32_base::streams::NoMemory;

/// What a letter says: four bytes, that it is the last, or the signal 10.
pub enum Says {
    Bytes,
    End,
    Signal,
}

/// An entry of each kind, in plain values. Of each process that has a new backup it says whether its record has a state.
pub enum Row {
    Mail(u32, To, Says),
    Birth(u32, u32),
    Exit(u32, End),
    Page(u32),
    Sync(u32, Option<u8>),
    Fetch(u32),
    PageIs(u32),
    Crash(u8, Cause),
    Return(u8),
    Rebackup(u8, bool, &'static [(u32, bool)]),
    Done,
    Stop,
}

/// What the entry of a row says.
pub fn made(alloc: Global, row: &Row) -> Result<What, NoMemory> {
    match row {
        Row::Mail(from, to, says) => mail(alloc, *from, *to, says),
        Row::Page(pid) => Ok(What::Page {
            pid: Pid(*pid),
            at: 40,
            index: 3,
            bytes: bytes(alloc)?,
        }),
        Row::Sync(pid, took) => sync(alloc, *pid, *took),
        Row::PageIs(pid) => Ok(What::PageIs {
            pid: Pid(*pid),
            index: 3,
            bytes: bytes(alloc)?,
        }),
        Row::Rebackup(to, fresh, pids) => rebackup(alloc, *to, *fresh, pids),
        Row::Done => done(alloc),
        _ => Ok(plain(row)),
    }
}

// The same of those that take no memory.
fn plain(row: &Row) -> What {
    match row {
        Row::Birth(parent, child) => What::Birth {
            parent: Pid(*parent),
            at: 3,
            child: Pid(*child),
            end: 31,
        },
        Row::Exit(pid, end) => What::Exit {
            pid: Pid(*pid),
            at: 10,
            end: *end,
        },
        Row::Fetch(pid) => What::Fetch {
            pid: Pid(*pid),
            index: 3,
        },
        Row::Crash(k, cause) => What::Crash {
            k: ClusterNo(*k),
            cause: *cause,
        },
        Row::Return(k) => What::Return { k: ClusterNo(*k) },
        _ => What::Stop,
    }
}

fn body(alloc: Global, says: &Says) -> Result<Body, NoMemory> {
    match says {
        Says::Bytes => Ok(Body::Said(SharedBytes::copy_of(alloc, &[0, 104, 159, 255])?)),
        Says::End => Ok(Body::EndOf),
        Says::Signal => Ok(Body::Signal(10)),
    }
}

fn mail(alloc: Global, from: u32, to: To, says: &Says) -> Result<What, NoMemory> {
    let body = body(alloc, says)?;
    Ok(What::Mail {
        at: 9,
        letter: Letter {
            from: Pid(from),
            out: 1,
            to,
            body,
        },
    })
}

// A page whose last byte alone is not 0.
fn bytes(alloc: Global) -> Result<Shared<[u8; 256]>, NoMemory> {
    let mut bytes = [0; 256];
    bytes[255] = 9;
    Shared::new(alloc, bytes)
}

fn small(pid: u32, steps: u32) -> Small {
    Small {
        pid: Pid(pid),
        regs: Regs::new(65536),
        ends: [EndState::Shut; 32],
        handler: 65600,
        frame: None,
        left: 100,
        steps: u64::from(steps),
        births: 2,
        status: Status::Live,
        pages: 1,
    }
}

fn sync(alloc: Global, pid: u32, took: Option<u8>) -> Result<What, NoMemory> {
    let small = Shared::new(alloc, small(pid, 40))?;
    Ok(What::Sync {
        pid: Pid(pid),
        small,
        read: List::from_vec([5, 3].to_vec(alloc)?),
        took,
    })
}

fn saved(alloc: Global, pid: Pid) -> Result<List<Arrived>, NoMemory> {
    let letter = Letter {
        from: Pid(17),
        out: 1,
        to: To::Proc(pid, 2),
        body: Body::Said(SharedBytes::copy_of(alloc, b"hi")?),
    };
    let letters = Vec::from_array(alloc, [Arrived { number: 6, letter }])?;
    Ok(List::from_vec(letters))
}

fn record(alloc: Global, pid: u32, has_state: bool) -> Result<BackRec, NoMemory> {
    let births = List::from_vec([Pid(48)].to_vec(alloc)?);
    let saved = saved(alloc, Pid(pid))?;
    Ok(BackRec {
        pid: Pid(pid),
        state: if has_state {
            Some(small(pid, 80))
        } else {
            None
        },
        saved,
        next: 7,
        counts: Counts {
            ends: [0; 32],
            signals: 5,
        },
        births,
    })
}

fn records(alloc: Global, pids: &[(u32, bool)]) -> Result<List<BackRec>, NoMemory> {
    let mut records = List::new(alloc);
    for (pid, has_state) in pids {
        records.push(record(alloc, *pid, *has_state)?)?;
    }
    Ok(records)
}

fn rebackup(alloc: Global, to: u8, fresh: bool, pids: &[(u32, bool)]) -> Result<What, NoMemory> {
    Ok(What::Rebackup {
        to: ClusterNo(to),
        fresh,
        recs: Shared::new(alloc, records(alloc, pids)?)?,
    })
}

fn done(alloc: Global) -> Result<What, NoMemory> {
    let rests = [(Pid(16), 10), (Pid(33), u64::MAX)].to_vec(alloc)?;
    Ok(What::Done {
        rests: List::from_vec(rests),
    })
}
