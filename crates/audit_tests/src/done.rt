//! The line of the end of a run. Processes 16 and 17 each read a letter that never comes, by their fifth step; or process 16 writes a letter.
use crate::begun::{front, processes};
use bus_msg::entry::{Entry, What};
use entry_lines::ToldBy;
use log_audit::front::Front;
use log_ends::ends::next_done;
use proc_state::process::Process;
use std::alloc::Global;
use std::collections::BTreeMap;
use std::test::Fail;
use t32_base::process::Pid;
use test_asserts::same;
use test_systems::{HI, WAIT};

// The clusters that the end goes to, how many processes rest, and the last of them with its steps.
type Seen = (u16, usize, Option<(u32, u64)>);

fn last(rests: &[(Pid, u64)]) -> Option<(u32, u64)> {
    match rests.last() {
        Some((pid, steps)) => Some((pid.0, *steps)),
        None => None,
    }
}

fn seen(entry: &Entry) -> Option<Seen> {
    match &entry.post.what {
        What::Done { rests } => Some((entry.dests.clusters, rests.len(), last(rests.as_slice()))),
        _ => None,
    }
}

// What such a line of the end is.
fn done(alloc: Global, text: &str, place: u64, by: ToldBy) -> Result<Option<Seen>, Fail> {
    let front = front(alloc, text)?;
    done_behind(alloc, &front, text, place, by)
}

fn done_behind(
    alloc: Global,
    front: &Front,
    text: &str,
    place: u64,
    by: ToldBy,
) -> Result<Option<Seen>, Fail> {
    let mut processes = processes(alloc, text)?;
    done_by(alloc, front, place, by, &mut processes)
}

fn done_by(
    alloc: Global,
    front: &Front,
    place: u64,
    by: ToldBy,
    processes: &mut BTreeMap<u32, Process>,
) -> Result<Option<Seen>, Fail> {
    match next_done(alloc, front, place, by, processes)? {
        Some(entry) => Ok(seen(&entry)),
        None => Ok(None),
    }
}

// Where both rest, at a later place, by a cluster, and where one is to send.
static ENDS: [(&str, u64, ToldBy, Option<Seen>); 4] = [
    (WAIT, 0, ToldBy::Bus, Some((3, 2, Some((17, 4))))),
    (WAIT, 1, ToldBy::Bus, None),
    (WAIT, 0, ToldBy::Cluster(0), None),
    (HI, 0, ToldBy::Bus, None),
];

#[test]
fn a_run_ends_where_all_rest(rt: HostRuntime) -> Result<(), Fail> {
    for row in &ENDS {
        let shown = done(rt.alloc(), row.0, row.1, row.2)?;
        same("the end", &(row.1, row.2, shown), &(row.1, row.2, row.3))?;
    }
    Ok(())
}
