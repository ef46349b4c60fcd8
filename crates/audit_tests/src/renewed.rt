//! Lines of clusters that return and of new backups. Process 16 is the only root: at home in cluster 0 with its backup in cluster 1, until cluster 0 is lost
//! at place 0. It makes five steps that send nothing, and writes to its terminal by the sixth.
ghost use Rattle.channel_table.specs.Changes.{CanBeAbsorbed};

use backup_queue::record::Record;
use backup_records::records::Records;
use birth_notice::family::Family;
use bus_msg::entry::{By, Cause, Dests, Entry, Post, What};
use entry_lines::ToldBy;
use log_audit::front::Front;
use log_cuts::ahead::Ahead;
use log_processes::sender::{Head, Limits, Sender};
use log_renewals::fresh::next_fresh;
use log_renewals::moved::follow;
use log_renewals::returns::next_return;
use log_renewals::standing::{StandingHead, next_standing};
use page_accounts::booting::put_roots;
use page_server::mem_disk::MemDisk;
use page_server::pager::Pager;
use plain_kernel::booting::{processes_of, starts_of};
use proc_state::process::Process;
use std::alloc::Global;
use std::test::Fail;
use sys_text::read_system;
use t32_base::lists::List;
use t32_base::process::{ClusterNo, End, Pid};
use t32_base::streams::NoMemory;
use test_asserts::same;

// A fullback.
const FULL: &str =
    "clusters 3\npager 0 1\nsyncreads 32\nsyncsteps 4096\nasm two 1\nli a7, 2\nli a0, 0\nla a1, m\nli a2, 2\necall\nli a7, 1\nli a0, 0\necall\nm: .ascii \"a\\n\"\nend\nroot 0 1 full two 1000 0 0\n";

// The same as a halfback.
const HALF: &str =
    "clusters 3\npager 1 2\nsyncreads 32\nsyncsteps 4096\nasm two 1\nli a7, 2\nli a0, 0\nla a1, m\nli a2, 2\necall\nli a7, 1\nli a0, 0\necall\nm: .ascii \"a\\n\"\nend\nroot 0 1 half two 1000 0 0\n";

const PID: Pid = Pid(16);

const BUS: ToldBy = ToldBy::Bus;

fn at_boot(alloc: Global, text: &str) -> Result<Front, Fail> {
    let system = read_system(alloc, text.as_bytes())?;
    Ok(Front::start(alloc, &system)?)
}

fn after_loss(alloc: Global, text: &str) -> Result<Front, Fail> {
    let mut front = at_boot(alloc, text)?;
    let what = What::Crash {
        k: ClusterNo(0),
        cause: Cause::Place,
    };
    take(&mut front, 0, what)?;
    Ok(front)
}

// Its entry at this place, by the bus, which goes to all three clusters.
fn take(front: &mut Front, place: u64, what: What) -> Result<(), Fail>
    requires { CanBeAbsorbed front.old.places what }
{
    if place > 1 || !front.is_next(place) {
        return Err("that is not its next place".into());
    }
    let dests = Dests {
        clusters: 7,
        tty: None,
    };
    let post = Post { by: By::Bus, what };
    let entry = Entry { place, post, dests };
    Ok(front.take(&entry)?)
}

// ---- returns

// The place of an entry, and the clusters that it goes to.
fn seen(entry: Option<Entry>) -> Option<(u64, u16)> {
    let entry = entry?;
    Some((entry.place, entry.dests.clusters))
}

// After the loss of cluster 0: its return, at a later place, by a cluster, of one that lives, of one that is not there, and of one past all.
const RETURNS: [Option<(u64, u16)>; 6] = [Some((1, 7)), None, None, None, None, None];

#[test]
fn a_cluster_that_is_lost_may_return(rt: HostRuntime) -> Result<(), Fail> {
    let front = after_loss(rt.alloc(), FULL)?;
    let lines = [
        seen(next_return(&front, 1, BUS, 0)),
        seen(next_return(&front, 2, BUS, 0)),
        seen(next_return(&front, 1, ToldBy::Cluster(1), 0)),
        seen(next_return(&front, 1, BUS, 1)),
        seen(next_return(&front, 1, BUS, 3)),
        seen(next_return(&front, 1, BUS, 256)),
    ];
    let wanted = RETURNS;
    same("the returns", &lines, &wanted)
}

// ---- families that wait

fn process(alloc: Global, text: &str) -> Result<Process, Fail> {
    let system = read_system(alloc, text.as_bytes())?;
    match processes_of(alloc, &system)?.remove(&16) {
        Some(process) => Ok(process),
        None => Err("there is no such process".into()),
    }
}

// Its record as it starts, and those of children that never synchronised.
fn records(alloc: Global, children: &[u32]) -> Result<Records, Fail> {
    let root = process(alloc, FULL)?;
    let mut records = Records::none(alloc);
    records.add(Record::new(alloc, PID, Some(root.small.copy())))?;
    add_children(alloc, &mut records, children)?;
    Ok(records)
}

fn add_children(alloc: Global, records: &mut Records, children: &[u32]) -> Result<(), NoMemory> {
    for child in children {
        records.add(Record::new(alloc, Pid(*child), None))?;
    }
    Ok(())
}

fn family(alloc: Global, children: &[u32]) -> Result<Family, Fail> {
    let mut family = Family::none(alloc);
    for child in children {
        let child = Pid(*child);
        if child.0 != PID.0 && !family.knows(child) {
            family.born(PID, child)?;
        }
    }
    Ok(family)
}

// The place of an entry, the clusters that it goes to, the cluster of the backup, and the pid of the last record.
type SeenBackup = Option<(u64, u16, u8, u32)>;

fn backup_seen(entry: &Entry) -> SeenBackup {
    match &entry.post.what {
        What::Rebackup { to, recs, .. } => {
            let last = recs.get().as_slice().last()?;
            Some((entry.place, entry.dests.clusters, to.0, last.pid.0))
        }
        _ => None,
    }
}

// By such a head, with these children that never synchronised, where the line names these.
fn standing(
    alloc: Global,
    head: StandingHead,
    moved_only: bool,
    children: &[u32],
    named: &[u64],
) -> Result<SeenBackup, Fail> {
    let records = records(alloc, children)?;
    standing_of(alloc, head, moved_only, children, named, &records)
}

fn standing_of(
    alloc: Global,
    head: StandingHead,
    moved_only: bool,
    children: &[u32],
    named: &[u64],
    records: &Records,
) -> Result<SeenBackup, Fail> {
    let family = family(alloc, children)?;
    let front = after_loss(alloc, FULL)?;
    match next_standing(alloc, &front, head, named, moved_only, &family, records)? {
        Some(entry) => Ok(backup_seen(&entry)),
        None => Ok(None),
    }
}

const WAITS: StandingHead = StandingHead {
    place: 1,
    by: ToldBy::Cluster(1),
    pid: PID,
    to: 2,
};

// After the loss: its backup in cluster 2, by the lost cluster, in its home, and after it has run.
const STANDING: [SeenBackup; 4] = [Some((1, 6, 2, 16)), None, None, None];

#[test]
fn a_process_that_waits_gets_a_new_backup(rt: HostRuntime) -> Result<(), Fail> {
    let alloc = rt.alloc();
    let lost = StandingHead {
        by: ToldBy::Cluster(0),
        ..WAITS
    };
    let home = StandingHead { to: 1, ..WAITS };
    let lines = [
        standing(alloc, WAITS, true, &[], &[])?,
        standing(alloc, lost, true, &[], &[])?,
        standing(alloc, home, true, &[], &[])?,
        standing(alloc, WAITS, false, &[], &[])?,
    ];
    let wanted = STANDING;
    same("the new backups", &lines, &wanted)
}

// With two children: in either order, without one, with one twice, and with another that differs beyond 32 bits.
const FAMILIES: [SeenBackup; 5] = [Some((1, 6, 2, 48)), Some((1, 6, 2, 32)), None, None, None];

#[test]
fn the_family_that_waits_gets_it_too(rt: HostRuntime) -> Result<(), Fail> {
    let alloc = rt.alloc();
    let lines = [
        standing(alloc, WAITS, true, &[32, 48], &[32, 48])?,
        standing(alloc, WAITS, true, &[32, 48], &[48, 32])?,
        standing(alloc, WAITS, true, &[32, 48], &[32])?,
        standing(alloc, WAITS, true, &[32, 48], &[32, 32])?,
        standing(alloc, WAITS, true, &[32, 48], &[32, 4294967344])?,
    ];
    let wanted = FAMILIES;
    same("the families", &lines, &wanted)
}

// Where there is no record of it, and where that has no state.
#[test]
fn a_process_without_a_state_gets_none(rt: HostRuntime) -> Result<(), Fail> {
    let alloc = rt.alloc();
    let mut records = Records::none(alloc);
    let absent = standing_of(alloc, WAITS, true, &[], &[], &records)?;
    records.add(Record::new(alloc, PID, None))?;
    let lines = [absent, standing_of(alloc, WAITS, true, &[], &[], &records)?];
    let wanted: [SeenBackup; 2] = [None, None];
    same("the new backups", &lines, &wanted)
}

// Whether process 16 has still only been moved after an entry of its home.
fn moved_still(moved_only: bool, what: What) -> bool {
    let by = By::Cluster(ClusterNo(1));
    let dests = Dests {
        clusters: 6,
        tty: None,
    };
    let post = Post { by, what };
    let place = 1;
    follow(PID, moved_only, &Entry { place, post, dests })
}

fn exit(pid: Pid) -> What {
    What::Exit {
        pid,
        at: 5,
        end: End::Limit,
    }
}

// Where it asks for a page, where another process ends, where it ends, and where it had acted before.
const STILL: [bool; 4] = [true, true, false, false];

#[test]
fn whoever_acts_has_not_only_been_moved() -> Result<(), Fail> {
    let fetch = What::Fetch { pid: PID, index: 0 };
    let moved = [
        moved_still(true, fetch),
        moved_still(true, exit(Pid(17))),
        moved_still(true, exit(PID)),
        moved_still(false, exit(Pid(17))),
    ];
    let wanted = STILL;
    same("what has only been moved", &moved, &wanted)
}

// ---- processes that have run

const LIMITS: Limits = Limits {
    steps: 4096,
    reads: 32,
};

const BEGUN: Sender = Sender {
    start: 0,
    saved: 0,
    whole: true,
    parent: false,
};

// After the loss of cluster 0 and its return.
fn after_return(alloc: Global) -> Result<Front, Fail> {
    let mut front = after_loss(alloc, HALF)?;
    take(&mut front, 1, What::Return { k: ClusterNo(0) })?;
    Ok(front)
}

fn pager(alloc: Global) -> Result<Pager<MemDisk>, Fail> {
    let system = read_system(alloc, HALF.as_bytes())?;
    let mut pager = Pager::new(alloc, MemDisk::new(alloc, List::new(alloc)));
    put_roots(&mut pager, &starts_of(alloc, &system)?)?;
    Ok(pager)
}

// By a line with this step count, which names these others and this cluster.
fn fresh(
    alloc: Global,
    at: u64,
    others: &[u64],
    to: u64,
    limits: Limits,
    kept: Sender,
) -> Result<SeenBackup, Fail> {
    let mut pager = pager(alloc)?;
    fresh_with(alloc, at, others, to, limits, kept, &mut pager)
}

fn fresh_with(
    alloc: Global,
    at: u64,
    others: &[u64],
    to: u64,
    limits: Limits,
    kept: Sender,
    pager: &mut Pager<MemDisk>,
) -> Result<SeenBackup, Fail> {
    let mut process = process(alloc, HALF)?;
    let front = after_return(alloc)?;
    let head = Head {
        place: 2,
        by: ToldBy::Cluster(1),
        pid: PID,
        at,
    };
    let mut ahead = Ahead::none();
    match next_fresh(
        alloc,
        &front,
        limits,
        head,
        others,
        to,
        kept,
        pager,
        &mut process,
        &mut ahead,
    )? {
        Some(entry) => Ok(backup_seen(&entry)),
        None => Ok(None),
    }
}

// In the cluster that it lost, at the step before, by the step that sends, in another cluster, with another, and past its limits.
const FRESH: [SeenBackup; 6] = [
    Some((2, 7, 0, 16)),
    Some((2, 7, 0, 16)),
    None,
    None,
    None,
    None,
];

#[test]
fn a_halfback_gets_its_backup_where_its_cluster_is_back(rt: HostRuntime) -> Result<(), Fail> {
    let alloc = rt.alloc();
    let four = Limits {
        steps: 4,
        reads: 32,
    };
    let lines = [
        fresh(alloc, 5, &[], 0, LIMITS, BEGUN)?,
        fresh(alloc, 4, &[], 0, LIMITS, BEGUN)?,
        fresh(alloc, 6, &[], 0, LIMITS, BEGUN)?,
        fresh(alloc, 5, &[], 2, LIMITS, BEGUN)?,
        fresh(alloc, 5, &[32], 0, LIMITS, BEGUN)?,
        fresh(alloc, 5, &[], 0, four, BEGUN)?,
    ];
    let wanted = FRESH;
    same("the new backups", &lines, &wanted)
}

// Where a child of it never synchronised, where it lacks its pages, and where another page came than the one that it has.
#[test]
fn a_process_that_lacks_something_gets_none(rt: HostRuntime) -> Result<(), Fail> {
    let alloc = rt.alloc();
    let parent = Sender {
        parent: true,
        ..BEGUN
    };
    let lacking = Sender {
        whole: false,
        ..BEGUN
    };
    let mut pager = pager(alloc)?;
    pager.put_page(PID, 0, &[0; 256])?;
    let lines = [
        fresh(alloc, 5, &[], 0, LIMITS, parent)?,
        fresh(alloc, 5, &[], 0, LIMITS, lacking)?,
        fresh_with(alloc, 5, &[], 0, LIMITS, BEGUN, &mut pager)?,
    ];
    let wanted: [SeenBackup; 3] = [None, None, None];
    same("the new backups", &lines, &wanted)
}
