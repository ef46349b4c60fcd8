//! A page server at its start puts each page of each root, and a call that fails leaves a cluster that says so. A cluster that has
//! come back begins behind its return, with nothing in it.
ghost use Rattle.std.specs.Prelude.{◌≡◌, ◌<◌, true, IfOk};
ghost use Rattle.std.specs.Arc.{arc_value};
ghost use Rattle.sys_text.specs.Valid.{is_system};
ghost use Rattle.cert_sched.specs.Scripted.{is_server};

use birth_notice::family::Family;
use cert_sched::start::placement_at_boot;
use cluster_core::cluster::Cluster;
use page_server::mem_disk::MemDisk;
use std::alloc::Global;
use std::sync::Arc;
use std::test::Fail;
use sys_text::read_system;
use sys_text::system::System;
use t32_base::lists::List;
use t32_base::process::ClusterNo;
use t32_base::streams::NoMemory;
use test_asserts::same;
use test_systems::PAIR;

// The system of two roots of one page, one at home in each cluster.
fn pair(alloc: Global) -> Result<System, Fail>
    ensures valid { IfOk result (λ system. is_system system ≡ true) }
    ensures clusters { IfOk result (λ system. 1 < system.clusters) }
    ensures server { IfOk result (λ system. is_server system (record { 0 = 0 }) ≡ true) }
{
    let system = read_system(alloc, PAIR.as_bytes())?;
    if system.clusters < 2 || system.pager.0 != ClusterNo(0) {
        return Err("cluster 0 is no page server, or there is no cluster 1".into());
    }
    Ok(system)
}

// Cluster 0 of that system at its start, where these calls of its disk fail.
fn boot(alloc: Global, system: &Arc<System>, failing: &[u64]) -> Result<Cluster<MemDisk>, NoMemory>
    requires valid { is_system (arc_value system.now) ≡ true }
    requires clusters { 1 < (arc_value system.now).clusters }
    requires server { is_server (arc_value system.now) (record { 0 = 0 }) ≡ true }
{
    let failing = List::from_vec(failing.to_vec(alloc)?);
    Cluster::boot(
        alloc,
        system,
        ClusterNo(0),
        Some(MemDisk::new(alloc, failing)),
    )
}

// Cluster 1, come back when the log had three entries and the cluster had made nine kernel steps.
fn come_back(alloc: Global, system: &Arc<System>) -> Result<Cluster<MemDisk>, NoMemory>
    requires valid { is_system (arc_value system.now) ≡ true }
    requires clusters { 1 < (arc_value system.now).clusters }
{
    let places = placement_at_boot(alloc, system)?;
    let family = Family::none(alloc);
    Cluster::fresh(alloc, system, ClusterNo(1), places, family, 3, 9)
}

// A boot at which these calls of the disk fail, or a return.
enum Start {
    Boot(&'static [u64]),
    Return,
}

fn started(alloc: Global, system: &Arc<System>, start: &Start) -> Result<Cluster<MemDisk>, NoMemory>
    requires valid { is_system (arc_value system.now) ≡ true }
    requires clusters { 1 < (arc_value system.now).clusters }
    requires server { is_server (arc_value system.now) (record { 0 = 0 }) ≡ true }
{
    match start {
        Start::Boot(failing) => boot(alloc, system, failing),
        Start::Return => come_back(alloc, system),
    }
}

// How many processes there are, where it rests.
fn resting(cluster: &Cluster<MemDisk>) -> Result<Option<usize>, NoMemory> {
    match cluster.rests()? {
        Some(rests) => Ok(Some(rests.get().as_slice().len())),
        None => Ok(None),
    }
}

// The calls of its disk and the one that failed, its entries and steps, and that.
type Told = (u64, Option<u64>, (u64, u64), Option<usize>);

fn told(cluster: &Cluster<MemDisk>) -> Result<Told, NoMemory> {
    let calls = cluster.disk_calls();
    let counts = (cluster.cursor(), cluster.steps());
    Ok((calls, cluster.failed(), counts, resting(cluster)?))
}

fn start_tells(alloc: Global, system: &Arc<System>, start: &Start) -> Result<Told, NoMemory>
    requires valid { is_system (arc_value system.now) ≡ true }
    requires clusters { 1 < (arc_value system.now).clusters }
    requires server { is_server (arc_value system.now) (record { 0 = 0 }) ≡ true }
{
    let cluster = started(alloc, system, start)?;
    told(&cluster)
}

// Each page of the two roots is put, and the one at home there can move; after a call that fails there is no process; and a cluster that
// has come back counts on, and has none either.
static STARTS: [(Start, Told); 3] = [
    (Start::Boot(&[]), (2, None, (0, 0), None)),
    (Start::Boot(&[1]), (2, Some(1), (0, 0), Some(0))),
    (Start::Return, (0, None, (3, 9), Some(0))),
];

fn assert_starts(alloc: Global, system: &Arc<System>) -> Result<(), Fail>
    requires valid { is_system (arc_value system.now) ≡ true }
    requires clusters { 1 < (arc_value system.now).clusters }
    requires server { is_server (arc_value system.now) (record { 0 = 0 }) ≡ true }
{
    for (start, wanted) in &STARTS {
        same("a start", &start_tells(alloc, system, start)?, wanted)?;
    }
    Ok(())
}

#[test]
fn a_boot_puts_each_page_and_a_return_counts_on(rt: HostRuntime) -> Result<(), Fail> {
    let system = Arc::new(rt.alloc(), pair(rt.alloc())?)?;
    assert_starts(rt.alloc(), &system)
}
