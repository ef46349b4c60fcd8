//! The start of a cluster: the roots that are at home there, the records of those whose backup is there, and the pages that it serves.
ghost use Rattle.std.specs.Prelude.{◌≡◌, IfOk, IfSome, None, Some, true, false, [], is_some, option_map};
ghost use Rattle.std.specs.Option.{option_map_or};
ghost use Rattle.std.specs.List.Sorted.{IsStrictlySortedBy};
ghost use Rattle.std.specs.Map.{keys_of};
ghost use Rattle.std.specs.Ordering.{nat_cmp};
ghost use Rattle.sys_text.specs.Valid.{is_system};
ghost use Rattle.plain_kernel.specs.Starts.{starts_in};
ghost use Rattle.bus_msg.specs.Places.{is_cluster, unended_at};
ghost use Rattle.cert_sched.specs.Schedule.{placement};
ghost use Rattle.log_laws.specs.records.Kept.{KeepsRecords};
ghost use Rattle.cluster_core.specs.Booting.{AreBooted, AreFirstRecords, RunFrom, belongs_to};
ghost use Rattle.cluster_core.specs.Serving.{BeginsToServe, IsAheadThere, IsFailing};
ghost use Rattle.cluster_core.specs.View.{failing_in, limits_of};
ghost use Rattle.page_accounts.specs.Booting.{IsAhead};
ghost use Rattle.residents.specs.Owing.{duty_in};

use crate::serving::serve_roots;
use backup_queue::record::Record;
use backup_records::records::Records;
use channel_table::placement::Placement;
use page_server::disk::PageDisk;
use page_server::pager::Pager;
use plain_kernel::booting::starts_of;
use plain_kernel::start::Start;
use quanta::limits::Limits;
use residents::resident::Resident;
use residents::residents::Residents;
use std::alloc::Global;
use std::collections::BTreeMap;
use sys_text::system::System;
use t32_base::process::{ClusterNo, Pid};
use t32_base::streams::NoMemory;

/// What a cluster has at its start.
#[derive(Drop)]
pub struct Parts<D: PageDisk> {
    pub here: Residents,
    pub records: Records,
    pub server: Option<Pager<D>>,
    pub failed: Option<u64>,
}

/// The processes of the roots that are at home in a cluster, at their start, linked by the channels of the
/// system; the records of those whose backup is there, with their state at the start; and, with a disk, the pages of
/// all roots. Memory is made for the processes at home alone. Where a call of the disk failed it has the number of that, and neither processes nor records. The placement is
/// the one at boot.
pub fn parts_at_boot<D: PageDisk + Drop>(
    alloc: Global,
    system: &System,
    number: ClusterNo,
    places: &Placement,
    disk: Option<D>,
) -> Result<Parts<D>, NoMemory>
    requires valid { is_system system.now ≡ true }
    requires places { places.now ≡ placement system.now [] }
    ensures here { IfOk result (λ parts. parts.failed ≡ None → AreBooted system.now number parts.here.here) }
    ensures none { IfOk result (λ parts. IfSome parts.failed (λ call. parts.here.here ≡ [])) }
    ensures records { IfOk result (λ parts. parts.failed ≡ None → KeepsRecords system.now [] number parts.records) }
    ensures server { IfOk result (λ parts. parts.failed ≡ None → BeginsToServe system.now parts.server) }
    ensures there { IfOk result (λ parts. is_some parts.server ≡ is_some disk) }
    ensures told { IfOk result (λ parts. failing_in parts.server ≡ option_map (λ d. (D.counts d).failing) disk) }
    ensures ahead { IfOk result (λ parts. parts.failed ≡ None → IfSome disk (λ d. IsAhead (D.counts d)) → IsAheadThere parts.server) }
    ensures fails { IfOk result (λ parts. IfSome parts.failed (IsFailing parts.server)) }
    ensures duty { IfOk result (λ parts. parts.here.duty ≡ duty_in (limits_of system.now) places.now parts.here.here) }
{
    let starts = starts_of(alloc, system)?;
    let (server, failed) = serve_roots(alloc, disk, &starts)?;
    if failed.is_some() {
        return Ok(Parts {
            here: Residents::none(alloc, limits_of(system)),
            records: Records::none(alloc),
            server,
            failed,
        });
    }
    let records = first_records(alloc, number, places, &starts)?;
    let mut here = residents_of(alloc, number, limits_of(system), starts)?;
    here.place(alloc, places)?;
    Ok(Parts {
        here,
        records,
        server,
        failed,
    })
}

// The limits by which the processes of a system synchronise.
pub(crate) fn limits_of(system: &System) -> Limits
    ensures { result ≡ limits_of system.now }
{
    Limits {
        reads: system.syncreads,
        steps: system.syncsteps,
    }
}

// The records of those processes whose backup is in a cluster.
fn first_records(
    alloc: Global,
    number: ClusterNo,
    places: &Placement,
    starts: &BTreeMap<u32, Start>,
) -> Result<Records, NoMemory>
    ensures { IfOk result (AreFirstRecords places.now number starts.now.entries) }
{
    let mut records = Records::none(alloc);
    for (pid, start) in starts {
        if has_backup(places, number, Pid(*pid)) {
            let state = start.small().copy();
            records.add(Record::new(alloc, Pid(*pid), Some(state)))?;
        }
    }
    Ok(records)
}

// Those roots that are at home in a cluster run there, each with its memory.
fn residents_of(
    alloc: Global,
    number: ClusterNo,
    limits: Limits,
    starts: BTreeMap<u32, Start>,
) -> Result<Residents, NoMemory>
    ensures here { IfOk result (λ r. RunFrom (starts_in starts.entry.entries) number r.here) }
    ensures duty { IfOk result (λ r. r.duty ≡ record { limits = limits; owing = [] }) }
{
    let mut here = Residents::none(alloc, limits);
    for (pid, start) in starts {
        if is_pid_at(number, pid) {
            let process = start.process(alloc)?;
            here.add(Pid(pid), Resident::running(process))?;
        }
    }
    Ok(here)
}

// Whether a process has not ended and its backup is in a cluster.
fn has_backup(places: &Placement, number: ClusterNo, pid: Pid) -> bool
    ensures { result ≡ option_map_or (λ q. is_cluster q.backup number) (unended_at places.now pid) false }
{
    match places.unended(pid) {
        Some(placed) => placed.backup == Some(number),
        None => false,
    }
}

// Whether a root with this pid is at home in a cluster.
fn is_pid_at(number: ClusterNo, pid: u32) -> bool
    ensures { result ≡ belongs_to number pid }
{
    pid % 16 == u32::from(number.0)
}
