//! The record of a process comes with its new backup, to the cluster where that is.
ghost use Rattle.std.specs.Prelude.{◌≡◌, [], IfOk};
ghost use Rattle.proc_state.specs.Mail.{RiseTo};
ghost use Rattle.backup_records.specs.Records.{CanBring, CanNote};

use backup_queue::record::Record;
use backup_records::records::Records;
use bus_msg::entry::What;
use bus_msg::shared::Shared;
use std::alloc::Global;
use std::test::Fail;
use t32_base::letter::BackRec;
use t32_base::lists::List;
use t32_base::process::{ClusterNo, Pid};
use t32_base::streams::NoMemory;
use test_asserts::same;

// A record as an entry has it, alone.
#[tactic(auto, using(crate::proofs::Renewed::one_comes))]
fn alone(alloc: Global, rec: BackRec) -> Result<List<BackRec>, NoMemory>
    requires { RiseTo 0 rec.saved rec.next }
    ensures { IfOk result (λ recs. CanBring recs []) }
{
    let mut recs = List::new(alloc);
    recs.push(rec)?;
    Ok(recs)
}

// The record of process 16.
fn begun(alloc: Global) -> Result<BackRec, NoMemory>
    ensures { IfOk result (λ rec. RiseTo 0 rec.saved rec.next) }
{
    Record::new(alloc, Pid(16), None).told()
}

fn told(alloc: Global) -> Result<List<BackRec>, NoMemory>
    ensures { IfOk result (λ recs. CanBring recs []) }
{
    let rec = begun(alloc)?;
    alone(alloc, rec)
}

// Its new backup in a cluster.
fn new_backup(alloc: Global, to: ClusterNo) -> Result<What, NoMemory>
    ensures { IfOk result (λ what. CanNote what []) }
{
    Ok(What::Rebackup {
        to,
        fresh: true,
        recs: Shared::new(alloc, told(alloc)?)?,
    })
}

fn note_backup(alloc: Global, records: &mut Records, to: ClusterNo) -> Result<(), NoMemory>
    requires { records.old ≡ [] }
{
    let what = new_backup(alloc, to)?;
    records.note(ClusterNo(1), &what)
}

// The records that cluster 1 has after it, and whether that of process 16 is one.
fn kept(alloc: Global, to: ClusterNo) -> Result<(usize, bool), NoMemory> {
    let mut records = Records::none(alloc);
    note_backup(alloc, &mut records, to)?;
    Ok((records.len(), records.get(Pid(16)).is_some()))
}

#[test]
fn a_record_comes_where_the_new_backup_is(rt: HostRuntime) -> Result<(), Fail> {
    let here = kept(rt.alloc(), ClusterNo(1))?;
    let elsewhere = kept(rt.alloc(), ClusterNo(2))?;
    same("the records", &[here, elsewhere], &[(1, true), (0, false)])
}
