//! The bus of a system and its clusters, at their start.
ghost use Rattle.std.specs.Prelude.{◌≡◌, ◌<◌, ◌++◌, IfOk, IfSome, OnOk, is_some, length, true, []};
ghost use Rattle.std.specs.Option.{option_to_list};
ghost use Rattle.std.specs.Arc.{arc_value};
ghost use Rattle.sys_text.specs.Valid.{is_system};
ghost use Rattle.cert_sched.specs.Scripted.{is_server};
ghost use Rattle.cluster_turns.specs.Along.{AllAlong, IsOwned};
ghost use Rattle.cluster_turns.specs.Disks.{call_of, calls_for};
ghost use Rattle.cluster_run.specs.Started.{AllStarted};

use bus_order::bus::Bus;
use cert_sched::script::ScriptWord;
use cluster_turns::member::Member;
use page_server::mem_disk::MemDisk;
use std::alloc::Global;
use std::sync::Arc;
use sys_text::system::System;
use t32_base::lists::List;
use t32_base::process::ClusterNo;
use t32_base::streams::NoMemory;

/// The bus of a system and a script, and the clusters of the system, at their start.
pub fn start(
    alloc: Global,
    system: &Arc<System>,
    script: &[ScriptWord],
) -> Result<(Bus, Vec<Member>), NoMemory>
    requires valid { is_system (arc_value system.now) ≡ true }
    ensures owned { IfOk result (λ started. IsOwned started.0) }
    ensures along { IfOk result (λ started. AllAlong started.0 started.1.items) }
    ensures started { IfOk result (λ started. AllStarted (arc_value system.now) script.now (arc_value system.now).clusters started.1.items) }
    ensures some { IfOk result (λ started. 0 < length started.1.items) }
    ensures system { IfOk result (λ started. started.0.system ≡ arc_value system.now) }
    ensures script { IfOk result (λ started. started.0.script ≡ script.now) }
    ensures none { IfOk result (λ started. started.0.log ≡ []) }
{
    let bus = Bus::boot(alloc, system, script)?;
    let clusters = clusters_at_boot(alloc, system, script)?;
    Ok((bus, clusters))
}

// The clusters of a system at their start, each at the place of its number.
fn clusters_at_boot(
    alloc: Global,
    system: &Arc<System>,
    script: &[ScriptWord],
) -> Result<Vec<Member>, NoMemory>
    requires { is_system (arc_value system.now) ≡ true }
    ensures { IfOk result (λ clusters. AllStarted (arc_value system.now) script.now (arc_value system.now).clusters clusters.items) }
{
    let mut clusters = Vec::new(alloc);
    for number in 0..system.clusters {
        let number = ClusterNo(number);
        let disk = disk_of(alloc, system, script, number)?;
        let cluster = Member::boot(alloc, system, number, disk)?;
        clusters.push(cluster)?;
    }
    Ok(clusters)
}

// The page disk of a cluster, for each of the two page servers: an empty one, of which the calls fail that a script names.
fn disk_of(
    alloc: Global,
    system: &System,
    script: &[ScriptWord],
    number: ClusterNo,
) -> Result<Option<MemDisk>, NoMemory>
    ensures there { IfOk result (λ disk. is_some disk ≡ is_server system.now number) }
    ensures failing { IfOk result (λ disk. IfSome disk (λ d. d.failing ≡ calls_for number script.now)) }
    ensures unused { IfOk result (λ disk. IfSome disk (λ d. d.made ≡ 0)) }
{
    if number == system.pager.0 || number == system.pager.1 {
        let failing = calls_for(alloc, script, number)?;
        Ok(Some(MemDisk::new(alloc, failing)))
    } else {
        Ok(None)
    }
}

// The calls of a cluster's disk that a script names. The count of calls stands still at the greatest u64, which so names none.
fn calls_for(alloc: Global, script: &[ScriptWord], number: ClusterNo) -> Result<List<u64>, NoMemory>
    ensures { IfOk result (λ calls. calls ≡ calls_for number script.now) }
{
    let mut calls = List::new(alloc);
    for word in script {
        push_call(&mut calls, *word, number)?;
    }
    Ok(calls)
}

// Adds the call of a cluster's disk that a word names, if it names one.
fn push_call(calls: &mut List<u64>, word: ScriptWord, number: ClusterNo) -> Result<(), NoMemory>
    ensures { OnOk result (calls.new ≡ calls.old ++ call_of number word) }
{
    if let Some(call) = call_of(word, number) {
        calls.push(call)?;
    }
    Ok(())
}

// The call of a cluster's disk that a word names.
fn call_of(word: ScriptWord, number: ClusterNo) -> Option<u64>
    ensures { option_to_list result ≡ call_of number word }
{
    match word {
        ScriptWord::DiskAt { k, call } if k == number && call < u64::MAX => Some(call),
        _ => None,
    }
}
