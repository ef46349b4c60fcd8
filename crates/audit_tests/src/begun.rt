//! What the tests begin with: the front of the log with no entry of a system, and its processes and its pages at boot. Who owns a value
//! hands it on by its last call: the proof pays for its drop on each way out.
ghost use Rattle.std.specs.Prelude.{◌≡◌, IfOk, [], true};
ghost use Rattle.sys_text.specs.Valid.{is_system};

use log_audit::front::Front;
use page_accounts::booting::put_roots;
use page_server::mem_disk::MemDisk;
use page_server::pager::Pager;
use plain_kernel::booting::{processes_of, starts_of};
use proc_state::process::Process;
use std::alloc::Global;
use std::collections::BTreeMap;
use std::test::Fail;
use sys_text::read_system;
use sys_text::system::System;
use t32_base::lists::List;

/// The front of the log with no entry.
pub fn front(alloc: Global, text: &str) -> Result<Front, Fail>
    ensures { IfOk result (λ front. front.length ≡ 0) }
{
    let system = read_system(alloc, text.as_bytes())?;
    front_of(alloc, &system)
}

fn front_of(alloc: Global, system: &System) -> Result<Front, Fail>
    requires { is_system system.now ≡ true }
    ensures { IfOk result (λ front. front.length ≡ 0) }
{
    Ok(Front::start(alloc, system)?)
}

/// The processes at boot.
pub fn processes(alloc: Global, text: &str) -> Result<BTreeMap<u32, Process>, Fail> {
    let system = read_system(alloc, text.as_bytes())?;
    processes_in(alloc, &system)
}

fn processes_in(alloc: Global, system: &System) -> Result<BTreeMap<u32, Process>, Fail>
    requires { is_system system.now ≡ true }
{
    Ok(processes_of(alloc, system)?)
}

/// One of them.
pub fn process(alloc: Global, text: &str, pid: u32) -> Result<Process, Fail> {
    let mut processes = processes(alloc, text)?;
    match processes.remove(&pid) {
        Some(process) => Ok(process),
        None => Err("there is no such process".into()),
    }
}

/// A page server with the pages at boot.
pub fn pager(alloc: Global, text: &str) -> Result<Pager<MemDisk>, Fail> {
    let system = read_system(alloc, text.as_bytes())?;
    pager_of(alloc, &system)
}

fn pager_of(alloc: Global, system: &System) -> Result<Pager<MemDisk>, Fail>
    requires { is_system system.now ≡ true }
{
    let mut pager = Pager::new(alloc, MemDisk::new(alloc, List::new(alloc)));
    put_starts(alloc, system, &mut pager)?;
    Ok(pager)
}

fn put_starts(alloc: Global, system: &System, pager: &mut Pager<MemDisk>) -> Result<(), Fail>
    requires system { is_system system.now ≡ true }
    requires accounts { pager.old.accounts ≡ [] }
    requires fetches { pager.old.fetches ≡ [] }
{
    let starts = starts_of(alloc, system)?;
    Ok(put_roots(pager, &starts)?)
}
