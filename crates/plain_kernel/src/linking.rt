//! The channels of a system, which link its roots.
ghost use Rattle.std.specs.Prelude.{◌≡◌, ◌≤◌, length, true};
ghost use Rattle.sys_text.specs.Valid.{is_system};
ghost use Rattle.plain_kernel.specs.Kernel.{free_end_at as free_end_in, root_pid as pid_in, with_chan};
ghost use Rattle.plain_kernel.specs.Maps.{pid_of};
ghost use Rattle.plain_kernel.specs.Starts.{starts_in, starts_load, LinksStart};

use crate::booting::pid_after;
use crate::start::Start;
use std::collections::BTreeMap;
use sys_text::system::System;
use t32_base::process::Pid;

/// Links the lowest free ends of the two roots that a channel names to each other; where one of them has none, nothing is linked.
pub fn link_roots(starts: &mut BTreeMap<u32, Start>, system: &System, chan: (u8, u8))
    requires valid { is_system system.now ≡ true }
    requires first { (1 ≤ chan.0) × (chan.0 ≤ length system.now.roots) }
    requires second { (1 ≤ chan.1) × (chan.1 ≤ length system.now.roots) }
    ensures states { starts_in starts.new.entries ≡ with_chan system.now (starts_in starts.old.entries) chan }
    ensures load { starts_load starts.new.entries ≡ starts_load starts.old.entries }
{
    let one = root_pid(system, chan.0);
    let other = root_pid(system, chan.1);
    if let (Some(near), Some(far)) = (free_end_at(starts, one.0), free_end_at(starts, other.0)) {
        link_at(starts, one.0, other, far);
        link_at(starts, other.0, one, near);
    }
}

// The pid of a root, whose number is counted from 1.
fn root_pid(system: &System, number: u8) -> Pid
    requires valid { is_system system.now ≡ true }
    requires least { 1 ≤ number }
    requires most { number ≤ length system.now.roots }
    ensures { result ≡ pid_in system.now number }
{
    let roots = system.roots.as_slice();
    let place = usize::from(number) - 1;
    pid_after(&roots[..place], roots[place])
}

// The lowest end of the root with a pid that was never linked, if it is there and has one.
fn free_end_at(starts: &BTreeMap<u32, Start>, pid: u32) -> Option<u8>
    ensures { result ≡ free_end_in (starts_in starts.now.entries) (pid_of pid) }
{
    starts.get(&pid)?.free_end()
}

// Links that end to an end of a peer, if the root is there.
fn link_at(starts: &mut BTreeMap<u32, Start>, pid: u32, peer: Pid, far: u8)
    ensures { LinksStart starts.old.entries starts.new.entries pid peer far }
{
    match starts.get_mut(&pid) {
        Some(start) => {
            start.link(peer, far);
        }
        None => {}
    }
}
