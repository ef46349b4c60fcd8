//! The placement of a system before any entry of the log.
ghost use Rattle.std.specs.Prelude.{◌≡◌, true, map, IfOk};
ghost use Rattle.sys_text.specs.Valid.{is_system};
ghost use Rattle.sys_text.specs.Boot.{roots_of};
ghost use Rattle.cert_sched.specs.Schedule.{placed_root, places_at_boot};

use bus_msg::placed::Placed;
use channel_table::placement::Placement;
use plain_kernel::booting::pid_after;
use std::alloc::Global;
use sys_text::system::{Root, System};
use t32_base::process::Pid;
use t32_base::streams::NoMemory;

/// The placement of the roots of a system, before any entry of the log.
pub fn placement_at_boot(alloc: Global, system: &System) -> Result<Placement, NoMemory>
    requires valid { is_system system.now ≡ true }
    ensures { IfOk result (λ places. places ≡ places_at_boot system.now) }
{
    let placed = placed_roots(alloc, system)?;
    Placement::boot(alloc, system.clusters, system.pager, &placed)
}

// The roots of a system, as they are placed at boot.
fn placed_roots(alloc: Global, system: &System) -> Result<Vec<Placed>, NoMemory>
    requires valid { is_system system.now ≡ true }
    ensures { IfOk result (λ placed. placed.items ≡ map placed_root (roots_of system.now)) }
{
    let mut placed = Vec::new(alloc);
    let roots = system.roots.as_slice();
    for (number, root) in roots.iter().enumerate() {
        let pid = pid_after(&roots[..number], *root);
        placed.push(placed_at_start(pid, *root))?;
    }
    Ok(placed)
}

// A root as it is placed at boot.
fn placed_at_start(pid: Pid, root: Root) -> Placed
    ensures { result ≡ placed_root (pid, root) }
{
    Placed {
        pid,
        home: root.home,
        backup: Some(root.backup),
        mode: root.mode,
        lost: None,
        ended: false,
        synced: false,
    }
}
