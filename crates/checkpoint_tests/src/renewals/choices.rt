//! Three clusters and a process of each mode, whose home is lost and returns.
ghost use Rattle.std.specs.Prelude.{◌≡◌};

use backup_mode::next::next_backup;
use bus_msg::placed::Placed;
use channel_table::placement::Placement;
use std::alloc::Global;
use std::test::Fail;
use t32_base::process::{ClusterNo, Mode, Pid};
use t32_base::streams::NoMemory;
use test_asserts::same;

fn placed(pid: u32, mode: Mode) -> Placed
    ensures { result.pid.0 ≡ pid }
{
    Placed {
        pid: Pid(pid),
        home: ClusterNo(0),
        backup: Some(ClusterNo(1)),
        mode,
        lost: None,
        ended: false,
        synced: false,
    }
}

// A quarterback, a halfback and a fullback.
fn placement(alloc: Global) -> Result<Placement, NoMemory> {
    let roots = [
        placed(16, Mode::Quarter),
        placed(32, Mode::Half),
        placed(48, Mode::Full),
    ];
    Placement::boot(alloc, 3, (ClusterNo(1), ClusterNo(2)), &roots)
}

// The cluster that each of them gets.
type Given = [Option<ClusterNo>; 3];

fn given(places: &Placement) -> Given {
    [
        next_backup(places, Pid(16)),
        next_backup(places, Pid(32)),
        next_backup(places, Pid(48)),
    ]
}

// At boot; after the loss of their home; after its return; and where two of them have a backup again.
fn each_given(alloc: Global) -> Result<[Given; 4], NoMemory> {
    let mut places = placement(alloc)?;
    let booted = given(&places);
    places.move_after_crash(ClusterNo(0));
    let lost = given(&places);
    places.come_back(ClusterNo(0));
    let returned = given(&places);
    places.set_backup(Pid(32), ClusterNo(0));
    places.set_backup(Pid(48), ClusterNo(2));
    Ok([booted, lost, returned, given(&places)])
}

const FIRST: Option<ClusterNo> = Some(ClusterNo(0));

const LAST: Option<ClusterNo> = Some(ClusterNo(2));

#[test]
fn each_mode_gets_its_backup_when_it_may(rt: HostRuntime) -> Result<(), Fail> {
    same(
        "what each gets",
        &each_given(rt.alloc())?,
        &[
            [None, None, None],
            [None, None, LAST],
            [None, FIRST, FIRST],
            [None, None, None],
        ],
    )
}

#[test]
fn who_is_not_placed_gets_none(rt: HostRuntime) -> Result<(), Fail> {
    let places = placement(rt.alloc())?;
    same("no backup", &next_backup(&places, Pid(64)), &None)
}
