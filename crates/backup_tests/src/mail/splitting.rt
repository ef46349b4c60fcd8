//! Three clusters of which the first is lost, with what the second kept.
ghost use Rattle.std.specs.Prelude.{◌≡◌};

use backup_queue::record::Record;
use bus_msg::placed::Placed;
use channel_table::placement::Placement;
use crash_notice::splitting::split_records;
use std::alloc::Global;
use std::test::Fail;
use t32_base::lists::List;
use t32_base::process::{ClusterNo, Mode, Pid};
use t32_base::streams::NoMemory;
use test_asserts::same;

fn placed(pid: u32, home: u8, backup: Option<ClusterNo>, ended: bool) -> Placed
    ensures { result.pid.0 ≡ pid }
{
    Placed {
        pid: Pid(pid),
        home: ClusterNo(home),
        backup,
        mode: Mode::Quarter,
        lost: None,
        ended,
        synced: false,
    }
}

// The processes 16, 17, 32, 48, 64 and 80.
fn placement(alloc: Global) -> Result<Placement, NoMemory> {
    let here = Some(ClusterNo(1));
    let roots = [
        placed(16, 0, here, false),
        placed(17, 2, here, false),
        placed(32, 0, Some(ClusterNo(2)), false),
        placed(48, 0, here, true),
        placed(64, 0, here, false),
        placed(80, 0, None, false),
    ];
    Placement::boot(alloc, 3, (ClusterNo(0), ClusterNo(1)), &roots)
}

fn add_records(recs: &mut List<Record>, pids: &[u32]) -> Result<(), NoMemory> {
    for pid in pids {
        recs.push(Record::new(recs.allocator(), Pid(*pid), None))?;
    }
    Ok(())
}

fn records(alloc: Global, pids: &[u32]) -> Result<List<Record>, NoMemory> {
    let mut recs = List::new(alloc);
    add_records(&mut recs, pids)?;
    Ok(recs)
}

// The records that move and those that stay, unless memory is wanting.
fn split(alloc: Global, before: &Placement) -> Result<(List<Record>, List<Record>), NoMemory> {
    let recs = records(alloc, &[64, 17, 16, 48, 32, 96])?;
    match split_records(alloc, recs, before, ClusterNo(0), ClusterNo(1)) {
        Ok(parts) => Ok(parts),
        Err(_) => Err(NoMemory),
    }
}

// The processes of two records, and of four.
fn two_pids(recs: &[Record]) -> Option<[u32; 2]> {
    match recs {
        [a, b] => Some([a.pid().0, b.pid().0]),
        _ => None,
    }
}

fn four_pids(recs: &[Record]) -> Option<[u32; 4]> {
    match recs {
        [a, b, c, d] => Some([a.pid().0, b.pid().0, c.pid().0, d.pid().0]),
        _ => None,
    }
}

fn assert_pids(moved: &[Record], stay: &[Record]) -> Result<(), Fail> {
    same(
        "what moves and stays",
        &(two_pids(moved), four_pids(stay)),
        &(Some([64, 16]), Some([17, 48, 32, 96])),
    )
}

fn assert_split(alloc: Global, before: &Placement) -> Result<(), Fail> {
    let (moved, stay) = split(alloc, before)?;
    assert_pids(moved.as_slice(), stay.as_slice())
}

#[test]
fn the_records_of_processes_that_move_here_are_taken_in_order(rt: HostRuntime) -> Result<(), Fail> {
    let before = placement(rt.alloc())?;
    assert_split(rt.alloc(), &before)
}
