//! What is noted of a run.
ghost use Rattle.std.specs.Prelude.{◌≡◌, true};
ghost use Rattle.sys_text.specs.Valid.{is_system};

use crate::reports::reports::log_of_losses;
use cert_sched::script::ScriptWord;
use plain_kernel::item::Item;
use plain_kernel::plain::{Plain, run};
use report_text::run::{Ended, Run};
use run_notes::note::run_note;
use run_notes::reached::unreached_words;
use run_notes::traps::traps;
use std::alloc::Global;
use std::test::Fail;
use sys_text::read_system;
use sys_text::system::System;
use t32_base::lists::List;
use t32_base::process::{ClusterNo, Pid};
use t32_base::streams::NoMemory;
use test_asserts::same;

// A root that forks; its child is trapped by the instruction behind that, in the eighth line.
const FORKED: &str =
    "clusters 2\npager 0 1\nsyncreads 32\nsyncsteps 4096\nasm a 1\nli a7, 5\necall\nebreak\nend\nroot 0 1 quarter a 10 1 0\n";

// The trap, the end letter to the parent, and the exit.
const ITEMS: &[Item] = &[
    Item::Run(Pid(16), 1),
    Item::Fork(Pid(16), Pid(32)),
    Item::Run(Pid(32), 3),
];

// The items that are known, and what is noted: without its birth no line is known, and the address is.
static TRAPS: [(&[Item], &str); 2] = [
    (
        ITEMS,
        "t32: pid 32: trap 3 at pc 0x10008, line 8 of the text\n",
    ),
    (&[], "t32: pid 32: trap 3 at pc 0x10008\n"),
];

fn assert_traps(
    alloc: Global,
    system: &System,
    plain: &Plain,
    items: &[Item],
    wanted: &str,
) -> Result<(), Fail>
    requires { is_system system.now ≡ true }
{
    let note = traps(alloc, FORKED.as_bytes(), system, items, plain)?;
    same("the note", &note.as_slice(), &wanted.as_bytes())
}

fn assert_all_traps(alloc: Global, system: &System) -> Result<(), Fail>
    requires { is_system system.now ≡ true }
{
    let plain = run(alloc, system, ITEMS)?;
    for row in TRAPS.iter() {
        assert_traps(alloc, system, &plain, row.0, row.1)?;
    }
    Ok(())
}

#[test]
fn a_trap_of_a_child_is_noted_with_its_line(rt: HostRuntime) -> Result<(), Fail> {
    let system = read_system(rt.alloc(), FORKED.as_bytes())?;
    assert_all_traps(rt.alloc(), &system)
}

fn listed(alloc: Global, numbers: &[u64]) -> Result<List<u64>, NoMemory> {
    Ok(List::from_vec(numbers.to_vec(alloc)?))
}

// Clusters 0 and 1 are lost, and cluster 0 returns; 5 and 6 kernel steps, 7 and 8 disk calls.
fn lost(alloc: Global) -> Result<Run, NoMemory> {
    let log = log_of_losses(alloc)?;
    let steps = listed(alloc, &[5, 6])?;
    let disk_calls = listed(alloc, &[7, 8])?;
    Ok(Run {
        log,
        items: List::new(alloc),
        ended: Ended::Finished,
        steps,
        disk_calls,
        withheld: 0,
    })
}

static WORDS: [ScriptWord; 5] = [
    ScriptWord::CrashAt {
        k: ClusterNo(1),
        place: 2,
    },
    ScriptWord::ReturnAt {
        k: ClusterNo(0),
        place: 1,
    },
    ScriptWord::ReturnAt {
        k: ClusterNo(1),
        place: 9,
    },
    ScriptWord::CrashStep {
        k: ClusterNo(2),
        step: 9,
    },
    ScriptWord::DiskAt {
        k: ClusterNo(3),
        call: 9,
    },
];

const UNREACHED: &str =
    "t32: return:1@bus:9 was not reached; entries of the log: 3\nt32: crash:2@step:9 was not reached; kernel steps of the cluster: 0\nt32: disk:3@9 was not reached; calls of the page disk: 0\n";

fn assert_unreached(alloc: Global, done: &Run) -> Result<(), Fail> {
    let note = unreached_words(alloc, &WORDS, done)?;
    same("the note", &note.as_slice(), &UNREACHED.as_bytes())
}

// The log tells of no trap, so the schedule is not run.
fn assert_run_noted(alloc: Global, done: &Run) -> Result<(), Fail> {
    let system = read_system(alloc, FORKED.as_bytes())?;
    let note = run_note(alloc, FORKED.as_bytes(), &system, &WORDS, done)?;
    same("the note", &note.as_slice(), &UNREACHED.as_bytes())
}

#[test]
fn words_that_were_not_reached_are_noted(rt: HostRuntime) -> Result<(), Fail> {
    let done = lost(rt.alloc())?;
    assert_unreached(rt.alloc(), &done)?;
    assert_run_noted(rt.alloc(), &done)
}
