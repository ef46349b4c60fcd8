//! Residents on ample memory: one that comes after its children, one that was lost after its first line, and one that waits for its
//! parent's fork. The steps are counted by hand.
use crate::rolls::rolls::{TWO, child_record, two_lost};
use page_waits::waiting::Waiting;
use proc_state::process::Process;
use quanta::limits::Limits;
use residents::quantum::Quantum;
use residents::resident::Resident;
use std::alloc::Global;
use std::test::Fail;
use sys_calls::steps::Emission;
use t32_base::process::{ClusterNo, Pid};
use t32_base::streams::NoMemory;
use test_asserts::same;

// ---- how they begin

// li a7, 1 / li a0, 0 / ecall
static EXIT: [u8; 12] = [147, 8, 16, 0, 19, 5, 0, 0, 115, 0, 0, 0];

fn exiting(alloc: Global) -> Result<Resident, NoMemory> {
    let process = Process::root(alloc, Pid(16), 0x10000, 1, &EXIT, 1000, 0, 0)?;
    Ok(Resident::running(process))
}

fn lost(alloc: Global) -> Result<Resident, NoMemory> {
    let rolling = two_lost(alloc)?;
    // What it answers says that the counts run out.
    let _process = rolling.process();
    Ok(Resident::rolling(rolling))
}

// ---- what they do

// Limits that none of them reaches.
const NEVER: Limits = Limits {
    reads: 1000,
    steps: 100_000,
};

// The step by which a quantum sent a letter, and that by which it ended the process.
type Sent = (Option<u64>, Option<u64>);

fn sent(quantum: &Quantum) -> Sent {
    match quantum {
        Quantum::Sent(sending) => match &sending.emission {
            Emission::Mail(_) => (Some(sending.at), None),
            Emission::Exit(_) => (None, Some(sending.at)),
        },
        _ => (None, None),
    }
}

// What a turn sent, and the steps then.
type Turn = (Sent, u64);

// The steps that it makes again, and then the rest where it has caught up. It may have a child that is to synchronise first until the
// process asks for it.
fn turn(alloc: Global, resident: &mut Resident, has_child: bool) -> Result<Turn, NoMemory> {
    let made = resident.roll(64)?;
    if resident.rolls() || !resident.runs() {
        return Ok(((None, None), 0));
    }
    let childless = !has_child || resident.comes_after_children(NEVER);
    let quantum = resident.run_quantum(alloc, ClusterNo(0), NEVER, childless, made)?;
    Ok((sent(&quantum), resident.steps()))
}

fn turns(alloc: Global, resident: &mut Resident) -> Result<[Turn; 2], NoMemory> {
    Ok([turn(alloc, resident, true)?, turn(alloc, resident, true)?])
}

// Whether it can act and its steps, and its turn.
fn acts(alloc: Global, resident: &mut Resident) -> Result<(bool, u64, Turn), NoMemory> {
    let can = resident.can_act(NEVER);
    let steps = resident.steps();
    Ok((can, steps, turn(alloc, resident, false)?))
}

// How many posts one that runs synchronises by: no page of it changed, so its state alone.
fn posts(alloc: Global, resident: &mut Resident) -> Result<Option<usize>, NoMemory> {
    if !resident.runs() {
        return Ok(None);
    }
    let posts = resident.synchronise(alloc, ClusterNo(0))?;
    Ok(Some(posts.len()))
}

enum Case {
    Turns,
    Posts,
    Acts,
}

fn resident(alloc: Global, case: &Case) -> Result<Resident, NoMemory> {
    match case {
        Case::Turns | Case::Posts => exiting(alloc),
        Case::Acts => lost(alloc),
    }
}

fn assert_does(alloc: Global, resident: &mut Resident, case: &Case) -> Result<(), Fail> {
    match case {
        Case::Turns => same(
            "the turns",
            &turns(alloc, resident)?,
            &[((None, None), 3), ((None, Some(4)), 4)],
        ),
        Case::Posts => same("the posts", &posts(alloc, resident)?, &Some(1)),
        Case::Acts => same(
            "the quantum",
            &acts(alloc, resident)?,
            &(true, 0, ((Some(9), None), 9)),
        ),
    }
}

fn assert_case(alloc: Global, case: &Case) -> Result<(), Fail> {
    let mut resident = resident(alloc, case)?;
    assert_does(alloc, &mut resident, case)
}

#[test]
fn a_process_stays_before_its_end_for_its_child(rt: HostRuntime) -> Result<(), Fail> {
    assert_case(rt.alloc(), &Case::Turns)
}

#[test]
fn a_process_that_is_not_due_synchronises(rt: HostRuntime) -> Result<(), Fail> {
    assert_case(rt.alloc(), &Case::Posts)
}

#[test]
fn a_process_catches_up_and_sends_in_one_quantum(rt: HostRuntime) -> Result<(), Fail> {
    assert_case(rt.alloc(), &Case::Acts)
}

// ---- a child of a fork that is made again

// Whether it waits for its parent's fork, whether it rolls forward, and its steps.
type Stands = (bool, bool, u64);

fn stands(resident: &Resident) -> Stands {
    (
        resident.waits_for_fork(),
        resident.rolls(),
        resident.steps(),
    )
}

// It waits for its parent's fork, and begins again as it was born: how it stands before.
fn begin(alloc: Global) -> Result<(Stands, Resident), NoMemory> {
    let born = Process::root(alloc, Pid(16), 0x10000, 1, &TWO, 1000, 0, 0)?;
    let mut resident = Resident::waiting(Waiting::for_fork(alloc, child_record(alloc)?));
    let before = stands(&resident);
    resident.begin_again(alloc, born);
    Ok((before, resident))
}

// How it stood, and how it stands, the steps that it makes again, and whether it runs then.
type Begun = (Stands, Stands, (u32, bool));

fn roll(resident: &mut Resident, before: Stands) -> Result<Begun, NoMemory> {
    let after = stands(resident);
    let made = resident.roll(64)?;
    Ok((before, after, (made, resident.runs())))
}

fn begun(alloc: Global) -> Result<Begun, NoMemory> {
    let (before, mut resident) = begin(alloc)?;
    roll(&mut resident, before)
}

#[test]
fn a_child_begins_again_as_it_was_born(rt: HostRuntime) -> Result<(), Fail> {
    let wanted = ((true, false, 0), (false, true, 0), (6, true));
    same("the child", &begun(rt.alloc())?, &wanted)
}
