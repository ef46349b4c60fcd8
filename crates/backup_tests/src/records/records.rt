//! The records of a few processes, with what entries make of them.
ghost use Rattle.std.specs.Prelude.{◌≡◌, ◌<◌, ◌^◌, ◌-◌, List, [], ◌∷◌, IfOk, IsTrue, true};
ghost use Rattle.write_count.specs.Counting.{count_for};
ghost use Rattle.backup_queue.specs.Fronts.{AreFronts, AreOnEnds};
ghost use Rattle.backup_records.specs.Records.{CanCount, CanCut, CanNote, CanSave};
ghost use Rattle.t32_base.specs.declared.letter.BackRec.{BackRec};
ghost use Rattle.t32_base.specs.declared.letter.To.TheVariants.{Proc};
ghost use Rattle.t32_base.specs.declared.letter.Body.TheVariants.{EndOf};

use backup_queue::reading::{reads_are_fronts, reads_are_on_ends};
use backup_queue::record::Record;
use backup_records::records::Records;
use bus_msg::entry::What;
use bus_msg::placed::Placed;
use bus_msg::shared::Shared;
use channel_table::placement::Placement;
use proc_state::process::Process;
use std::alloc::Global;
use std::test::Fail;
use t32_base::letter::{Arrived, Body, Letter, To};
use t32_base::lists::List;
use t32_base::process::{ClusterNo, Counts, End, Mode, Pid, Small};
use t32_base::shared_bytes::SharedBytes;
use t32_base::streams::NoMemory;
use test_asserts::same;

// The records of these processes, which have saved and counted nothing.
fn records(alloc: Global, pids: &[u32]) -> Result<Records, NoMemory> {
    let mut records = Records::none(alloc);
    for pid in pids {
        records.add(Record::new(alloc, Pid(*pid), None))?;
    }
    Ok(records)
}

// Whether the counts are small, as those of a test stay.
fn is_small(counts: &Counts, letter: &Letter) -> bool
    ensures { IsTrue result → (letter.now.out < 32) × (count_for counts.now letter.now < 2 ^ 32 - 1) }
{
    if letter.out >= 32 {
        return false;
    }
    match letter.body {
        Body::Signal(_) => counts.signals < 9,
        _ => counts.ends[usize::from(letter.out)] < 9,
    }
}

fn can_save(records: &Records, letter: &Letter) -> bool
    ensures { IsTrue result → CanSave letter.now records.now }
{
    match letter.to {
        To::Proc(pid, _) => match records.get(pid) {
            Some(record) => record.next() < 9,
            None => true,
        },
        To::Tty(_) => true,
    }
}

fn can_count(records: &Records, letter: &Letter) -> bool
    ensures { IsTrue result → CanCount letter.now records.now }
{
    match records.get(letter.from) {
        Some(record) => is_small(record.counts(), letter),
        None => true,
    }
}

fn can_note(records: &Records, what: &What) -> bool
    ensures { IsTrue result → CanNote what.now records.now }
{
    match what {
        What::Mail { letter, .. } => can_save(records, letter) && can_count(records, letter),
        _ => false,
    }
}

// Notes a letter where it may be noted, which it may in these tests.
fn note(records: &mut Records, what: &What) -> Result<(), Fail> {
    if !can_note(records, what) {
        return Err("the letter may not be noted".into());
    }
    records.note(ClusterNo(1), what)?;
    Ok(())
}

// The letters that arrived at a process, those that left from its end 2, and its signals.
type Told = Option<(u64, u32, u32)>;

fn told(records: &Records, pid: u32) -> Told {
    let record = records.get(Pid(pid))?;
    let counts = record.counts();
    Some((record.next(), counts.ends[2], counts.signals))
}

// The same of the processes 16, 17 and 32.
type Each = (Told, Told, Told);

fn each_told(records: &Records) -> Each {
    (told(records, 16), told(records, 17), told(records, 32))
}

// A line of a process, or a signal of 17 to itself.
enum Sent {
    Line(u32, To),
    Signal,
}

fn line(alloc: Global, from: u32, to: To) -> Result<Letter, NoMemory> {
    Ok(Letter {
        from: Pid(from),
        out: 2,
        to,
        body: Body::Said(SharedBytes::copy_of(alloc, b"ok\n")?),
    })
}

fn signal() -> Letter {
    Letter {
        from: Pid(17),
        out: 0,
        to: To::Proc(Pid(17), 0),
        body: Body::Signal(11),
    }
}

fn letter_of(alloc: Global, sent: &Sent) -> Result<Letter, NoMemory> {
    match sent {
        Sent::Line(from, to) => line(alloc, *from, *to),
        Sent::Signal => Ok(signal()),
    }
}

fn note_sent(alloc: Global, records: &mut Records, sent: &Sent) -> Result<(), Fail> {
    let what = What::Mail {
        at: 1,
        letter: letter_of(alloc, sent)?,
    };
    note(records, &what)
}

// What is told after each of four lines and a signal.
static NOTED: [(Sent, Each); 5] = [
    (
        Sent::Line(16, To::Proc(Pid(17), 1)),
        (Some((0, 1, 0)), Some((1, 0, 0)), None),
    ),
    (
        Sent::Line(16, To::Tty(0)),
        (Some((0, 2, 0)), Some((1, 0, 0)), None),
    ),
    (
        Sent::Line(16, To::Proc(Pid(32), 1)),
        (Some((0, 3, 0)), Some((1, 0, 0)), None),
    ),
    (
        Sent::Line(32, To::Proc(Pid(17), 1)),
        (Some((0, 3, 0)), Some((2, 0, 0)), None),
    ),
    (Sent::Signal, (Some((0, 3, 0)), Some((3, 0, 1)), None)),
];

fn assert_noted(alloc: Global, records: &mut Records) -> Result<(), Fail> {
    for (sent, wanted) in &NOTED {
        note_sent(alloc, records, sent)?;
        same("what is told", &each_told(records), wanted)?;
    }
    same("how many records there are", &records.len(), &2)
}

#[test]
fn a_letter_is_saved_by_its_receiver_and_counted_by_its_sender(
    rt: HostRuntime,
) -> Result<(), Fail> {
    let mut kept = records(rt.alloc(), &[17, 16])?;
    assert_noted(rt.alloc(), &mut kept)
}

// How many records there are, and whether there is one of 16, 17 and 32.
fn there(records: &Records) -> (usize, [bool; 3]) {
    let each = [
        records.get(Pid(16)).is_some(),
        records.get(Pid(17)).is_some(),
        records.get(Pid(32)).is_some(),
    ];
    (records.len(), each)
}

// After an exit, and after the end of a run, which is no process's.
fn ended(alloc: Global) -> Result<(usize, [bool; 3]), NoMemory> {
    let mut kept = records(alloc, &[16, 17, 32])?;
    kept.note(
        ClusterNo(1),
        &What::Exit {
            pid: Pid(17),
            at: 9,
            end: End::Exit(0),
        },
    )?;
    kept.note(ClusterNo(1), &What::Stop)?;
    Ok(there(&kept))
}

#[test]
fn the_record_of_a_process_that_ended_goes(rt: HostRuntime) -> Result<(), Fail> {
    same(
        "the records",
        &ended(rt.alloc())?,
        &(2, [true, false, true]),
    )
}

// Four processes; the homes of 16, 32 and 64 are in cluster 0, and the backups of 16, 17 and 64 in cluster 1.
const FIRST: Placed = Placed {
    pid: Pid(16),
    home: ClusterNo(0),
    backup: Some(ClusterNo(1)),
    mode: Mode::Quarter,
    lost: None,
    ended: false,
    synced: false,
};

const AWAY: Placed = Placed {
    pid: Pid(17),
    home: ClusterNo(2),
    ..FIRST
};

const SAVED_AWAY: Placed = Placed {
    pid: Pid(32),
    backup: Some(ClusterNo(2)),
    ..FIRST
};

const LAST: Placed = Placed {
    pid: Pid(64),
    ..FIRST
};

const CHILD: Placed = Placed {
    pid: Pid(80),
    ..FIRST
};

static FOUR: [Placed; 4] = [FIRST, AWAY, SAVED_AWAY, LAST];

static FAMILY: [Placed; 3] = [FIRST, AWAY, CHILD];

// The records that move at the loss of cluster 0.
fn take_moved(
    alloc: Global,
    kept: &mut Records,
    before: &Placement,
) -> Result<List<Record>, NoMemory> {
    kept.take_moved(alloc, ClusterNo(0), ClusterNo(1), before)
}

fn moved_of_four(alloc: Global, kept: &mut Records) -> Result<List<Record>, NoMemory> {
    let before = Placement::boot(alloc, 3, (ClusterNo(0), ClusterNo(1)), &FOUR)?;
    take_moved(alloc, kept, &before)
}

fn moved_of_family(alloc: Global, kept: &mut Records) -> Result<List<Record>, NoMemory> {
    let before = Placement::boot(alloc, 3, (ClusterNo(0), ClusterNo(1)), &FAMILY)?;
    take_moved(alloc, kept, &before)
}

fn two_pids(records: &[Record]) -> Option<(u32, u32)> {
    match records {
        [first, second] => Some((first.pid().0, second.pid().0)),
        _ => None,
    }
}

// The only child that the first of these records has.
fn first_birth(records: &[Record]) -> Option<u32> {
    match records.first()?.births() {
        [child] => Some(child.0),
        _ => None,
    }
}

// The letter that the last record saved for end 1.
fn saved_last(records: List<Record>) -> Option<Arrived> {
    let last = records.into_vec().pop()?;
    let mut saved = last.into_parts().saved;
    saved.take_on(1)
}

// The number of a letter, and the three bytes that it says.
type Said = (u64, Option<[u8; 3]>);

fn said(letter: &Arrived) -> Said {
    let bytes = match &letter.letter.body {
        Body::Said(bytes) => bytes.as_slice().try_into().ok(),
        _ => None,
    };
    (letter.number, bytes)
}

fn said_last(records: List<Record>) -> Option<Said> {
    let letter = saved_last(records)?;
    Some(said(&letter))
}

fn assert_pids(moved: &[Record], pids: (u32, u32), child: Option<u32>) -> Result<(), Fail> {
    same(
        "the two that move, and the child of the first",
        &(two_pids(moved), first_birth(moved)),
        &(Some(pids), child),
    )
}

// Two records move, of which the last has saved a line.
fn assert_moved(moved: List<Record>, pids: (u32, u32), child: Option<u32>) -> Result<(), Fail> {
    assert_pids(moved.as_slice(), pids, child)?;
    same(
        "the letter of the last",
        &said_last(moved),
        &Some((0, Some(*b"ok\n"))),
    )
}

fn assert_loss(alloc: Global, kept: &mut Records) -> Result<(), Fail> {
    note_sent(alloc, kept, &Sent::Line(17, To::Proc(Pid(64), 1)))?;
    let moved = moved_of_four(alloc, kept)?;
    assert_moved(moved, (16, 64), None)?;
    same(
        "how many stay, and what is told of 17",
        &(kept.len(), told(kept, 17)),
        &(1, Some((0, 1, 0))),
    )
}

// The records of cluster 1, with a letter of 17 to 64.
#[test]
fn a_loss_takes_the_records_that_move_here_with_their_letters(rt: HostRuntime) -> Result<(), Fail> {
    let mut kept = records(rt.alloc(), &[64, 17, 16])?;
    assert_loss(rt.alloc(), &mut kept)
}

// An end letter to end 1 of the process 16.
fn last_to_one() -> Letter
    ensures { result ≡ record { from = record { 0 = 17 }; out = 1; to = Proc (record { 0 = 16 }) 1; body = EndOf } }
{
    Letter {
        from: Pid(17),
        out: 1,
        to: To::Proc(Pid(16), 1),
        body: Body::EndOf,
    }
}

// The record of the process 16, with two letters for an end.
fn two_saved(alloc: Global) -> Result<Record, NoMemory>
    ensures pid { IfOk result (λ kept. kept.pid ≡ record { 0 = 16 }) }
    ensures fronts { IfOk result (λ kept. AreFronts (0 ∷ []) kept.saved) }
    ensures ends { IfOk result (λ kept. AreOnEnds (0 ∷ []) kept.saved) }
{
    let mut kept = Record::new(alloc, Pid(16), None);
    kept.save(last_to_one())?;
    kept.save(last_to_one())?;
    Ok(kept)
}

// That record alone.
fn one_kept(alloc: Global) -> Result<Records, NoMemory>
    ensures { IfOk result (λ kept. CanCut (record { 0 = 16 }) (0 ∷ []) kept) }
{
    let mut kept = Records::none(alloc);
    kept.add(two_saved(alloc)?)?;
    Ok(kept)
}

fn fresh_state(alloc: Global) -> Result<Small, NoMemory> {
    let Process { small, .. } = Process::root(alloc, Pid(16), 0x10000, 1, &[], 1000, 3, 0)?;
    Ok(small)
}

// The steps that the process of a record may make, the letters that arrived and those that it sent.
fn state_told(records: &Records) -> Option<(u32, u64, u32)> {
    let record = records.get(Pid(16))?;
    Some((record.state()?.left, record.next(), record.counts().ends[2]))
}

fn assert_state(kept: &Records) -> Result<(), Fail> {
    same("the record", &state_told(kept), &Some((1000, 2, 0)))
}

fn assert_cut(kept: &mut Records, state: &Small) -> Result<(), Fail>
    requires { CanCut (record { 0 = 16 }) (0 ∷ []) kept.old }
{
    kept.cut(Pid(16), state, &[0]);
    assert_state(kept)
}

#[test]
fn a_cut_gives_the_record_its_state(rt: HostRuntime) -> Result<(), Fail> {
    let state = fresh_state(rt.alloc())?;
    let mut kept = one_kept(rt.alloc())?;
    assert_cut(&mut kept, &state)
}

// The synchronisation of the process 16, which has read the letter 0.
fn first_read(alloc: Global) -> Result<What, NoMemory>
    ensures { IfOk result (λ what. (recs : List BackRec) → CanCut (record { 0 = 16 }) (0 ∷ []) recs → CanNote what recs) }
{
    let mut read = List::new(alloc);
    read.push(0)?;
    Ok(What::Sync {
        pid: Pid(16),
        small: Shared::new(alloc, fresh_state(alloc)?)?,
        read,
        took: None,
    })
}

fn note_cut(alloc: Global, kept: &mut Records) -> Result<(), NoMemory>
    requires { CanCut (record { 0 = 16 }) (0 ∷ []) kept.old }
{
    let what = first_read(alloc)?;
    kept.note(ClusterNo(1), &what)
}

// The number of the first letter that is still saved.
fn first_left(records: List<Record>) -> Option<u64> {
    Some(saved_last(records)?.number)
}

fn assert_noted_cut(alloc: Global, kept: &mut Records) -> Result<(), Fail>
    requires { CanCut (record { 0 = 16 }) (0 ∷ []) kept.old }
{
    note_cut(alloc, kept)?;
    assert_state(kept)?;
    let moved = moved_of_four(alloc, kept)?;
    same("the letter that is left", &first_left(moved), &Some(1))
}

#[test]
fn a_synchronisation_that_is_noted_cuts_the_record(rt: HostRuntime) -> Result<(), Fail> {
    let mut kept = one_kept(rt.alloc())?;
    assert_noted_cut(rt.alloc(), &mut kept)
}

// The process 16 bears 80, which may be noted in these tests.
fn note_birth(records: &mut Records) -> Result<(), Fail> {
    if records.get(Pid(80)).is_some() {
        return Err("the birth may not be noted".into());
    }
    records.note(
        ClusterNo(1),
        &What::Birth {
            parent: Pid(16),
            at: 1,
            child: Pid(80),
            end: 1,
        },
    )?;
    Ok(())
}

// The synchronisation of 80, which has read no letter.
fn none_read(alloc: Global) -> Result<What, NoMemory>
    ensures { IfOk result (λ what. (recs : List BackRec) → CanNote what recs) }
{
    reads_are_fronts();
    reads_are_on_ends();
    Ok(What::Sync {
        pid: Pid(80),
        small: Shared::new(alloc, fresh_state(alloc)?)?,
        read: List::new(alloc),
        took: None,
    })
}

// Whether the record of 80 has a state, and how many letters it has saved.
fn child_told(records: &Records) -> Option<(bool, u64)> {
    let record = records.get(Pid(80))?;
    Some((record.state().is_some(), record.next()))
}

fn note_sync(alloc: Global, records: &mut Records) -> Result<(), NoMemory> {
    let what = none_read(alloc)?;
    records.note(ClusterNo(1), &what)
}

// 16 bears 80, 17 sends 80 a letter, or 80 synchronises.
enum Step {
    Birth,
    Letter,
    Sync,
}

fn note_step(alloc: Global, records: &mut Records, step: &Step) -> Result<(), Fail> {
    match step {
        Step::Birth => note_birth(records),
        Step::Letter => note_sent(alloc, records, &Sent::Line(17, To::Proc(Pid(80), 1))),
        Step::Sync => Ok(note_sync(alloc, records)?),
    }
}

// What is told of the child as it goes on.
static CHILDHOOD: [(Step, Option<(bool, u64)>); 3] = [
    (Step::Birth, Some((false, 0))),
    (Step::Letter, Some((false, 1))),
    (Step::Sync, Some((true, 1))),
];

fn assert_childhood(alloc: Global, records: &mut Records) -> Result<(), Fail> {
    for (step, wanted) in &CHILDHOOD {
        note_step(alloc, records, step)?;
        same("the child", &child_told(records), wanted)?;
    }
    Ok(())
}

// The records that move at the loss of cluster 0, the home of 16 and 80.
fn assert_family(alloc: Global, records: &mut Records) -> Result<(), Fail> {
    assert_childhood(alloc, records)?;
    let moved = moved_of_family(alloc, records)?;
    assert_moved(moved, (16, 80), Some(80))
}

#[test]
fn a_child_that_is_born_has_a_record_and_moves_with_its_parent(
    rt: HostRuntime,
) -> Result<(), Fail> {
    let mut kept = records(rt.alloc(), &[17, 16])?;
    assert_family(rt.alloc(), &mut kept)
}
