//! What a record keeps of what it was told, and what it hands over.
ghost use Rattle.std.specs.Prelude.{◌≡◌, [], ◌∷◌, OnOk, IfOk};
ghost use Rattle.t32_base.specs.declared.letter.To.TheVariants.{Proc};
ghost use Rattle.t32_base.specs.declared.letter.Body.TheVariants.{EndOf};
ghost use Rattle.backup_queue.specs.Fronts.{AreFronts, AreOnEnds};
ghost use Rattle.proc_state.specs.Mail.{RiseTo};

use backup_queue::record::{Record, RecordParts};
use proc_state::mailbox::Mailbox;
use proc_state::process::Process;
use std::alloc::Global;
use std::test::Fail;
use t32_base::letter::{BackRec, Body, Letter, To};
use t32_base::process::{Pid, Small};
use t32_base::streams::NoMemory;
use test_asserts::same;

// A letter from the process 17 to an end of the process 16.
fn letter_to(end: u8) -> Letter
    ensures { result ≡ record { from = record { 0 = 17 }; out = 1; to = Proc (record { 0 = 16 }) end; body = EndOf } }
{
    Letter {
        from: Pid(17),
        out: 1,
        to: To::Proc(Pid(16), end),
        body: Body::EndOf,
    }
}

// A letter that the process 16 sent from its end 2.
fn sent() -> Letter
    ensures { result ≡ record { from = record { 0 = 16 }; out = 2; to = Proc (record { 0 = 17 }) 1; body = EndOf } }
{
    Letter {
        from: Pid(16),
        out: 2,
        to: To::Proc(Pid(17), 1),
        body: Body::EndOf,
    }
}

// Saves letters for the ends 1, 2 and 1, of which the process can have read the first two.
fn save_three(rec: &mut Record) -> Result<(), NoMemory>
    requires none { rec.old.saved ≡ [] }
    requires first { rec.old.next ≡ 0 }
    ensures fronts { OnOk result (AreFronts (1 ∷ 0 ∷ []) rec.new.saved) }
    ensures ends { OnOk result (AreOnEnds (1 ∷ 0 ∷ []) rec.new.saved) }
{
    rec.save(letter_to(1))?;
    rec.save(letter_to(2))?;
    rec.save(letter_to(1))
}

// The state of a process that may make 1000 steps.
fn fresh_state(alloc: Global) -> Result<Small, NoMemory> {
    let Process { small, .. } = Process::root(alloc, Pid(16), 0x10000, 1, &[], 1000, 3, 0)?;
    Ok(small)
}

// The steps that the process of a record may make, if it has a state.
fn left(rec: &Record) -> Option<u32> {
    Some(rec.state()?.left)
}

// The process, its steps left, the letters that arrived, those that it sent from each end, and its children.
type Begun = (Pid, Option<u32>, u64, [u32; 32], usize);

fn begun(rec: &Record) -> Begun {
    (
        rec.pid(),
        left(rec),
        rec.next(),
        rec.counts().ends,
        rec.births().len(),
    )
}

fn with_state(alloc: Global) -> Result<Begun, NoMemory> {
    let rec = Record::new(alloc, Pid(16), Some(fresh_state(alloc)?));
    Ok(begun(&rec))
}

fn without_state(alloc: Global) -> Begun {
    begun(&Record::new(alloc, Pid(17), None))
}

#[test]
fn a_new_record_has_the_state_and_nothing_else(rt: HostRuntime) -> Result<(), Fail> {
    same(
        "with a state, and without",
        &(with_state(rt.alloc())?, without_state(rt.alloc())),
        &(
            (Pid(16), Some(1000), 0, [0; 32], 0),
            (Pid(17), None, 0, [0; 32], 0),
        ),
    )
}

// A record with two letters that were sent.
fn two_counted(alloc: Global) -> Record
    ensures none { result.saved ≡ [] }
    ensures first { result.next ≡ 0 }
{
    let letter = sent();
    let mut rec = Record::new(alloc, Pid(16), None);
    rec.count(&letter);
    rec.count(&letter);
    rec
}

fn tell_rest(rec: &mut Record) -> Result<(), NoMemory>
    requires none { rec.old.saved ≡ [] }
    requires first { rec.old.next ≡ 0 }
{
    save_three(rec)?;
    rec.add_birth(Pid(32))?;
    rec.add_birth(Pid(48))
}

// Two letters that were sent, three that arrived, and two births.
fn all_told(alloc: Global) -> Result<Record, NoMemory> {
    let mut rec = two_counted(alloc);
    tell_rest(&mut rec)?;
    Ok(rec)
}

fn two_of(pids: &[Pid]) -> Option<(Pid, Pid)> {
    match pids {
        [first, second] => Some((*first, *second)),
        _ => None,
    }
}

// The letters that arrived, those that were sent from end 2, and two children.
type Seen = (u64, u32, Option<(Pid, Pid)>);

fn seen(rec: &Record) -> Seen {
    (rec.next(), rec.counts().ends[2], two_of(rec.births()))
}

// The number of the first letter for an end, which is taken out.
fn take_number(saved: &mut Mailbox, end: u8) -> Option<u64> {
    Some(saved.take_on(end)?.number)
}

// The number of the next letter; those of the letters taken from end 1, twice, and from end 2; and whether none is left.
type Taken = (u64, [Option<u64>; 3], bool);

fn take_all(saved: &mut Mailbox) -> Taken {
    let next = saved.next();
    let first = take_number(saved, 1);
    let second = take_number(saved, 1);
    let other = take_number(saved, 2);
    (next, [first, second, other], saved.is_empty())
}

// What the parts of a record show: its letters, those that were sent from end 2, and two children.
type HandedOver = (Taken, u32, Option<(Pid, Pid)>);

fn handed_over(rec: Record) -> HandedOver {
    let RecordParts {
        mut saved,
        counts,
        births,
        ..
    } = rec.into_parts();
    let taken = take_all(&mut saved);
    (taken, counts.ends[2], two_of(births.as_slice()))
}

const BIRTHS: Option<(Pid, Pid)> = Some((Pid(32), Pid(48)));

const ALL: HandedOver = ((3, [Some(0), Some(2), Some(1)], true), 2, BIRTHS);

fn assert_handed_over(rec: Record) -> Result<(), Fail> {
    let all = ALL;
    same("what it hands over", &handed_over(rec), &all)
}

#[test]
fn what_a_record_is_told_is_handed_over(rt: HostRuntime) -> Result<(), Fail> {
    let rec = all_told(rt.alloc())?;
    same("what it is told", &seen(&rec), &(3, 2, BIRTHS))?;
    assert_handed_over(rec)
}

// The record that is made of what another tells.
fn told(alloc: Global) -> Result<BackRec, NoMemory>
    ensures { IfOk result (λ rec. RiseTo 0 rec.saved rec.next) }
{
    let rec = all_told(alloc)?;
    rec.told()
}

fn made_of_told(alloc: Global) -> Result<Record, NoMemory> {
    let told = told(alloc)?;
    Record::of(&told)
}

#[test]
fn a_record_that_is_told_makes_an_equal_one(rt: HostRuntime) -> Result<(), Fail> {
    assert_handed_over(made_of_told(rt.alloc())?)
}

// A record with three letters and a birth.
fn with_birth(alloc: Global) -> Result<Record, NoMemory>
    ensures fronts { IfOk result (λ rec. AreFronts (1 ∷ 0 ∷ []) rec.saved) }
    ensures ends { IfOk result (λ rec. AreOnEnds (1 ∷ 0 ∷ []) rec.saved) }
{
    let mut rec = Record::new(alloc, Pid(16), None);
    rec.add_birth(Pid(32))?;
    save_three(&mut rec)?;
    Ok(rec)
}

fn cut(alloc: Global) -> Result<Record, NoMemory> {
    let state = fresh_state(alloc)?;
    let mut rec = with_birth(alloc)?;
    rec.cut(state, &[1, 0]);
    Ok(rec)
}

// Whether there is a state, how many letters are saved, and the number of the first for end 1.
fn left_over(rec: Record) -> (bool, usize, Option<u64>) {
    let RecordParts {
        state,
        mut saved,
        ..
    } = rec.into_parts();
    let letters = saved.len();
    (state.is_some(), letters, take_number(&mut saved, 1))
}

#[test]
fn a_cut_leaves_the_letters_that_were_not_read(rt: HostRuntime) -> Result<(), Fail> {
    let rec = cut(rt.alloc())?;
    let kept = (rec.next(), rec.births().len());
    same(
        "what it was told, and what is left",
        &(kept, left_over(rec)),
        &((3, 0), (true, 1, Some(2))),
    )
}
