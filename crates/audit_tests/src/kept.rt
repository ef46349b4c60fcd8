//! The backup records of all processes of a log, entry by entry. Process 16 is at home in cluster 0, and may execute 1000
//! instructions; 17 is at home in cluster 1, and may execute 500. A channel links them.
ghost use Rattle.std.specs.Prelude.{◌≡◌, ◌<◌, ◌^◌, ◌-◌, List, IfOk, IsTrue};
ghost use Rattle.proc_state.specs.Mail.{RiseTo};
ghost use Rattle.write_count.specs.Counting.{count_for};
ghost use Rattle.backup_records.specs.Records.{CanCount, CanSave};
ghost use Rattle.log_records.specs.Records.{CanTake};
ghost use Rattle.t32_base.specs.declared.letter.BackRec.{BackRec};

use backup_queue::reading::{reads_are_fronts, reads_are_on_ends};
use backup_queue::record::Record;
use backup_records::records::Records;
use bus_msg::entry::{By, Cause, Dests, Entry, Post, What};
use bus_msg::shared::Shared;
use log_records::records::LogRecords;
use proc_state::process::Process;
use std::alloc::Global;
use std::test::Fail;
use sys_text::read_system;
use t32_base::letter::{BackRec, Body, Letter, To};
use t32_base::lists::List;
use t32_base::process::{ClusterNo, Counts, End, Pid, Small};
use t32_base::streams::NoMemory;
use test_asserts::same;

const TEXT: &str =
    "clusters 3\npager 0 1\nsyncreads 32\nsyncsteps 4096\nimage bad 1\nwords 00000000\nend\nroot 0 1 full bad 1000 1 0\nroot 1 2 quarter bad 500 0 1\nchan 1 2\n";

const PARENT: Pid = Pid(16);

const OTHER: Pid = Pid(17);

const CHILD: Pid = Pid(32);

// ---- what is told of the records

// The instructions that are left in the state, if there is one; how many letters arrived; how many were sent from end 1;
// and how many children were born.
type Told = Option<(Option<u32>, u64, u32, usize)>;

fn left(record: &Record) -> Option<u32> {
    Some(record.state()?.left)
}

fn told(records: &Records, pid: Pid) -> Told {
    let record = records.get(pid)?;
    let sent = record.counts().ends[1];
    Some((left(record), record.next(), sent, record.births().len()))
}

// The same of the two roots and of the child.
type Each = (Told, Told, Told);

fn each_told(records: &Records) -> Each {
    (
        told(records, PARENT),
        told(records, OTHER),
        told(records, CHILD),
    )
}

// ---- the entries

// Takes in an entry that says this.
fn take(records: &mut LogRecords, what: What) -> Result<(), Fail>
    requires { CanTake what records.old }
{
    let dests = Dests {
        clusters: 7,
        tty: None,
    };
    let post = Post { by: By::Bus, what };
    let place = 0;
    Ok(records.take(&Entry { place, post, dests })?)
}

fn can_save(records: &Records, letter: &Letter) -> bool
    ensures { IsTrue result → CanSave letter.now records.now }
{
    match letter.to {
        To::Proc(pid, _) => match records.get(pid) {
            Some(record) => record.next() < 9,
            None => true,
        },
        To::Tty(_) => true,
    }
}

// Whether the counts are small, as those of a test stay.
fn is_small(counts: &Counts, letter: &Letter) -> bool
    ensures { IsTrue result → (letter.now.out < 32) × (count_for counts.now letter.now < 2 ^ 32 - 1) }
{
    if letter.out >= 32 {
        return false;
    }
    match letter.body {
        Body::Signal(_) => counts.signals < 9,
        _ => counts.ends[usize::from(letter.out)] < 9,
    }
}

fn can_count(records: &Records, letter: &Letter) -> bool
    ensures { IsTrue result → CanCount letter.now records.now }
{
    match records.get(letter.from) {
        Some(record) => is_small(record.counts(), letter),
        None => true,
    }
}

// Process 16 sends an end letter to 17.
fn letter() -> Letter {
    Letter {
        from: PARENT,
        out: 1,
        to: To::Proc(OTHER, 1),
        body: Body::EndOf,
    }
}

fn take_letter(records: &mut LogRecords) -> Result<(), Fail> {
    let letter = letter();
    if can_save(records.records(), &letter) && can_count(records.records(), &letter) {
        return take(records, What::Mail { at: 1, letter });
    }
    Err("the letter may not be taken in".into())
}

// Process 16 bears 32.
fn take_birth(records: &mut LogRecords) -> Result<(), Fail> {
    if records.records().get(CHILD).is_some() {
        return Err("the birth may not be taken in".into());
    }
    let what = What::Birth {
        parent: PARENT,
        at: 2,
        child: CHILD,
        end: 2,
    };
    take(records, what)
}

fn state(alloc: Global, pid: Pid, left: u32) -> Result<Small, NoMemory> {
    let Process { small, .. } = Process::root(alloc, pid, 0x10000, 1, &[], left, 0, 0)?;
    Ok(small)
}

// Process 32 has synchronised, and may execute 700 more.
fn sync(alloc: Global) -> Result<What, NoMemory>
    ensures { IfOk result (λ what. (recs : List BackRec) → CanTake what recs) }
{
    reads_are_fronts();
    reads_are_on_ends();
    Ok(What::Sync {
        pid: CHILD,
        small: Shared::new(alloc, state(alloc, CHILD, 700)?)?,
        read: List::new(alloc),
        took: None,
    })
}

fn take_sync(alloc: Global, records: &mut LogRecords) -> Result<(), Fail> {
    let what = sync(alloc)?;
    take(records, what)
}

// A record that a new backup brings.
fn backup(alloc: Global, fresh: bool, rec: BackRec) -> Result<What, NoMemory>
    requires { RiseTo 0 rec.saved rec.next }
    ensures { IfOk result (λ what. (recs : List BackRec) → CanTake what recs) }
{
    let mut recs = List::new(alloc);
    recs.push(rec)?;
    Ok(What::Rebackup {
        to: ClusterNo(2),
        fresh,
        recs: Shared::new(alloc, recs)?,
    })
}

// Process 16, which was moved, waits for its new backup with the record that it had.
fn take_standing(alloc: Global, records: &mut LogRecords) -> Result<(), Fail> {
    let rec = match records.records().get(PARENT) {
        Some(record) => record.told()?,
        None => return Err("there is no record".into()),
    };
    let what = backup(alloc, false, rec)?;
    take(records, what)
}

// It has run, and may execute 900 more.
fn take_fresh(alloc: Global, records: &mut LogRecords) -> Result<(), Fail> {
    let record = Record::new(alloc, PARENT, Some(state(alloc, PARENT, 900)?));
    let what = backup(alloc, true, record.told()?)?;
    take(records, what)
}

// The entries in their order.
#[derive(Clone, Copy)]
enum Step {
    Letter,
    Birth,
    Sync,
    Loss,
    Standing,
    Return,
    Fetch,
    Fresh,
    Exit,
    Stop,
}

fn take_step(alloc: Global, records: &mut LogRecords, step: Step) -> Result<(), Fail> {
    match step {
        Step::Letter => take_letter(records),
        Step::Birth => take_birth(records),
        Step::Sync => take_sync(alloc, records),
        Step::Loss => {
            let k = ClusterNo(0);
            let cause = Cause::Place;
            take(records, What::Crash { k, cause })
        }
        Step::Standing => take_standing(alloc, records),
        Step::Return => take(records, What::Return { k: ClusterNo(0) }),
        Step::Fetch => take(
            records,
            What::Fetch {
                pid: PARENT,
                index: 0,
            },
        ),
        Step::Fresh => take_fresh(alloc, records),
        Step::Exit => {
            let at = 3;
            let end = End::Limit;
            take(
                records,
                What::Exit {
                    pid: OTHER,
                    at,
                    end,
                },
            )
        }
        Step::Stop => take(records, What::Stop),
    }
}

const PARENT_BEGUN: Told = Some((Some(1000), 0, 0, 0));

const OTHER_BEGUN: Told = Some((Some(500), 0, 0, 0));

const PARENT_SENT: Told = Some((Some(1000), 0, 1, 0));

const OTHER_GOT: Told = Some((Some(500), 1, 0, 0));

const PARENT_BORE: Told = Some((Some(1000), 0, 1, 1));

const CHILD_BEGUN: Told = Some((None, 0, 0, 0));

const CHILD_SYNCED: Told = Some((Some(700), 0, 0, 0));

const PARENT_RENEWED: Told = Some((Some(900), 0, 0, 0));

// What is told after each entry.
static TAKEN: [(Step, Each); 10] = [
    (Step::Letter, (PARENT_SENT, OTHER_GOT, None)),
    (Step::Birth, (PARENT_BORE, OTHER_GOT, CHILD_BEGUN)),
    (Step::Sync, (PARENT_BORE, OTHER_GOT, CHILD_SYNCED)),
    (Step::Loss, (PARENT_BORE, OTHER_GOT, CHILD_SYNCED)),
    (Step::Standing, (PARENT_BORE, OTHER_GOT, CHILD_SYNCED)),
    (Step::Return, (PARENT_BORE, OTHER_GOT, CHILD_SYNCED)),
    (Step::Fetch, (PARENT_BORE, OTHER_GOT, CHILD_SYNCED)),
    (Step::Fresh, (PARENT_RENEWED, OTHER_GOT, CHILD_SYNCED)),
    (Step::Exit, (PARENT_RENEWED, None, CHILD_SYNCED)),
    (Step::Stop, (PARENT_RENEWED, None, CHILD_SYNCED)),
];

fn assert_taken(alloc: Global, records: &mut LogRecords) -> Result<(), Fail> {
    for (step, wanted) in &TAKEN {
        take_step(alloc, records, *step)?;
        same("the records", &each_told(records.records()), wanted)?;
    }
    Ok(())
}

#[test]
fn the_records_go_on_with_the_log(rt: HostRuntime) -> Result<(), Fail> {
    let system = read_system(rt.alloc(), TEXT.as_bytes())?;
    let mut records = LogRecords::start(rt.alloc(), &system)?;
    let begun = (PARENT_BEGUN, OTHER_BEGUN, None);
    same("the records", &each_told(records.records()), &begun)?;
    assert_taken(rt.alloc(), &mut records)
}
