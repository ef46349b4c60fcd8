//! The schedule of a log, kept entry by entry.
ghost use Rattle.std.specs.Prelude.{◌≡◌, ◌-◌, ◌∷◌, ◌++◌, [], OnOk, OnErr, take, length, max, option_map, Some};
ghost use Rattle.cert_sched.specs.Schedule.{run_of, take_of, steps_in};
ghost use Rattle.bus_msg.specs.PlacedAfter.{what};
ghost use Rattle.cert_sched.specs.Steps.{first_record};
ghost use Rattle.cert_sched.specs.CertAfter.{StartsSchedule, KeepsSchedule, steps_of, run_to, run_to_record, runs_to, added, count_in, raised, cert_after};

use bus_msg::entry::{Entry, What};
use plain_kernel::item::Item;
use std::alloc::Global;
use std::collections::BTreeMap;
use std::marker::Model;
use t32_base::letter::BackRec;
use t32_base::lists::List;
use t32_base::process::{Pid, Small};
use t32_base::streams::NoMemory;

/// The schedule of a log so far, and the steps in it of each process that has some.
#[derive(Drop)]
pub struct Cert {
    items: Vec<Item>,
    done: BTreeMap<u32, u64>,
}

impl Model for Cert {
    ghost use Rattle.cert_sched.specs.CertAfter.{CertView};

    ghost Value = { CertView };

    ghost view = { λ c. record { items = c.items.items; done = c.done.entries } };
}

impl Cert {
    /// The schedule of a log without entries. Takes no memory.
    pub fn none(alloc: Global) -> Cert
        ensures empty { result ≡ record { items = []; done = [] } }
        ensures starts { StartsSchedule result }
    {
        Cert {
            items: Vec::new(alloc),
            done: BTreeMap::new(alloc),
        }
    }

    /// Adds the items of the next entry of the log: the steps that its process made since its last one, or
    /// those of every process at the end. After want of memory the schedule is as it was.
    pub fn add(&mut self, entry: &Entry) -> Result<(), NoMemory>
        ensures after { OnOk result (self.new ≡ cert_after self.old (what entry.now)) }
        ensures keeps { OnOk result (KeepsSchedule self.old self.new entry.now) }
        ensures err { OnErr result (self.new ≡ self.old) }
    {
        add_entry(&mut self.items, &mut self.done, &entry.post.what)
    }

    /// The items so far.
    pub fn items(&self) -> &[Item]
        ensures { result.now ≡ self.now.items }
    {
        self.items.as_slice()
    }

    /// The items so far, by value. Takes no memory.
    pub fn into_items(self) -> List<Item>
        ensures { result ≡ self.items }
    {
        List::from_vec(self.items)
    }
}

// ---- one entry

// Adds the items and the count of an entry. After want of memory both are as they were.
fn add_entry(
    items: &mut Vec<Item>,
    done: &mut BTreeMap<u32, u64>,
    what: &What,
) -> Result<(), NoMemory>
    ensures items { OnOk result (items.new.items ≡ items.old.items ++ added (steps_of done.old.entries) what.now) }
    ensures done { OnOk result (done.new.entries ≡ raised (count_in what.now) done.old.entries) }
    ensures items_stay { OnErr result (items.new.items ≡ items.old.items) }
    ensures done_stay { OnErr result (done.new.entries ≡ done.old.entries) }
{
    let before = items.len();
    let outcome = try_entry(items, done, what);
    if outcome.is_err() {
        items.truncate(before);
    }
    outcome
}

// The same, but for items at the end that may be left after want of memory.
fn try_entry(
    items: &mut Vec<Item>,
    done: &mut BTreeMap<u32, u64>,
    what: &What,
) -> Result<(), NoMemory>
    ensures items { OnOk result (items.new.items ≡ items.old.items ++ added (steps_of done.old.entries) what.now) }
    ensures done { OnOk result (done.new.entries ≡ raised (count_in what.now) done.old.entries) }
    ensures items_stay { OnErr result (take (length items.old.items) items.new.items ≡ items.old.items) }
    ensures done_stay { OnErr result (done.new.entries ≡ done.old.entries) }
{
    match what {
        What::Mail { at, letter } => run_up(items, done, letter.from, *at),
        What::Exit { pid, at, .. } => run_up(items, done, *pid, *at),
        What::Birth {
            parent,
            at,
            child,
            ..
        } => {
            push_run(items, done, *parent, at.saturating_sub(1))?;
            push(items, Item::Fork(*parent, *child))?;
            raise(done, *parent, *at)
        }
        What::Sync {
            pid,
            small,
            took,
            ..
        } => {
            push_run(items, done, *pid, steps_made(small.get()))?;
            push_take(items, *pid, *took)?;
            raise(done, *pid, steps_made(small.get()))
        }
        What::Rebackup { fresh, recs, .. } => {
            if *fresh {
                run_up_first(items, done, recs.get().as_slice())
            } else {
                Ok(())
            }
        }
        What::Done { rests } => push_rests(items, done, rests.as_slice()),
        What::Page { .. }
        | What::Fetch { .. }
        | What::PageIs { .. }
        | What::Crash { .. }
        | What::Return { .. }
        | What::Stop => Ok(()),
    }
}

// ---- the parts of an entry

fn steps_made(small: &Small) -> u64
    ensures { result ≡ small.now.steps }
{
    small.steps
}

fn steps_recorded(backup: &BackRec) -> u64
    ensures { result ≡ steps_in backup.now.state }
{
    match &backup.state {
        Some(small) => steps_made(small),
        None => 0,
    }
}

// ---- the counts

// The steps of a process so far.
fn steps_so_far(done: &BTreeMap<u32, u64>, pid: Pid) -> u64
    ensures { result ≡ steps_of done.now.entries pid }
{
    match done.get(&pid.0) {
        Some(steps) => *steps,
        None => 0,
    }
}

// A process has at least so many steps now. After want of memory the counts are as they were.
fn raise(done: &mut BTreeMap<u32, u64>, pid: Pid, at: u64) -> Result<(), NoMemory>
    ensures ok { OnOk result (done.new.entries ≡ raised (Some (pid, at)) done.old.entries) }
    ensures err { OnErr result (done.new.entries ≡ done.old.entries) }
{
    let steps = at.max(steps_so_far(done, pid));
    done.insert(pid.0, steps)?;
    Ok(())
}

// ---- the items

fn push(items: &mut Vec<Item>, item: Item) -> Result<(), NoMemory>
    ensures ok { OnOk result (items.new.items ≡ items.old.items ++ item ∷ []) }
    ensures err { OnErr result (items.new.items ≡ items.old.items) }
{
    items.push(item)?;
    Ok(())
}

// Puts the run of a process up to a step count at the end, where it has any steps.
fn push_run(
    items: &mut Vec<Item>,
    done: &BTreeMap<u32, u64>,
    pid: Pid,
    at: u64,
) -> Result<(), NoMemory>
    ensures ok { OnOk result (items.new.items ≡ items.old.items ++ run_to (steps_of done.now.entries) pid at) }
    ensures err { OnErr result (items.new.items ≡ items.old.items) }
{
    let steps = at.saturating_sub(steps_so_far(done, pid));
    if steps == 0 {
        return Ok(());
    }
    push(items, Item::Run(pid, steps))
}

fn push_take(items: &mut Vec<Item>, pid: Pid, took: Option<u8>) -> Result<(), NoMemory>
    ensures ok { OnOk result (items.new.items ≡ items.old.items ++ take_of pid took) }
    ensures err { OnErr result (items.new.items ≡ items.old.items) }
{
    match took {
        Some(_) => push(items, Item::Take(pid)),
        None => Ok(()),
    }
}

// Puts the run of a process up to a step count at the end, and raises its count to that, with one search for a process that has a count. After
// want of memory the count is as it was, and the run may be there.
fn run_up(
    items: &mut Vec<Item>,
    done: &mut BTreeMap<u32, u64>,
    pid: Pid,
    at: u64,
) -> Result<(), NoMemory>
    ensures items { OnOk result (items.new.items ≡ items.old.items ++ run_to (steps_of done.old.entries) pid at) }
    ensures done { OnOk result (done.new.entries ≡ raised (Some (pid, at)) done.old.entries) }
    ensures items_stay { OnErr result (take (length items.old.items) items.new.items ≡ items.old.items) }
    ensures done_stay { OnErr result (done.new.entries ≡ done.old.entries) }
{
    match done.get_mut(&pid.0) {
        Some(steps) => run_from(items, steps, pid, at),
        None => run_first(items, done, pid, at),
    }
}

// The same for a process with a count.
fn run_from(items: &mut Vec<Item>, steps: &mut u64, pid: Pid, at: u64) -> Result<(), NoMemory>
    ensures items { OnOk result (items.new.items ≡ items.old.items ++ run_of pid (at - steps.old)) }
    ensures steps { OnOk result (steps.new ≡ max at steps.old) }
    ensures items_stay { OnErr result (items.new.items ≡ items.old.items) }
    ensures steps_stay { OnErr result (steps.new ≡ steps.old) }
{
    if at <= *steps {
        return Ok(());
    }
    push(items, Item::Run(pid, at - *steps))?;
    *steps = at;
    Ok(())
}

// The same for a process that has no count yet.
fn run_first(
    items: &mut Vec<Item>,
    done: &mut BTreeMap<u32, u64>,
    pid: Pid,
    at: u64,
) -> Result<(), NoMemory>
    ensures items { OnOk result (items.new.items ≡ items.old.items ++ run_to (steps_of done.old.entries) pid at) }
    ensures done { OnOk result (done.new.entries ≡ raised (Some (pid, at)) done.old.entries) }
    ensures items_stay { OnErr result (take (length items.old.items) items.new.items ≡ items.old.items) }
    ensures done_stay { OnErr result (done.new.entries ≡ done.old.entries) }
{
    push_run(items, done, pid, at)?;
    raise(done, pid, at)
}

// The same for the first record.
fn run_up_first(
    items: &mut Vec<Item>,
    done: &mut BTreeMap<u32, u64>,
    recs: &[BackRec],
) -> Result<(), NoMemory>
    ensures items { OnOk result (items.new.items ≡ items.old.items ++ run_to_record (steps_of done.old.entries) (first_record recs.now)) }
    ensures done { OnOk result (done.new.entries ≡ raised (option_map (λ r. (r.pid, steps_in r.state)) (first_record recs.now)) done.old.entries) }
    ensures items_stay { OnErr result (take (length items.old.items) items.new.items ≡ items.old.items) }
    ensures done_stay { OnErr result (done.new.entries ≡ done.old.entries) }
{
    match recs.first() {
        Some(backup) => run_up(items, done, backup.pid, steps_recorded(backup)),
        None => Ok(()),
    }
}

// Puts the last run of each process at the end. After want of memory some of them may be there.
fn push_rests(
    items: &mut Vec<Item>,
    done: &BTreeMap<u32, u64>,
    rests: &[(Pid, u64)],
) -> Result<(), NoMemory>
    ensures ok { OnOk result (items.new.items ≡ items.old.items ++ runs_to (steps_of done.now.entries) rests.now) }
    ensures err { OnErr result (take (length items.old.items) items.new.items ≡ items.old.items) }
{
    for (pid, at) in rests {
        push_run(items, done, *pid, *at)?;
    }
    Ok(())
}
