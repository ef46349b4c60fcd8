//! A process that waits for its pages, and then rolls forward; or that has none to wait for and waits for its parent's fork.
ghost use Rattle.std.specs.Prelude.{◌≡◌, ◌+◌, ◌-◌, ◌^◌, ◌<◌, ◌≤◌, true, [], None, Some, is_some, length, replicate, slice_set, IfOk, IsNone, IsSome, OnOk, OnErr};
ghost use Rattle.backup_queue.specs.Queue.{saved_with};
ghost use Rattle.page_waits.specs.Waiting.{is_whole, next_page, page_count, rolling_of, with_page, CanGoOn};
ghost use Rattle.page_waits.specs.Kept.{dirty_in, missing, with_page_in};

use backup_queue::record::Record;
use roll_forward::rolling::Rolling;
use rv_mem::Ram;
use std::alloc::Global;
use std::marker::Model;
use t32_base::letter::Letter;
use t32_base::process::Pid;
use t32_base::streams::NoMemory;

/// A process that a crash moved and that waits for its pages: its record, with the letters that arrive meanwhile, and
/// the pages that have come. A page is asked for once, the lowest first; pages may come in any order. One without a
/// state in its record has no page: it waits until its parent makes the fork again from which it starts.
#[derive(Drop)]
pub struct Waiting {
    kept: Record,
    // A page lies in its place in it once it has come. A record without a state has none.
    ram: Option<Ram>,
    // Which pages have come, and how many have not.
    here: Vec<bool>,
    lacking: u16,
    // How many pages were asked for.
    asked: u16,
}

impl Model for Waiting {
    ghost use Rattle.page_waits.specs.Waiting.{WaitingState};
    ghost use Rattle.page_waits.specs.Kept.{bytes_in, pages_come, IsKept};

    ghost Value = { WaitingState };

    ghost view = { λ w. record { kept = w.kept; asked = w.asked; come = pages_come w.here.items (bytes_in w.ram) } };

    ghost invariant = { λ w. IsKept w.kept w.ram w.here.items w.lacking w.asked };
}

impl Waiting {
    /// The process of a record with a state of 1 to 256 pages: no page was asked for, and none has come. Memory for
    /// all pages is taken here. Where it is refused, the record is dropped.
    pub fn begin(alloc: Global, kept: Record) -> Result<Waiting, NoMemory>
        requires some { 1 ≤ page_count kept }
        requires at_most { page_count kept ≤ 256 }
        ensures { IfOk result (λ w. w ≡ record { kept = kept; asked = 0; come = replicate (page_count kept) None }) }
    {
        let pages = pages_of(&kept);
        let Ok(ram) = Ram::filled(alloc, pages, &[]) else {
            return Err(NoMemory);
        };
        let here = vec![in alloc; false; usize::from(pages)]?;
        Ok(Waiting {
            kept,
            ram: Some(ram),
            here,
            lacking: pages,
            asked: 0,
        })
    }

    /// The process of a record without a state: it has no page, and waits for its parent's fork. Takes no memory.
    pub fn for_fork(alloc: Global, kept: Record) -> Waiting
        requires { IsNone kept.state }
        ensures { result ≡ record { kept = kept; asked = 0; come = [] } }
    {
        Waiting {
            kept,
            ram: None,
            here: Vec::new(alloc),
            lacking: 0,
            asked: 0,
        }
    }

    /// The process. Takes no memory.
    pub fn pid(&self) -> Pid
        ensures { result ≡ self.now.kept.pid }
    {
        self.kept.pid()
    }

    /// Its record, with the letters that have arrived meanwhile. Takes no memory.
    pub fn kept(&self) -> &Record
        ensures { result.now ≡ self.now.kept }
    {
        &self.kept
    }

    /// How many pages it has: 1 to 256, or none where its record has no state. Takes no memory.
    pub fn pages(&self) -> u16
        ensures pages { result ≡ length self.now.come }
        ensures state { result ≡ page_count self.now.kept }
        ensures some { is_some self.now.kept.state ≡ true → 1 ≤ result }
        ensures at_most { result ≤ 256 }
        ensures asked { self.now.asked ≤ result }
    {
        self.here.len() as u16
    }

    /// The lowest page that was not asked for; none where all were. Takes no memory.
    pub fn lacks(&self) -> Option<u16>
        ensures { result ≡ next_page self.now }
    {
        if usize::from(self.asked) < self.here.len() {
            Some(self.asked)
        } else {
            None
        }
    }

    /// The lowest page that was not asked for, which is asked for now. Takes no memory.
    pub fn ask(&mut self) -> u16
        requires { IsSome (next_page self.old) }
        ensures page { next_page self.old ≡ Some result }
        ensures asked { self.new ≡ record self.old { asked = self.old.asked + 1 } }
    {
        let page = self.asked;
        self.asked += 1;
        page
    }

    /// A letter arrives: the record saves it, with the number `next`, which is then one more. After want of memory
    /// nothing has changed, and the letter is dropped.
    pub fn deliver(&mut self, letter: Letter) -> Result<(), NoMemory>
        requires { self.old.kept.next < 2 ^ 64 - 1 }
        ensures ok { OnOk result (self.new ≡ record self.old {
          kept = record self.old.kept {
            saved = saved_with self.old.kept.saved letter self.old.kept.next;
            next = self.old.kept.next + 1;
          };
        }) }
        ensures err { OnErr result (self.new ≡ self.old) }
    {
        self.kept.save(letter)
    }

    /// A page has come, by its index from 0. It takes the place of one of the same index that came before. Takes no
    /// memory.
    pub fn come(&mut self, index: u16, page: &[u8; 256])
        requires { index < length self.old.come }
        ensures { self.new ≡ with_page index page.now self.old }
    {
        put(&mut self.ram, index, page);
        mark(&mut self.here, &mut self.lacking, usize::from(index));
    }

    /// Whether every page has come. Takes no memory.
    pub fn is_whole(&self) -> bool
        ensures { result ≡ is_whole self.now }
    {
        self.lacking == 0
    }

    /// The process, whose pages have all come, rolls forward: from the state of its record and the memory that its
    /// pages make, with the saved letters in its mailbox. No page is marked, none of the letters was read, and its
    /// steps count from there. Takes no memory.
    pub fn into_rolling(self, alloc: Global) -> Rolling
        requires whole { is_whole self ≡ true }
        requires rolls { CanGoOn self }
        ensures { rolling_of self ≡ Some result }
    {
        let Waiting { kept, ram, .. } = self;
        let Some(ram) = ram else { unreachable!() };
        Rolling::start(alloc, kept, ram)
    }

    /// Its record, with the letters that have arrived meanwhile, for who starts it where its parent makes its fork again.
    /// The pages that have come are dropped. Takes no memory.
    pub fn into_record(self) -> Record
        ensures { result ≡ self.kept }
    {
        let Waiting { kept, .. } = self;
        kept
    }
}

// The pages of the process of a record.
fn pages_of(kept: &Record) -> u16
    ensures { result ≡ page_count kept.now }
{
    match kept.state() {
        Some(small) => small.pages,
        None => 0,
    }
}

// Puts a page in its place in the memory, if there is one.
fn put(ram: &mut Option<Ram>, index: u16, page: &[u8; 256])
    requires { index < length (dirty_in ram.old) }
    ensures { ram.new ≡ with_page_in index page.now ram.old }
{
    if let Some(ram) = ram {
        ram.set_page(index, page);
    }
}

// A page has come: it is marked, and where it had not come before one lacks no more.
fn mark(here: &mut Vec<bool>, lacking: &mut u16, page: usize)
    requires within { page < length here.old.items }
    requires lacking { lacking.old ≡ missing here.old.items }
    ensures here { here.new.items ≡ slice_set here.old.items page true }
    ensures lacking { lacking.new ≡ missing here.new.items }
{
    if !here[page] {
        here[page] = true;
        *lacking -= 1;
    }
}
