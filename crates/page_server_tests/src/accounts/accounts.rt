//! A page server beside a log: its boot, and what entries make of its accounts. The system has one process, 16, with
//! one page, whose first byte is that of the first word of its image.
ghost use Rattle.std.specs.Prelude.{◌≡◌, IsTrue, IfSome, true, []};
ghost use Rattle.sys_text.specs.Valid.{is_system};
ghost use Rattle.page_accounts.specs.Answering.{IsKept, earliest};

use bus_msg::entry::{By, Cause, Dests, Entry, Post, What};
use bus_msg::shared::Shared;
use cert_sched::start::placement_at_boot;
use channel_table::placement::Placement;
use page_accounts::answering::next_answer;
use page_accounts::booting::put_roots;
use page_accounts::noting::note;
use page_server::disk::PageDisk;
use page_server::mem_disk::MemDisk;
use page_server::pager::Pager;
use plain_kernel::booting::starts_of;
use std::alloc::Global;
use std::test::Fail;
use sys_text::read_system;
use sys_text::system::System;
use t32_base::lists::List;
use t32_base::process::{ClusterNo, End, EndState, Pid, Regs, Small, Status};
use t32_base::streams::NoMemory;
use test_asserts::same;
use test_systems::HI;

const ROOT: Pid = Pid(16);

// The first byte of the page of the root at boot.
const FIRST_BYTE: u8 = 0x93;

// A page server that has booted, and the placement of its system.
#[derive(Drop)]
struct Server {
    pager: Pager<MemDisk>,
    places: Placement,
}

// Each function owns one value that it has to drop, or two: the proof pays for each on every way out.
fn pager_at_boot(alloc: Global, system: &System) -> Result<Pager<MemDisk>, Fail>
    requires { is_system system.now ≡ true }
{
    let mut pager = Pager::new(alloc, MemDisk::new(alloc, List::new(alloc)));
    put_starts(alloc, system, &mut pager)?;
    Ok(pager)
}

fn put_starts(alloc: Global, system: &System, pager: &mut Pager<MemDisk>) -> Result<(), Fail>
    requires system { is_system system.now ≡ true }
    requires accounts { pager.old.accounts ≡ [] }
    requires fetches { pager.old.fetches ≡ [] }
{
    let starts = starts_of(alloc, system)?;
    Ok(put_roots(pager, &starts)?)
}

fn server_of(alloc: Global, system: &System) -> Result<Server, Fail>
    requires { is_system system.now ≡ true }
{
    let places = placement_at_boot(alloc, system)?;
    let pager = pager_at_boot(alloc, system)?;
    Ok(Server { pager, places })
}

fn server_at_boot(alloc: Global) -> Result<Server, Fail> {
    let system = read_system(alloc, HI.as_bytes())?;
    server_of(alloc, &system)
}

impl Server {
    fn note(&mut self, what: What) -> Result<(), Fail> {
        let entry = Entry {
            place: 0,
            post: Post { by: By::Bus, what },
            dests: Dests {
                clusters: 0,
                tty: None,
            },
        };
        note(&mut self.pager, &self.places, &entry)?;
        Ok(())
    }

    // The first byte of the answer that is owed, if one is.
    fn owed(&mut self) -> Result<Option<u8>, Fail> {
        if !can_answer(&self.pager) {
            return Err("the page that is asked for is not there".into());
        }
        match next_answer(&mut self.pager)? {
            Some(answer) => Ok(Some(answer.bytes[0])),
            None => Ok(None),
        }
    }
}

fn can_answer<D: PageDisk>(pager: &Pager<D>) -> bool
    ensures { IsTrue result → IfSome (earliest pager.now) (IsKept pager.now) }
{
    match pager.waiting() {
        Some((pid, index)) => pager.has_committed(pid, index),
        None => true,
    }
}

// A page of the root that is filled with one byte.
fn page(alloc: Global, byte: u8) -> Result<What, NoMemory> {
    Ok(What::Page {
        pid: ROOT,
        at: 0,
        index: 0,
        bytes: Shared::new(alloc, [byte; 256])?,
    })
}

fn sync(alloc: Global) -> Result<What, NoMemory> {
    let small = Small {
        pid: ROOT,
        regs: Regs::new(0x10000),
        ends: [EndState::Shut; 32],
        handler: 0,
        frame: None,
        left: 1000,
        steps: 0,
        births: 0,
        status: Status::Live,
        pages: 1,
    };
    Ok(What::Sync {
        pid: ROOT,
        small: Shared::new(alloc, small)?,
        read: List::new(alloc),
        took: None,
    })
}

fn page_is(alloc: Global) -> Result<What, NoMemory> {
    Ok(What::PageIs {
        pid: ROOT,
        index: 0,
        bytes: Shared::new(alloc, [0; 256])?,
    })
}

const FETCH: What = What::Fetch {
    pid: ROOT,
    index: 0,
};

const CRASH: What = What::Crash {
    k: ClusterNo(0),
    cause: Cause::Place,
};

const EXIT: What = What::Exit {
    pid: ROOT,
    at: 1,
    end: End::Exit(0),
};

// What an entry says: that the page is asked for, or put with this byte, or that it came; a cut, a crash or the exit.
enum Event {
    Fetch,
    Page(u8),
    PageIs,
    Sync,
    Crash,
    Exit,
}

fn what_of(alloc: Global, event: &Event) -> Result<What, NoMemory> {
    match event {
        Event::Fetch => Ok(FETCH),
        Event::Page(byte) => page(alloc, *byte),
        Event::PageIs => page_is(alloc),
        Event::Sync => sync(alloc),
        Event::Crash => Ok(CRASH),
        Event::Exit => Ok(EXIT),
    }
}

// An event that is noted, or what the server shows: the first byte of the answer that is owed, the calls of the disk, and whether
// the root has a page.
enum Deed {
    Note(Event),
    Owes(Option<u8>),
    Calls(u64),
    Keeps(bool),
}

// What is done with a server is done by functions that borrow it: who owns it pays for its drop on each way out.

fn note_event(alloc: Global, server: &mut Server, event: &Event) -> Result<(), Fail> {
    let what = what_of(alloc, event)?;
    server.note(what)
}

fn make(alloc: Global, server: &mut Server, deed: &Deed) -> Result<(), Fail> {
    match deed {
        Deed::Note(event) => note_event(alloc, server, event),
        Deed::Owes(byte) => same("what is owed", &server.owed()?, byte),
        Deed::Calls(calls) => same("calls", &server.pager.disk_calls(), calls),
        Deed::Keeps(keeps) => same("its page", &server.pager.has_committed(ROOT, 0), keeps),
    }
}

fn make_all(alloc: Global, server: &mut Server, deeds: &[Deed]) -> Result<(), Fail> {
    for deed in deeds {
        make(alloc, server, deed)?;
    }
    Ok(())
}

fn assert_deeds(alloc: Global, deeds: &[Deed]) -> Result<(), Fail> {
    let mut server = server_at_boot(alloc)?;
    make_all(alloc, &mut server, deeds)
}

// Two puts and three answers.
static CUT: [Deed; 8] = [
    Deed::Owes(None),
    Deed::Note(Event::Fetch),
    Deed::Owes(Some(FIRST_BYTE)),
    Deed::Note(Event::Page(7)),
    Deed::Owes(Some(FIRST_BYTE)),
    Deed::Note(Event::Sync),
    Deed::Owes(Some(7)),
    Deed::Calls(5),
];

#[test]
fn a_fetch_is_answered_with_the_page_of_the_last_cut(rt: HostRuntime) -> Result<(), Fail> {
    assert_deeds(rt.alloc(), &CUT)
}

// What was put is gone after the crash.
static LOST: [Deed; 7] = [
    Deed::Note(Event::Fetch),
    Deed::Note(Event::Page(7)),
    Deed::Note(Event::Crash),
    Deed::Owes(None),
    Deed::Note(Event::Sync),
    Deed::Note(Event::Fetch),
    Deed::Owes(Some(FIRST_BYTE)),
];

#[test]
fn a_crash_ends_the_wait_and_goes_back_to_the_last_cut(rt: HostRuntime) -> Result<(), Fail> {
    assert_deeds(rt.alloc(), &LOST)
}

static ENDED: [Deed; 7] = [
    Deed::Note(Event::Fetch),
    Deed::Note(Event::PageIs),
    Deed::Owes(None),
    Deed::Note(Event::Fetch),
    Deed::Note(Event::Exit),
    Deed::Owes(None),
    Deed::Keeps(false),
];

#[test]
fn a_page_that_came_and_an_exit_end_the_wait(rt: HostRuntime) -> Result<(), Fail> {
    assert_deeds(rt.alloc(), &ENDED)
}
