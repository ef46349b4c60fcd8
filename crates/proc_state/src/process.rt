//! A process as a kernel runs it.
ghost use Rattle.std.specs.Prelude.{◌≡◌, ◌*◌, ◌≤◌, ◌+◌, ◌-◌, ◌^◌, ◌<◌, length, slice_set, position, count_by, IfOk, OnOk, OnErr, [], replicate, false, Some};

use crate::mailbox::Mailbox;
use rv_mem::{BASE, Ram};
use std::alloc::Global;
use t32_base::letter::Letter;
use t32_base::lists::List;
use t32_base::process::{EndState, Pid, Regs, Small, Status};
use t32_base::streams::NoMemory;

/// A process: its state, its memory, its mailbox, the arrival numbers of the letters read since its last
/// synchronisation, and its count of steps then.
#[derive(Drop)]
pub struct Process {
    pub small: Small,
    pub ram: Ram,
    pub mail: Mailbox,
    pub read: List<u64>,
    pub since: u64,
}

impl Process {
    ghost use Rattle.t32_base.specs.Small.{steps_left};
    ghost use Rattle.proc_state.specs.Ends.{free_end};
    ghost use Rattle.proc_state.specs.State.{state_of, root_state, started, delivered, linked_to, IsFresh, SameRest};

    /// A root at its start. Its first instruction is the one at the address `entry`. Its memory has `pages` pages of
    /// 256 bytes and begins with the image, which fits it; the rest is zero, and no page is dirty. It may execute `limit`
    /// instructions and fork `births` times, and its end 0 is the terminal `tty`.
    pub fn root(
        alloc: Global,
        pid: Pid,
        entry: u32,
        pages: u16,
        image: &[u8],
        limit: u32,
        births: u8,
        tty: u8,
    ) -> Result<Process, NoMemory>
        requires low { 1 ≤ pages }
        requires high { pages ≤ 256 }
        requires fits { length image.now ≤ 256 * pages }
        ensures state { IfOk result (λ p. state_of p ≡ root_state pid entry pages image.now limit births tty) }
        ensures fresh { IfOk result IsFresh }
    {
        Process::starting(
            alloc,
            first_small(pid, entry, pages, limit, births, tty),
            image,
        )
    }

    /// A process at its start, in a state that has made no step. Its memory has the pages of that state and begins with
    /// the image, which fits it; the rest is zero, and no page is dirty.
    pub fn starting(alloc: Global, small: Small, image: &[u8]) -> Result<Process, NoMemory>
        requires low { 1 ≤ small.pages }
        requires high { small.pages ≤ 256 }
        requires fits { length image.now ≤ 256 * small.pages }
        requires steps { small.steps ≡ 0 }
        ensures state { IfOk result (λ p. state_of p ≡ started small image.now) }
        ensures fresh { IfOk result IsFresh }
    {
        let ram = match Ram::filled(alloc, small.pages, image) {
            Ok(ram) => ram,
            Err(_) => return Err(NoMemory),
        };
        Ok(Process {
            small,
            ram,
            mail: Mailbox::new(alloc),
            read: List::new(alloc),
            since: 0,
        })
    }

    /// A letter arrives: it is put last in the mailbox, with the number `next`, which is then one more.
    /// After want of memory the process is as it was, and the letter is dropped.
    pub fn deliver(&mut self, letter: Letter) -> Result<(), NoMemory>
        requires { self.old.mail.next < 2 ^ 64 - 1 }
        ensures ok { OnOk result (state_of self.new ≡ delivered (state_of self.old) letter) }
        ensures rest { SameRest self.old self.new }
        ensures err { OnErr result (self.new ≡ self.old) }
    {
        self.mail.receive(letter)
    }

    /// The lowest end that was never linked, if there is one.
    pub fn free_end(&self) -> Option<u8>
        ensures { result ≡ free_end self.now.small.ends }
    {
        free_end(&self.small)
    }

    /// Links the lowest end that was never linked to the end `far` of a peer, and answers its number. Where
    /// there is none, nothing is linked.
    pub fn link(&mut self, peer: Pid, far: u8) -> Option<u8>
        ensures number { result ≡ free_end self.old.small.ends }
        ensures linked { state_of self.new ≡ linked_to (state_of self.old) peer far }
        ensures rest { SameRest self.old self.new }
        ensures load { steps_left self.new.small.left self.new.small.ends self.new.small.status ≡ steps_left self.old.small.left self.old.small.ends self.old.small.status }
    {
        link_lowest(&mut self.small, peer, far)
    }

    /// The process is synchronised: no letter was read and no page changed since, and its count of steps
    /// then is the one now.
    pub fn synced(&mut self)
        ensures { self.new ≡ record self.old {
          ram = record (self.old.ram) { dirty = replicate (length self.old.ram.dirty) false };
          read = [];
          since = self.old.small.steps;
        } }
    {
        self.read = List::new(self.read.allocator());
        self.ram.clear_dirty();
        self.since = self.small.steps;
    }
}

ghost use Rattle.proc_state.specs.State.{root_small};

/// The state of a root at its start. Its first instruction is the one at the address `entry`. It may execute `limit`
/// instructions and fork `births` times, and its end 0 is the terminal `tty`. Takes no memory.
pub fn first_small(pid: Pid, entry: u32, pages: u16, limit: u32, births: u8, tty: u8) -> Small
    requires { pages ≤ 256 }
    ensures { result ≡ root_small pid entry pages limit births tty }
{
    let mut x = [0u32; 32];
    x[2] = BASE + 256 * u32::from(pages);
    let mut ends = [EndState::Never; 32];
    ends[0] = EndState::Tty(tty);
    Small {
        pid,
        regs: Regs { x, pc: entry },
        ends,
        handler: 0,
        frame: None,
        left: limit,
        steps: 0,
        births,
        status: Status::Live,
        pages,
    }
}

ghost use Rattle.t32_base.specs.Small.{is_unshut, steps_left};
ghost use Rattle.proc_state.specs.Ends.{ends_linked_to, free_end as free_end_in, is_never};

/// The lowest end that was never linked, if there is one. Takes no memory.
pub fn free_end(small: &Small) -> Option<u8>
    ensures { result ≡ free_end_in small.now.ends }
{
    lowest_never(&small.ends)
}

// The lowest of these ends that was never linked, if there is one.
fn lowest_never(ends: &[EndState; 32]) -> Option<u8>
    ensures { result ≡ free_end_in ends.now }
{
    let number = never_linked(ends)?;
    Some(number as u8)
}

// The first end that was never linked.
fn never_linked(ends: &[EndState; 32]) -> Option<usize>
    ensures { result ≡ position is_never ends.now }
{
    ends.iter().position(|end| matches!(end, EndState::Never))
}

/// Links the lowest end that was never linked to the end `far` of a peer, and answers its number; that leaves as many
/// steps. Where there is none, nothing is linked. Takes no memory.
pub fn link_lowest(small: &mut Small, peer: Pid, far: u8) -> Option<u8>
    ensures number { result ≡ free_end_in small.old.ends }
    ensures linked { small.new ≡ record small.old { ends = ends_linked_to small.old.ends peer far } }
    ensures load { steps_left small.new.left small.new.ends small.new.status ≡ steps_left small.old.left small.old.ends small.old.status }
{
    let number = free_end(small)?;
    link_at(&mut small.ends, number, peer, far);
    Some(number)
}

// Links the lowest end that was never linked, which has this number.
fn link_at(ends: &mut [EndState; 32], number: u8, peer: Pid, far: u8)
    requires { free_end_in ends.old ≡ Some number }
    ensures linked { ends.new ≡ ends_linked_to ends.old peer far }
    ensures unshut { count_by is_unshut ends.new ≡ count_by is_unshut ends.old }
{
    ends[usize::from(number)] = EndState::Linked {
        peer,
        far,
        finished: false,
    };
}
