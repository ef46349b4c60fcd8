//! Copies of posts and entries.
ghost use Rattle.std.specs.Prelude.{◌≡◌, IfOk};

use crate::entry::{Entry, Post, What};
use crate::shared::Shared;
use std::alloc::Global;
use t32_base::letter::{BackRec, Letter};
use t32_base::lists::List;
use t32_base::process::{ClusterNo, Pid, Small};
use t32_base::streams::NoMemory;

impl What {
    fn copy(&self) -> Result<Self, NoMemory>
        ensures { IfOk result (λ c. c ≡ self.now) }
    {
        match self {
            What::Mail { at, letter } => copied_mail(*at, letter),
            What::Birth {
                parent,
                at,
                child,
                end,
            } => Ok(What::Birth {
                parent: *parent,
                at: *at,
                child: *child,
                end: *end,
            }),
            What::Exit { pid, at, end } => Ok(What::Exit {
                pid: *pid,
                at: *at,
                end: *end,
            }),
            What::Page {
                pid,
                at,
                index,
                bytes,
            } => copied_page(*pid, *at, *index, bytes),
            What::Sync {
                pid,
                small,
                read,
                took,
            } => copied_sync(*pid, small, read, *took),
            What::Fetch { pid, index } => Ok(What::Fetch {
                pid: *pid,
                index: *index,
            }),
            What::PageIs { pid, index, bytes } => copied_answer(*pid, *index, bytes),
            What::Crash { k, cause } => Ok(What::Crash {
                k: *k,
                cause: *cause,
            }),
            What::Return { k } => Ok(What::Return { k: *k }),
            What::Rebackup { to, fresh, recs } => copied_rebackup(*to, *fresh, recs),
            What::Done { rests } => copied_done(rests),
            What::Stop => Ok(What::Stop),
        }
    }
}

// ---- what an entry says, where its copy may want memory

fn copied_mail(at: u64, letter: &Letter) -> Result<What, NoMemory>
    ensures { IfOk result (λ c. c ≡ What.Mail at letter.now) }
{
    Ok(What::Mail {
        at,
        letter: letter.copy()?,
    })
}

fn copied_page(pid: Pid, at: u64, index: u16, bytes: &Shared<[u8; 256]>) -> Result<What, NoMemory>
    ensures { IfOk result (λ c. c ≡ What.Page pid at index bytes.now) }
{
    Ok(What::Page {
        pid,
        at,
        index,
        bytes: bytes.copy()?,
    })
}

fn copied_sync(
    pid: Pid,
    small: &Shared<Small>,
    read: &List<u64>,
    took: Option<u8>,
) -> Result<What, NoMemory>
    ensures { IfOk result (λ c. c ≡ What.Sync pid small.now read.now took) }
{
    Ok(What::Sync {
        pid,
        small: small.copy()?,
        read: copied_numbers(read)?,
        took,
    })
}

fn copied_answer(pid: Pid, index: u16, bytes: &Shared<[u8; 256]>) -> Result<What, NoMemory>
    ensures { IfOk result (λ c. c ≡ What.PageIs pid index bytes.now) }
{
    Ok(What::PageIs {
        pid,
        index,
        bytes: bytes.copy()?,
    })
}

fn copied_rebackup(
    to: ClusterNo,
    fresh: bool,
    recs: &Shared<List<BackRec>>,
) -> Result<What, NoMemory>
    ensures { IfOk result (λ c. c ≡ What.Rebackup to fresh recs.now) }
{
    Ok(What::Rebackup {
        to,
        fresh,
        recs: recs.copy()?,
    })
}

fn copied_done(rests: &List<(Pid, u64)>) -> Result<What, NoMemory>
    ensures { IfOk result (λ c. c ≡ What.Done rests.now) }
{
    Ok(What::Done {
        rests: copied_rests(rests.allocator(), rests.as_slice())?,
    })
}

impl Post {
    /// An equal post, over the allocators of this one's lists.
    pub fn copy(&self) -> Result<Self, NoMemory>
        ensures { IfOk result (λ c. c ≡ self.now) }
    {
        Ok(Post {
            by: self.by,
            what: self.what.copy()?,
        })
    }
}

impl Entry {
    /// An equal entry, over the allocators of this one's lists.
    pub fn copy(&self) -> Result<Self, NoMemory>
        ensures { IfOk result (λ c. c ≡ self.now) }
    {
        Ok(Entry {
            place: self.place,
            post: self.post.copy()?,
            dests: self.dests,
        })
    }
}

fn copied_numbers(numbers: &List<u64>) -> Result<List<u64>, NoMemory>
    ensures { IfOk result (λ c. c ≡ numbers.now) }
{
    Ok(List::from_vec(numbers.as_slice().to_vec(numbers.allocator())?))
}

fn copied_rests(alloc: Global, rests: &[(Pid, u64)]) -> Result<List<(Pid, u64)>, NoMemory>
    ensures { IfOk result (λ c. c ≡ rests.now) }
{
    Ok(List::from_vec(rests.to_vec(alloc)?))
}
