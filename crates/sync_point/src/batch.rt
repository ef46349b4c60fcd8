//! The posts by which a process synchronises.
ghost use Rattle.std.specs.Prelude.{◌≡◌, ◌<◌, length, IfOk, OnOk, OnErr};
ghost use Rattle.sync_point.specs.Batch.{batch, cut_of, page_post, page_posts, synced, took_by};

use bus_msg::entry::{By, Post, What};
use bus_msg::shared::Shared;
use proc_state::process::Process;
use std::alloc::Global;
use sys_calls::signals::{can_take, state_after_take, take_signal};
use t32_base::lists::List;
use t32_base::process::{ClusterNo, Small};
use t32_base::streams::NoMemory;

/// The posts by which a process of the cluster `by` synchronises, in the order in which they are sent: each page
/// that changed since the last time, by rising index, and then its state with the numbers of the letters that it
/// read. The first signal that waits is taken before that, if it can take one, and named. The process is synchronised
/// by it. Its marks are looked at once, and the bytes of the marked pages alone are copied. All memory is taken first:
/// where it is refused, the process is as it was.
pub fn build(alloc: Global, process: &mut Process, by: ClusterNo) -> Result<List<Post>, NoMemory>
    ensures posts { IfOk result (λ posts. posts ≡ batch process.old by) }
    ensures synced { OnOk result (process.new ≡ synced process.old) }
    ensures err { OnErr result (process.new ≡ process.old) }
{
    let mut posts = page_posts(alloc, process, by)?;
    posts.reserve(1)?;
    let small = Shared::new(alloc, cut_state(process))?;
    let pid = process.small.pid;
    let took = take_first(process)?;
    let read = std::mem::replace(&mut process.read, List::new(alloc));
    process.synced();
    posts.push_reserved(Post {
        by: By::Cluster(by),
        what: What::Sync {
            pid,
            small,
            read,
            took,
        },
    });
    Ok(List::from_vec(posts))
}

// The state of a process after it took its first signal, if it can take one.
fn cut_state(process: &Process) -> Small
    ensures { result ≡ (cut_of process.now).small }
{
    if can_take(process) {
        state_after_take(process)
    } else {
        process.small.copy()
    }
}

// A process takes its first signal, if it can take one.
fn take_first(process: &mut Process) -> Result<Option<u8>, NoMemory>
    ensures signal { IfOk result (λ took. took ≡ took_by process.old) }
    ensures cut { OnOk result (process.new ≡ cut_of process.old) }
    ensures err { OnErr result (process.new ≡ process.old) }
{
    if !can_take(process) {
        return Ok(None);
    }
    Ok(Some(take_signal(process)?))
}

/// A post for each page that changed since the last time, by rising index.
#[tactic(auto, using(crate::proofs::Marked::one_passes, crate::proofs::Marked::none_passes))]
pub fn page_posts(alloc: Global, process: &Process, by: ClusterNo) -> Result<Vec<Post>, NoMemory>
    ensures { IfOk result (λ posts. posts.items ≡ page_posts process.now by) }
{
    let mut posts = Vec::new(alloc);
    for index in 0..process.ram.pages() {
        if process.ram.is_dirty(index) {
            posts.push(page_post(alloc, process, by, index)?)?;
        }
    }
    Ok(posts)
}

// The post of a page as it is.
fn page_post(alloc: Global, process: &Process, by: ClusterNo, index: u16) -> Result<Post, NoMemory>
    requires { index < length process.now.ram.dirty }
    ensures { IfOk result (λ post. post ≡ page_post process.now by index) }
{
    Ok(Post {
        by: By::Cluster(by),
        what: What::Page {
            pid: process.small.pid,
            at: process.small.steps,
            index,
            bytes: Shared::new(alloc, process.ram.page(index))?,
        },
    })
}
