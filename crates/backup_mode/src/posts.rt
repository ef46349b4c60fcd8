//! The posts by which a process gets its new backup.
ghost use Rattle.std.specs.Prelude.{◌≡◌, IfOk, OnOk, OnErr};
ghost use Rattle.proc_state.specs.State.{state_of};
ghost use Rattle.backup_mode.specs.Posts.{renewed_record, standing_post};
ghost use Rattle.backup_mode.specs.Renewal.{cleared, renewal, AreInOrder};

use bus_msg::entry::{By, Post, What};
use bus_msg::shared::Shared;
use proc_state::process::Process;
use std::alloc::Global;
use sync_point::batch::page_posts;
use t32_base::letter::BackRec;
use t32_base::lists::List;
use t32_base::process::{ClusterNo, Counts};
use t32_base::streams::NoMemory;

/// The posts by which a process that has run gets its backup in the cluster `to`, in the order in which the cluster
/// `by` sends them: each page that changed since its last synchronisation, by rising index, and then its record as it
/// is, with the letters that it has not read. Its marks are cleared, and nothing else of it changes: it has synchronised
/// once the last post was sent. All memory is taken first: where it is refused, the process is as it was.
pub fn fresh(
    alloc: Global,
    process: &mut Process,
    to: ClusterNo,
    by: ClusterNo,
) -> Result<List<Post>, NoMemory>
    ensures posts { IfOk result (λ posts. posts ≡ renewal process.old to by) }
    ensures cleared { OnOk result (process.new ≡ cleared process.old) }
    ensures err { OnErr result (process.new ≡ process.old) }
{
    let mut posts = page_posts(alloc, process, by)?;
    let mut recs = List::new(alloc);
    recs.push(record_as_it_is(alloc, process)?)?;
    posts.push(Post {
        by: By::Cluster(by),
        what: What::Rebackup {
            to,
            fresh: true,
            recs: Shared::new(alloc, recs)?,
        },
    })?;
    process.ram.clear_dirty();
    Ok(List::from_vec(posts))
}

// The record of a process that runs, which has done nothing since. The letters' texts are shared.
fn record_as_it_is(alloc: Global, process: &Process) -> Result<BackRec, NoMemory>
    ensures { IfOk result (λ rec. rec ≡ renewed_record process.now.small.pid (state_of process.now)) }
{
    Ok(BackRec {
        pid: process.small.pid,
        state: Some(process.small.copy()),
        saved: process.mail.listed(alloc)?,
        next: process.mail.next(),
        counts: Counts {
            ends: [0; 32],
            signals: 0,
        },
        births: List::new(alloc),
    })
}

/// The post by which a process that was moved and has not run, with its family that never synchronised, gets its
/// backup in the cluster `to`, as the cluster `by` sends it: their records as they are, that of the process first and
/// the others by rising pid. Takes no memory.
pub fn standing(recs: Shared<List<BackRec>>, to: ClusterNo, by: ClusterNo) -> Post
    requires { AreInOrder recs }
    ensures { result ≡ standing_post by to recs }
{
    Post {
        by: By::Cluster(by),
        what: What::Rebackup {
            to,
            fresh: false,
            recs,
        },
    }
}
