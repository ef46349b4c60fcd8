//! What a cluster is to send next.
ghost use Rattle.std.specs.Prelude.{◌≡◌, true, List, Some};
ghost use Rattle.sys_text.specs.Valid.{is_system};
ghost use Rattle.bus_msg.specs.declared.entry.Entry.{Entry};
ghost use Rattle.bus_msg.specs.declared.entry.Post.{Post};
ghost use Rattle.cert_sched.specs.Appended.{entry_of};
ghost use Rattle.cert_sched.specs.Legal.{MayFollow, MayStand};
ghost use Rattle.cluster_core.specs.Follows.{Follows, IsOpen};
ghost use Rattle.cluster_core.specs.View.{ClusterView, head_of};

/// A law and no code: what a cluster that follows a log is to send next may follow in it, by every rule: a fullback that a loss moved
/// sends nothing before its new backup stands, unless no cluster but its home lived at some place since.
pub fn heads_may_follow()
    ensures { (c : ClusterView) (log : List Entry) (post : Post) → is_system c.system ≡ true → IsOpen MayStand c.system log
        → Follows c.system log c → head_of c.queue ≡ Some post → MayFollow c.system log (entry_of c.system log post) }
{}
