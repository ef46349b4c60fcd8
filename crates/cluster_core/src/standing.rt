//! The next post of a cluster by which a process that waits for its new backup gets it.
ghost use Rattle.std.specs.Prelude.{◌≡◌, true, false, List, Some};
ghost use Rattle.sys_text.specs.Valid.{is_system};
ghost use Rattle.bus_msg.specs.declared.entry.Entry.{Entry};
ghost use Rattle.bus_msg.specs.declared.entry.Post.{Post};
ghost use Rattle.cert_sched.specs.Appended.{entry_of};
ghost use Rattle.cert_sched.specs.Legal.{MayStand};
ghost use Rattle.cert_sched.specs.Legal.{IsLegal, IsLegalBy, MayFollow, Stands};
ghost use Rattle.cert_sched.specs.Rules.{is_over};
ghost use Rattle.standing_backups.specs.Standing.{CanBeNext, IsNextStanding};
ghost use Rattle.cluster_core.specs.Follows.{Follows, IsOpen};
ghost use Rattle.cluster_core.specs.Parts.{AllOwn};
ghost use Rattle.cluster_core.specs.Sent.{SentMayStand};
ghost use Rattle.cluster_core.specs.View.{ClusterView};

/// A law and no code: the next standing post of a cluster.
pub fn standing_posts_follow()
    // There can be one: where some wait one has a state, it is to get a backup, and its family waits beside it;
    ensures can { (c : ClusterView) (log : List Entry) → is_system c.system ≡ true → IsLegalBy Stands c.system log → Follows c.system log c
        → AllOwn c.cursor c.here → CanBeNext c.places c.family c.here c.owed }
    // it may follow by all rules but that of new backups,
    ensures may { (c : ClusterView) (log : List Entry) → is_system c.system ≡ true → IsOpen MayStand c.system log → Follows c.system log c
        → (post : Post) → IsNextStanding c.number c.places c.family c.here c.owed (Some post)
        → SentMayStand c.system log (entry_of c.system log post) }
    // and in a legal log.
    ensures follows { (c : ClusterView) (log : List Entry) → is_system c.system ≡ true → IsLegal c.system log → is_over c.system log ≡ false
        → Follows c.system log c → (post : Post) → IsNextStanding c.number c.places c.family c.here c.owed (Some post)
        → MayFollow c.system log (entry_of c.system log post) }
{}
