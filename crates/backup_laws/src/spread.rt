//! Scripts whose losses are covered in every schedule.
ghost use Rattle.std.specs.Prelude.{◌≡◌, true, List};
ghost use Rattle.t32_base.specs.declared.process.ClusterNo.{ClusterNo};
ghost use Rattle.sys_text.specs.declared.system.System.{System};
ghost use Rattle.sys_text.specs.Valid.{is_system};
ghost use Rattle.bus_msg.specs.declared.entry.Entry.{Entry};
ghost use Rattle.bus_msg.specs.Places.{is_covered};
ghost use Rattle.cert_sched.specs.declared.script.ScriptWord.{ScriptWord};
ghost use Rattle.cert_sched.specs.Schedule.{placement};
ghost use Rattle.cert_sched.specs.Scripted.{is_lost_by, is_spread};
ghost use Rattle.cert_sched.specs.Legal.{IsLegalBy, Stands};
ghost use Rattle.backup_laws.specs.LostBy.{AllLostBy};

/// A law and no code: where the words of a script that lose clusters name neither both clusters of a root nor both page servers, each
/// loss by them is covered, in any log whose losses are of these words: also behind other losses, returns and new backups.
pub fn spread_losses_are_covered()
    ensures { (system : System) (script : List ScriptWord) (log : List Entry) (k : ClusterNo) → is_system system ≡ true
        → is_spread system script ≡ true → IsLegalBy Stands system log → AllLostBy script log → is_lost_by script k ≡ true
        → is_covered (placement system log) k ≡ true }
{}
