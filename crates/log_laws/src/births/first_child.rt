//! What a log says of the child that is to be synchronised first, and of any child that never synchronised.
ghost use Rattle.std.specs.Prelude.{◌≡◌, ◌↔◌, true, false, ◌&&◌, List, None, Some, is_some};
ghost use Rattle.std.specs.List.{list_any};
ghost use Rattle.t32_base.specs.declared.process.Pid.{Pid};
ghost use Rattle.sys_text.specs.declared.system.System.{System};
ghost use Rattle.sys_text.specs.Valid.{is_system};
ghost use Rattle.bus_msg.specs.declared.entry.Entry.{Entry};
ghost use Rattle.bus_msg.specs.Places.{same_pid, unended_at};
ghost use Rattle.birth_notice.specs.Family.{first_unsynced};
ghost use Rattle.cert_sched.specs.Schedule.{placement};
ghost use Rattle.cert_sched.specs.Record.{has_state};
ghost use Rattle.cert_sched.specs.Family.{is_unsynced, births_of};
ghost use Rattle.cert_sched.specs.Rules.{home_at};
ghost use Rattle.cert_sched.specs.Kinds.{ChildrenSynced};
ghost use Rattle.cert_sched.specs.Legal.{IsLegalBy, Stands};
ghost use Rattle.log_laws.specs.births.Unsynced.{unsynced_births};

/// A law and no code: the child that is to be synchronised first, before a process.
pub fn first_children_are_unsynced()
    // In any log it is the child in one of the births whose children never synchronised;
    ensures kept { (system : System) (log : List Entry) (p child : Pid) → first_unsynced (unsynced_births system log) p ≡ Some child → list_any (λ b. same_pid b.1 child) (unsynced_births system log) ≡ true }
    // so it was born in the log,
    ensures born { (system : System) (log : List Entry) (p child : Pid) → first_unsynced (unsynced_births system log) p ≡ Some child → list_any (λ b. same_pid b.1 child) (births_of log) ≡ true }
    // and has not ended and never synchronised.
    ensures unsynced { (system : System) (log : List Entry) (p child : Pid) → first_unsynced (unsynced_births system log) p ≡ Some child → is_unsynced (placement system log) child ≡ true }
    // Where each entry stands, each of its own children has ended or synchronised.
    ensures synced { (system : System) (log : List Entry) (p child : Pid) → is_system system ≡ true → IsLegalBy Stands system log → first_unsynced (unsynced_births system log) p ≡ Some child → ChildrenSynced system log child }
{}

/// A law and no code: in any log, no child is to be synchronised before a process just where each of its children
/// has ended or synchronised.
pub fn none_is_first()
    ensures { (system : System) (log : List Entry) (p : Pid) → (first_unsynced (unsynced_births system log) p ≡ None) ↔ ChildrenSynced system log p }
{}

/// A law and no code: where each entry stands, the record of a child that never synchronised has no state: it is no
/// root, and was never cut.
pub fn unsynced_children_have_no_state()
    ensures { (system : System) (log : List Entry) (child : Pid) → is_system system ≡ true → IsLegalBy Stands system log → list_any (λ b. same_pid b.1 child) (unsynced_births system log) ≡ true → has_state system log child ≡ false }
{}

/// A law and no code: where each entry stands, a child that never synchronised and its parent have one home.
pub fn unsynced_children_live_with_their_parent()
    ensures home { (system : System) (log : List Entry) (parent child : Pid) → is_system system ≡ true → IsLegalBy Stands system log → list_any (λ b. same_pid b.0 parent && same_pid b.1 child) (unsynced_births system log) ≡ true → home_at (placement system log) child ≡ home_at (placement system log) parent }
    // The parent has not ended: it cannot exit before its children have synchronised.
    ensures parent { (system : System) (log : List Entry) (parent child : Pid) → is_system system ≡ true → IsLegalBy Stands system log → list_any (λ b. same_pid b.0 parent && same_pid b.1 child) (unsynced_births system log) ≡ true → is_some (unended_at (placement system log) parent) ≡ true }
    // So the child that is to be synchronised first has the home of the process before which it is.
    ensures first { (system : System) (log : List Entry) (p child : Pid) → is_system system ≡ true → IsLegalBy Stands system log → first_unsynced (unsynced_births system log) p ≡ Some child → home_at (placement system log) child ≡ home_at (placement system log) p }
{}
