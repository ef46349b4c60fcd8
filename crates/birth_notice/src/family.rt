//! The children that never synchronised, each with its parent, and which of them is to be synchronised next.
ghost use Rattle.std.specs.Prelude.{◌≡◌, ◌↔◌, false, true, not, List, Option, [], ◌∷◌, ◌++◌, filter, None, IfOk, OnOk, OnErr};
ghost use Rattle.std.specs.Option.{IfSome, unwrap_or};
ghost use Rattle.std.specs.List.{list_any};
ghost use Rattle.t32_base.specs.declared.process.Pid.{Pid};
ghost use Rattle.bus_msg.specs.Places.{same_pid};
ghost use Rattle.birth_notice.specs.Family.{stands_in, are_births, children_of, lower, lowest, first_unsynced, IsByRule};
ghost use Rattle.birth_notice.specs.Joined.{others_of};

use std::alloc::Global;
use std::collections::BTreeSet;
use std::marker::Model;
use t32_base::process::Pid;
use t32_base::streams::NoMemory;

/// The children that never synchronised, each behind its parent, in the order of their births.
#[derive(Drop)]
pub struct Family {
    births: Vec<(Pid, Pid)>,
}

impl Model for Family {
    ghost use Rattle.std.specs.Prelude.{◌≡◌, true, List};
    ghost use Rattle.std.specs.Coded.{coded_list};
    ghost use Rattle.t32_base.specs.declared.process.Pid.{Pid};
    ghost use Rattle.birth_notice.specs.Family.{are_births};

    ghost Value = { List (Pid × Pid) };

    ghost view = { λ f. f.births.items };

    ghost invariant = { λ f. are_births f.births.items ≡ true };
}

impl Family {
    /// No children yet. Takes no memory.
    pub fn none(alloc: Global) -> Self
        ensures { result ≡ [] }
    {
        Family {
            births: Vec::new(alloc),
        }
    }

    /// An equal family.
    pub fn copy(&self) -> Result<Self, NoMemory>
        ensures { IfOk result (λ copy. copy ≡ self.now) }
    {
        Ok(Family {
            births: self.births.clone()?,
        })
    }

    /// Whether a process stands here, as a parent or as a child. Takes no memory.
    pub fn knows(&self, pid: Pid) -> bool
        ensures { result ≡ list_any (stands_in pid) self.now }
    {
        self.births
            .iter()
            .any(|birth| pid.0 == birth.0.0 || pid.0 == birth.1.0)
    }

    /// A child is born, which is new here: it stands last. After want of memory nothing has changed.
    pub fn born(&mut self, parent: Pid, child: Pid) -> Result<(), NoMemory>
        requires other { same_pid child parent ≡ false }
        requires new { list_any (stands_in child) self.old ≡ false }
        ensures ok { OnOk result (self.new ≡ self.old ++ (parent, child) ∷ []) }
        ensures err { OnErr result (self.new ≡ self.old) }
    {
        self.births.push((parent, child))?;
        Ok(())
    }

    /// A child synchronised or ended: it is none of these any more. Its own children stay. Takes no memory.
    pub fn gone(&mut self, child: Pid)
        ensures { self.new ≡ filter (λ b. not (same_pid b.1 child)) self.old }
    {
        self.births.retain(|birth| birth.1.0 != child.0);
    }

    /// The child that is to be synchronised first, before this parent: its lowest that never synchronised, but
    /// before that one the first of its own children, and so on. Takes no memory.
    pub fn first_unsynced(&self, parent: Pid) -> Option<Pid>
        ensures first { result ≡ first_unsynced self.now parent }
        ensures none { (result ≡ None) ↔ (children_of self.now parent ≡ []) }
        ensures childless { IfSome result (λ first. children_of self.now first ≡ []) }
        ensures births { are_births self.now ≡ true }
    {
        let births = self.births.as_slice();
        match lowest_child(births, parent) {
            Some(child) => Some(first_from(births, child)),
            None => None,
        }
    }

    /// The others of the family of a process, by rising pid: its children here, and the children of these.
    pub fn others(&self, alloc: Global, pid: Pid) -> Result<BTreeSet<u32>, NoMemory>
        ensures { IfOk result (λ others. others.keys ≡ others_of self.now pid) }
    {
        let mut others = BTreeSet::new(alloc);
        for birth in self.births.as_slice() {
            if birth.0.0 == pid.0 || others.contains(&birth.0.0) {
                others.insert(birth.1.0)?;
            }
        }
        Ok(others)
    }
}

// The lowest child of a process.
fn lowest_child(births: &[(Pid, Pid)], parent: Pid) -> Option<Pid>
    ensures { result ≡ lowest (children_of births.now parent) }
{
    let mut lowest: Option<Pid> = None;
    for birth in births {
        if birth.0.0 == parent.0 {
            lowest = Some(lower(lowest, birth.1));
        }
    }
    lowest
}

// The lower of two pids, of which the first may be missing.
fn lower(lowest: Option<Pid>, child: Pid) -> Pid
    ensures { result ≡ lower child lowest }
{
    match lowest {
        Some(lowest) => { if lowest.0 < child.0 { lowest } else { child } }
        None => child,
    }
}

// The child that is to be synchronised first, from this one on: it or one below it.
fn first_from(births: &[(Pid, Pid)], child: Pid) -> Pid
    requires { are_births births.now ≡ true }
    ensures { result ≡ unwrap_or (first_unsynced births.now child) child }
{
    let mut first = child;
    while let Some(below) = lowest_child(births, first) {
        first = below;
    }
    first
}

/// A law and no code: what is to be synchronised first is what the rule says, and the rule has no other answer.
pub fn first_is_by_rule()
    ensures rule { (births : List (Pid × Pid)) → are_births births ≡ true → IsByRule births (first_unsynced births) }
    ensures one { (births : List (Pid × Pid)) (next : Pid → Option Pid) → are_births births ≡ true → IsByRule births next → (parent : Pid) → next parent ≡ first_unsynced births parent }
{}
