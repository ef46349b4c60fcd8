//! What the processes of a cluster owe beside their steps.
ghost use Rattle.std.specs.Prelude.{◌≡◌, []};
ghost use Rattle.plain_kernel.specs.Maps.{pid_of};
ghost use Rattle.residents.specs.Duty.{backup_owed};

use quanta::limits::Limits;
use std::alloc::Global;
use std::collections::BTreeMap;
use std::marker::Model;
use t32_base::process::ClusterNo;

/// The limits by which the processes of a cluster synchronise, and the pids of those that are to get a new backup, each with its
/// cluster.
#[derive(Drop)]
pub struct Duty {
    limits: Limits,
    owing: BTreeMap<u32, ClusterNo>,
}

impl Model for Duty {
    ghost use Rattle.residents.specs.Duty.{DutyView};

    ghost Value = { DutyView };

    ghost view = { λ d. record { limits = d.limits; owing = (d.owing).entries } };
}

impl Duty {
    /// These limits, and no process that is to get a new backup.
    pub fn of(alloc: Global, limits: Limits) -> Duty
        ensures { result ≡ record { limits = limits; owing = [] } }
    {
        Duty {
            limits,
            owing: BTreeMap::new(alloc),
        }
    }

    /// The same limits, and these processes. Takes no memory.
    pub fn owe(&mut self, owing: BTreeMap<u32, ClusterNo>)
        ensures { self.new ≡ record self.old { owing = owing.entries } }
    {
        self.owing = owing;
    }

    /// The limits. Takes no memory.
    pub fn limits(&self) -> Limits
        ensures { result ≡ self.now.limits }
    {
        self.limits
    }

    /// The cluster that a process is to get as its new backup, if it is to get one. Takes no memory.
    pub fn backup_owed(&self, pid: u32) -> Option<ClusterNo>
        ensures { result ≡ backup_owed self.now (pid_of pid) }
    {
        self.owing.get(&pid).copied()
    }
}
