//! The numbers of processes.
ghost use Rattle.std.specs.Prelude.{◌≡◌, ◌<◌, ◌^◌, true, List};
ghost use Rattle.t32_base.specs.declared.process.ClusterNo.{ClusterNo};
ghost use Rattle.sys_text.specs.declared.system.System.{System};
ghost use Rattle.sys_text.specs.Valid.{is_system};
ghost use Rattle.sys_text.specs.Boot.{pid_of};
ghost use Rattle.bus_msg.specs.declared.entry.Entry.{Entry};
ghost use Rattle.bus_msg.specs.Places.{next_serial_in};
ghost use Rattle.cert_sched.specs.Legal.{MayStand};
ghost use Rattle.cert_sched.specs.Legal.{IsLegalBy};
ghost use Rattle.cert_sched.specs.Schedule.{placement};

/// A law and no code: the pid of the next child of a cluster has 32 bits.
pub fn next_pids_fit()
    ensures { (system : System) (log : List Entry) (k : ClusterNo) → is_system system ≡ true → IsLegalBy MayStand system log → k.0 < 16 → (pid_of k.0 (next_serial_in (placement system log) k)).0 < 2 ^ 32 }
{}
