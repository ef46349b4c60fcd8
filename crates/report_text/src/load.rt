//! What is printed of the run of a workload.
ghost use Rattle.std.specs.Prelude.{◌≡◌, IfOk, Some, true};
ghost use Rattle.sys_text.specs.Valid.{is_system};
ghost use Rattle.plain_kernel.specs.Apply.{plain_run};
ghost use Rattle.plain_kernel.specs.Kernel.{Kernel};
ghost use Rattle.cert_sched.specs.Legal.{IsLegal};
ghost use Rattle.cert_sched.specs.Schedule.{schedule_of};
ghost use Rattle.report_text.specs.Load.{load_report as load_report_of};

use crate::outcome::Outcome;
use crate::run::Run;
use std::alloc::Global;
use sys_text::system::System;
use t32_base::lists::Text;
use t32_base::streams::NoMemory;

/// The line of a workload of this size by its run: how many bytes terminal 0 was sent, how many
/// processes ended with exit 0, and how many others there are, in the kernel to which the schedule leads. It is
/// counted by the log alone.
pub fn load_report(alloc: Global, system: &System, run: &Run, size: u32) -> Result<Text, NoMemory>
    requires valid { is_system system.now ≡ true }
    requires legal { IsLegal system.now run.now.log }
    requires items { run.now.items ≡ schedule_of system.now run.now.log }
    ensures { IfOk result (λ text. (kernel : Kernel) × (plain_run system.now run.now.items ≡ Some kernel) × (text ≡ load_report_of size kernel)) }
{
    let outcome = Outcome::of(alloc, system, run.log.as_slice())?;
    outcome.load_line(alloc, size)
}
