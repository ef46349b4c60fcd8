//! When a section is explained.
ghost use Rattle.std.specs.Prelude.{◌≡◌, ◌++◌, ◌<◌, ◌^◌, true, Bool, ℕ, List, Some, map};
ghost use Rattle.std.specs.List.{list_all};
ghost use Rattle.t32_base.specs.declared.process.ClusterNo.{ClusterNo};
ghost use Rattle.sys_text.specs.declared.system.System.{System};
ghost use Rattle.plain_kernel.specs.Apply.{plain_run};
ghost use Rattle.plain_kernel.specs.Kernel.{Kernel};
ghost use Rattle.bus_msg.specs.declared.entry.Entry.{Entry};
ghost use Rattle.cert_sched.specs.declared.script.ScriptWord.{ScriptWord};
ghost use Rattle.report_text.specs.declared.run.Run.{Run};
ghost use Rattle.report_text.specs.Good.{IsGoodBy};
ghost use Rattle.report_text.specs.RunReport.{report_of, log_text_of};
ghost use Rattle.entry_lines.specs.Told.{told_of};
ghost use Rattle.log_section.specs.Form.{IsForm};
ghost use Rattle.log_section.specs.Printed.{KernelFits, RunFits};
ghost use Rattle.cert_sched.specs.Legal.{MayFollow};
ghost use Rattle.audit_rules.specs.Explained.{ExplainedBy, has_small_number};

use log_section::printed_sections_are_form;

/// A law and no code: what is printed of a run is explained, where the run is what its system and its script allow and
/// its schedule leads to the kernel. The numbers of the script, and of what was withheld, are below 2^64.
pub fn printed_runs_are_explained()
    ensures { (enough : System → List Entry → List ℕ → List ℕ → ClusterNo → Bool) (system : System) (script : List ScriptWord) (run : Run)
        (kernel : Kernel) → IsGoodBy MayFollow enough system script run → plain_run system run.items ≡ Some kernel →
        list_all has_small_number script ≡ true → run.withheld < 2 ^ 64 →
        ExplainedBy MayFollow system (report_of kernel run ++ log_text_of run.log) }
{}

/// A law and no code: a section that is explained is of the form, and the lines of its log are those of the log that
/// explains it, where each number that is printed is below 2^64.
pub fn explained_sections_are_form()
    ensures { (system : System) (section : List ℕ) (is : ExplainedBy MayFollow system section) → KernelFits is.kernel → RunFits is.run →
        IsForm section (map told_of is.log) }
{
    printed_sections_are_form()
}
