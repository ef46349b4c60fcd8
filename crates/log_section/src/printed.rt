//! What is printed of a run and its log is of the form.
ghost use Rattle.std.specs.Prelude.{◌++◌, map};
ghost use Rattle.plain_kernel.specs.Kernel.{Kernel};
ghost use Rattle.report_text.specs.declared.run.Run.{Run};
ghost use Rattle.report_text.specs.RunReport.{report_of, log_text_of};
ghost use Rattle.entry_lines.specs.Told.{told_of};
ghost use Rattle.log_section.specs.Form.{IsForm};
ghost use Rattle.log_section.specs.Printed.{KernelFits, RunFits};

/// A law and no code: what is printed of a run and its log, where the kernel stands after the run's schedule, is of the
/// form, and its log says the printed part of each entry. Each number that is printed is below 2^64.
pub fn printed_sections_are_form()
    ensures { (kernel : Kernel) (run : Run) → KernelFits kernel → RunFits run →
        IsForm (report_of kernel run ++ log_text_of run.log) (map told_of run.log) }
{}
