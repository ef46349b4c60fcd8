//! The printed numbers of a section that is explained.
ghost use Rattle.std.specs.Prelude.{◌≡◌, ◌<◌, ◌^◌, true, ℕ, List, length, map};
ghost use Rattle.sys_text.specs.declared.system.System.{System};
ghost use Rattle.sys_text.specs.Valid.{is_system};
ghost use Rattle.cert_sched.specs.Legal.{MayFollow};
ghost use Rattle.entry_lines.specs.Told.{told_of};
ghost use Rattle.log_section.specs.Form.{IsForm};
ghost use Rattle.log_section.specs.Printed.{KernelFits, RunFits};
ghost use Rattle.audit_text.specs.declared.finding.Finding.{Finding};
ghost use Rattle.audit_rules.specs.Explained.{ExplainedBy};
ghost use Rattle.audit_rules.specs.Findings.{AuditCause};

use audit_rules::explained::explained_sections_are_form;
use audit_rules::findings::findings_differ;

/// A law and no code: in a section of fewer than 2^64 bytes that is explained each printed number is below 2^64, those of the
/// kernel,
pub fn explained_numbers_fit()
    ensures kernel { (system : System) (section : List ℕ) → is_system system ≡ true → length section < 2 ^ 64 → (is : ExplainedBy MayFollow system section) → KernelFits is.kernel }
    // and those of the run and its log.
    ensures run { (system : System) (section : List ℕ) → is_system system ≡ true → length section < 2 ^ 64 → (is : ExplainedBy MayFollow system section) → RunFits is.run }
{}

/// A law and no code: so such a section is of the form, with the lines of the log that explains it,
pub fn explained_sections_stand()
    ensures form { (system : System) (section : List ℕ) → is_system system ≡ true → length section < 2 ^ 64 → (is : ExplainedBy MayFollow system section) → IsForm section (map told_of is.log) }
    // and nothing may be found against it.
    ensures none { (system : System) (section : List ℕ) (found : Finding) → is_system system ≡ true → length section < 2 ^ 64 → ExplainedBy MayFollow system section → AuditCause MayFollow system section found → ⊥ }
{
    explained_numbers_fit();
    explained_sections_are_form();
    findings_differ()
}
