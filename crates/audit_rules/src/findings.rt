//! What may be found against a section.
ghost use Rattle.std.specs.Prelude.{◌≡◌, ℕ, List};
ghost use Rattle.sys_text.specs.declared.system.System.{System};
ghost use Rattle.audit_text.specs.declared.finding.Finding.{Finding};
ghost use Rattle.log_section.specs.Printed.{KernelFits, RunFits};
ghost use Rattle.cert_sched.specs.Legal.{MayFollow};
ghost use Rattle.audit_rules.specs.Explained.{ExplainedBy};
ghost use Rattle.audit_rules.specs.Findings.{AuditCause};

use crate::explained::explained_sections_are_form;

/// A law and no code: there is one finding against a section and no other,
pub fn findings_differ()
    ensures one { (system : System) (section : List ℕ) (found other : Finding) → AuditCause MayFollow system section found →
        AuditCause MayFollow system section other → found ≡ other }
    // and none against one that is explained, where each number that is printed is below 2^64.
    ensures none { (system : System) (section : List ℕ) (is : ExplainedBy MayFollow system section) → KernelFits is.kernel → RunFits is.run →
        (found : Finding) → AuditCause MayFollow system section found → ⊥ }
{
    explained_sections_are_form()
}
