//! Lines of new backups that name no process.
ghost use Rattle.log_renewals.specs.Named.{AnswersNobody};
ghost use Rattle.std.specs.Prelude.{ℕ, []};
ghost use Rattle.entry_lines.specs.declared.told.ToldBy.{ToldBy};
ghost use Rattle.entry_lines.specs.declared.told.ToldWhat.TheVariants.{Fresh, Standing};

/// A law and no code: no entry with a line of a new backup that names no process may follow any log.
pub fn some_process_is_named()
    ensures standing { (place to : ℕ) (by : ToldBy) → AnswersNobody place by (Standing [] to) }
    ensures fresh { (place at to : ℕ) (by : ToldBy) → AnswersNobody place by (Fresh [] at to) }
{}
