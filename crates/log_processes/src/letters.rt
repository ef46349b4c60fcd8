//! Lines of letters.
ghost use Rattle.std.specs.Prelude.{◌≡◌, ◌-◌, IfOk};
ghost use Rattle.std.specs.Option.{IfSome};
ghost use Rattle.proc_state.specs.State.{state_of};
ghost use Rattle.log_processes.specs.Letters.{AnswersLetter, Writes, letter_may};
ghost use Rattle.log_processes.specs.Sending.{Leads};

use crate::sender::{Head, Limits, Sender, home_may, is_within, steps_upto};
use crate::telling::is_letter_told;
use bus_msg::entry::{By, Entry, Post, What};
use counted_steps::counted::send_by;
use entry_lines::ToldLetter;
use log_audit::front::Front;
use proc_state::process::Process;
use std::alloc::Global;
use sys_calls::steps::Emission;
use t32_base::letter::Letter;
use t32_base::streams::NoMemory;

/// The entry of a line by which a process sends a letter, where the front, and what is kept of the process, are those of the
/// log before it. None where no such entry may follow: the process has then made some steps, as it may have after want of
/// memory. Otherwise it stands behind the step that sent the letter, which has not arrived anywhere yet.
pub fn next_letter(
    alloc: Global,
    front: &Front,
    limits: Limits,
    head: Head,
    told: &ToldLetter,
    kept: Sender,
    process: &mut Process,
) -> Result<Option<Entry>, NoMemory>
    ensures decides { IfOk result (AnswersLetter front.now limits head kept (state_of process.old) told.now) }
    ensures leads { IfOk result (λ answer. IfSome answer (λ e. Leads front.now limits head.pid kept (state_of process.old) e (state_of process.new))) }
{
    let Some(home) = home_may(front, head, kept) else {
        return Ok(None);
    };
    let steps = steps_upto(process, head.at);
    let Some(letter) = letter_by(alloc, steps, process)? else {
        return Ok(None);
    };
    if !letter_may(limits, kept, process, told, &letter) {
        return Ok(None);
    }
    let what = What::Mail {
        at: head.at,
        letter,
    };
    let by = By::Cluster(home);
    Ok(Some(front.entry_at(head.place, Post { by, what })))
}

// The letter that the process sends by the last of so many steps, if it does.
fn letter_by(alloc: Global, steps: u64, process: &mut Process) -> Result<Option<Letter>, NoMemory>
    ensures { IfOk result (λ letter. Writes steps (state_of process.old) letter (state_of process.new)) }
{
    match send_by(alloc, process, steps)? {
        Some(Emission::Mail(letter)) => Ok(Some(letter)),
        Some(Emission::Exit(_)) | None => Ok(None),
    }
}

// Whether the process may send this letter.
fn letter_may(
    limits: Limits,
    kept: Sender,
    process: &Process,
    told: &ToldLetter,
    letter: &Letter,
) -> bool
    ensures { result ≡ letter_may limits kept (state_of process.now) told.now letter.now }
{
    is_letter_told(told, letter) && is_within(limits, kept, process)
}
