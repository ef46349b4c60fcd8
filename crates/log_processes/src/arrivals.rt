//! Letters that arrive in the processes of a log.
ghost use Rattle.std.specs.Prelude.{◌≡◌, ◌+◌, ◌-◌, ◌<◌, ◌^◌, length, OnOk, OnErr, option_to_list};
ghost use Rattle.std.specs.Option.{option_copied};
ghost use Rattle.proc_state.specs.State.{state_of};
ghost use Rattle.sys_calls.proofs.RunLemma.{all_delivered};
ghost use Rattle.bus_msg.specs.PlacedAfter.{what};
ghost use Rattle.cert_sched.specs.Deeds.{is_end_of, letter_for};
ghost use Rattle.log_processes.specs.Arrivals.{KeepsOn};

use crate::sender::Sender;
use bus_msg::entry::{Entry, What};
use proc_state::process::Process;
use t32_base::letter::{Letter, To};
use t32_base::process::Pid;
use t32_base::streams::NoMemory;

/// A letter of an entry arrives where it goes to the process `pid`. So what is kept of the process is that of the log with
/// the entry, where the entry is no birth, fork, exit or cut of it. After want of memory nothing has changed.
pub fn take(
    pid: Pid,
    entry: &Entry,
    kept: &mut Sender,
    process: &mut Process,
) -> Result<(), NoMemory>
    requires letters { process.old.mail.next < 2 ^ 64 - 1 }
    requires saved { kept.old.saved < 2 ^ 64 - 1 }
    ensures state { OnOk result (state_of process.new ≡ all_delivered (state_of process.old) (letter_for pid (what entry.now))) }
    ensures count { OnOk result (kept.new ≡ record kept.old { saved = kept.old.saved + length (letter_for pid (what entry.now)) }) }
    ensures keeps { OnOk result (KeepsOn entry.now pid (state_of process.old) kept.old (state_of process.new) kept.new) }
    ensures err { OnErr result ((process.new ≡ process.old) × (kept.new ≡ kept.old)) }
{
    let Some(letter) = arriving(pid, entry) else {
        return Ok(());
    };
    let letter = letter.copy()?;
    process.deliver(letter)?;
    kept.saved += 1;
    Ok(())
}

// The letter of an entry that goes to this process, if it has one.
fn arriving(pid: Pid, entry: &Entry) -> Option<&Letter>
    ensures { option_to_list (option_copied result) ≡ letter_for pid (what entry.now) }
{
    match &entry.post.what {
        What::Mail { letter, .. } => {
            if is_to(pid, letter.to) {
                Some(letter)
            } else {
                None
            }
        }
        _ => None,
    }
}

// Whether a letter that goes there goes to this process.
fn is_to(pid: Pid, to: To) -> bool
    ensures { result ≡ is_end_of pid to }
{
    match to {
        To::Proc(at, _) => at.0 == pid.0,
        To::Tty(_) => false,
    }
}
