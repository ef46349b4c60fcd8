//! What is kept of a process is what the answers to lines ask of it.
ghost use Rattle.audited_process.specs.Answering.{AnswersLines, SaysAsked, SaysSender};

use crate::audited::Audited;
use birth_notice::family::Family;
use log_audit::fetches::Asked;
use log_fetches::fetches::Fetches;
use log_processes::families::is_parent;
use log_processes::sender::Sender;
use t32_base::process::Pid;

/// What is kept of the process for a line by which it sends, where these are the fetches and the children of the log. Takes no memory.
pub fn sender_of(pid: Pid, audited: &Audited, fetches: &Fetches, family: &Family) -> Sender
    ensures { SaysSender pid audited.now fetches.now family.now result }
{
    let pages = audited.process.small.pages.min(256);
    Sender {
        start: audited.begun.steps,
        saved: audited.begun.saved,
        whole: fetches.all_come(pid, pages),
        parent: is_parent(family, pid),
    }
}

/// What is kept of a page of the process for a line by which it is asked for. Takes no memory.
pub fn asked_of(pid: Pid, audited: &Audited, fetches: &Fetches, index: u64) -> Asked
    ensures { SaysAsked pid audited.now fetches.now index result }
{
    Asked {
        pages: audited.process.small.pages,
        moved: fetches.moved(pid),
        asked: fetches.asked(pid, index),
    }
}

/// A law and no code: with that, what is kept of the process is what each answer asks.
pub fn lines_can_be_answered()
    ensures { AnswersLines }
{}
