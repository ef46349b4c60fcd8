//! The top call: what the program does with its words, its input and its output.
ghost use Rattle.std.specs.Prelude.{ℕ, List, Bool, ◌≡◌, ◌==◌, None, Option, Some, false, if◌then◌else◌, true, IfErr, IfOk, OnOk, is_some};
ghost use Rattle.targon_cli.specs.Answer.{In, Out, Says, AnswersFound, Answers, Answered, HandsOut, IsUnread, ReadsAll, Takes};
ghost use Rattle.targon_cli.specs.Commands.{is_ready, keeps_limits, needs_threads as needs_threads_of, reads_input as reads_input_of};
ghost use Rattle.targon_cli.specs.Explained.{Explained, ExplainsEnd, ExplainsFound, HandsWhy, IsByStatus, TellsWhy};
ghost use Rattle.targon_cli.specs.Noted.{HandsNotes, MayNote, Noted, NotedEnd, TellsNotes};
ghost use Rattle.targon_cli.specs.Reply.{usage_line};
ghost use Rattle.workload.specs.Ring.{is_size};
ghost use Rattle.refusal_text.specs.Why.{why_of as why_of_status};
ghost use Rattle.refusal_text.specs.declared.why.Why.{Why as AWhy};
ghost use Rattle.command_words.specs.Command.{command_of as command_of_words};
ghost use Rattle.command_words.specs.declared.command.Command.{Command as ACommand};

use crate::input::{Input, read_input};
use crate::load::run_load;
use crate::notes::word_notes;
use crate::output::say;
use crate::reply::{Reply, USAGE, carry_out};
use crate::runs::run_threads;
use cert_sched::script::Script;
use cluster_run::life::Ran;
use command_words::{Command, command_of};
use refusal_text::why::{Why, why_of};
use std::alloc::Global;
use std::sync::Wait;
use std::thread::Threads;
use t32_base::gate::Gate;
use t32_base::lists::{Bytes, Text};
use t32_base::streams::{NoMemory, Sink, Source, TakeFault};

// The statuses with which the program ends, but for those of a reply and that of a write fault.
const READ_FAULT: u8 = 4;

const NO_MEMORY: u8 = 6;

const TOO_LONG: u8 = 8;

/// What the program does with its words, its input and its output, and the status with which it ends: 0
/// where a command was carried out, 1 where the words are no command, or name a cluster that the
/// system lacks, 2 where the command refuses its input, 3 where an item of the schedule cannot be read
/// or applied, 4 where the input could not be read, 5 where the output could not be written, 6 where memory was
/// refused and nothing was written, 7 where the run was ended by a loss that is not covered, and 8 where the input
/// is longer than is read. After 0 and 7 `ran` is the run that `sim`, `run` or `load` made, and after 5 the
/// run whose report was being written; else it is none. For `run` and `load` each cluster has a thread, which calls the
/// gate before it tries to send; it may wait, so that no return is promised.
pub fn targon<R: Threads + Wait + Sync, S: Source, K: Sink, G: Gate + Sync>(
    rt: &R,
    alloc: Global,
    words: &[Text],
    input: &mut S,
    output: &mut K,
    gate: &G,
    ran: &mut Option<Ran>,
) -> u8
    requires { ran.old ≡ None }
    ensures { Answered words.now result
        (record { left = S.left input.old; faults = S.fault_count input.old })
        (record { left = S.left input.new; faults = S.fault_count input.new }) (S.ended input.new)
        (record { holds = K.holds output.old; faults = K.fault_count output.old })
        (record { holds = K.holds output.new; faults = K.fault_count output.new }) ran.new }
{
    let mut why = None;
    targon_explained(rt, alloc, words, input, output, gate, ran, &mut why)
}

/// The same, and `why` is afterwards why the program ends with its status: `None` exactly after 0 and 7. After a refusal it
/// has the line or the item as it stands, and less where memory was refused while this was made.
pub fn targon_explained<R: Threads + Wait + Sync, S: Source, K: Sink, G: Gate + Sync>(
    rt: &R,
    alloc: Global,
    words: &[Text],
    input: &mut S,
    output: &mut K,
    gate: &G,
    ran: &mut Option<Ran>,
    why: &mut Option<Why>,
) -> u8
    requires { ran.old ≡ None }
    ensures answered { Answered words.now result
        (record { left = S.left input.old; faults = S.fault_count input.old })
        (record { left = S.left input.new; faults = S.fault_count input.new }) (S.ended input.new)
        (record { holds = K.holds output.old; faults = K.fault_count output.old })
        (record { holds = K.holds output.new; faults = K.fault_count output.new }) ran.new }
    ensures explained { Explained words.now result
        (record { left = S.left input.old; faults = S.fault_count input.old })
        (record { left = S.left input.new; faults = S.fault_count input.new }) (S.ended input.new) why.new }
{
    let mut notes = None;
    targon_noted(rt, alloc, words, input, output, gate, ran, why, &mut notes)
}

// The same, and `notes` is afterwards what is noted for a person beside that: nothing where memory was refused or the output failed.
fn targon_noted<R: Threads + Wait + Sync, S: Source, K: Sink, G: Gate + Sync>(
    rt: &R,
    alloc: Global,
    words: &[Text],
    input: &mut S,
    output: &mut K,
    gate: &G,
    ran: &mut Option<Ran>,
    why: &mut Option<Why>,
    notes: &mut Option<Text>,
) -> u8
    requires { ran.old ≡ None }
    ensures answered { Answered words.now result
        (record { left = S.left input.old; faults = S.fault_count input.old })
        (record { left = S.left input.new; faults = S.fault_count input.new }) (S.ended input.new)
        (record { holds = K.holds output.old; faults = K.fault_count output.old })
        (record { holds = K.holds output.new; faults = K.fault_count output.new }) ran.new }
    ensures explained { Explained words.now result
        (record { left = S.left input.old; faults = S.fault_count input.old })
        (record { left = S.left input.new; faults = S.fault_count input.new }) (S.ended input.new) why.new }
    ensures noted { Noted words.now
        (record { left = S.left input.old; faults = S.fault_count input.old })
        (record { left = S.left input.new; faults = S.fault_count input.new }) (S.ended input.new) ran.new notes.new }
{
    let Ok(command) = command_of(alloc, words) else {
        *why = why_of(NO_MEMORY);
        *notes = None;
        return NO_MEMORY;
    };
    match command {
        Some(command) => answer_any(rt, alloc, command, input, output, gate, ran, why, notes),
        None => {
            *notes = word_notes(alloc, words);
            usage(output, why)
        }
    }
}

/// The same as `targon` for the words that need no threads. It takes no runtime, so it always returns where its
/// source and its sink do.
pub fn targon_alone<S: Source, K: Sink>(
    alloc: Global,
    words: &[Text],
    input: &mut S,
    output: &mut K,
    ran: &mut Option<Ran>,
) -> u8
    requires unran { ran.old ≡ None }
    requires alone { needs_threads_of (command_of_words words.now) ≡ false }
    ensures { Answered words.now result
        (record { left = S.left input.old; faults = S.fault_count input.old })
        (record { left = S.left input.new; faults = S.fault_count input.new }) (S.ended input.new)
        (record { holds = K.holds output.old; faults = K.fault_count output.old })
        (record { holds = K.holds output.new; faults = K.fault_count output.new }) ran.new }
{
    let Ok(command) = command_of(alloc, words) else {
        return NO_MEMORY;
    };
    let mut why = None;
    answer_alone(alloc, command, input, output, ran, &mut why)
}

/// The same as `targon`, and what there is to say of the end is written to `errors`: why it is not 0, and what is noted for a
/// person. Whatever becomes of that changes neither the status nor the output.
pub fn targon_told<R: Threads + Wait + Sync, S: Source, K: Sink, E: Sink, G: Gate + Sync>(
    rt: &R,
    alloc: Global,
    words: &[Text],
    input: &mut S,
    output: &mut K,
    errors: &mut E,
    gate: &G,
    ran: &mut Option<Ran>,
) -> u8
    requires { ran.old ≡ None }
    ensures answered { Answered words.now result
        (record { left = S.left input.old; faults = S.fault_count input.old })
        (record { left = S.left input.new; faults = S.fault_count input.new }) (S.ended input.new)
        (record { holds = K.holds output.old; faults = K.fault_count output.old })
        (record { holds = K.holds output.new; faults = K.fault_count output.new }) ran.new }
    ensures told { (why : Option AWhy) × (notes : Option (List ℕ)) × (middle : Out) × Explained words.now result
        (record { left = S.left input.old; faults = S.fault_count input.old })
        (record { left = S.left input.new; faults = S.fault_count input.new }) (S.ended input.new) why
        × Noted words.now
        (record { left = S.left input.old; faults = S.fault_count input.old })
        (record { left = S.left input.new; faults = S.fault_count input.new }) (S.ended input.new) ran.new notes
        × TellsWhy why (record { holds = E.holds errors.old; faults = E.fault_count errors.old }) middle
        × TellsNotes notes middle (record { holds = E.holds errors.new; faults = E.fault_count errors.new }) }
{
    let mut why = None;
    let mut notes = None;
    let status = targon_noted(
        rt, alloc, words, input, output, gate, ran, &mut why, &mut notes,
    );
    tell_why(alloc, &why, errors);
    tell_notes(&notes, errors);
    status
}

// What is answered where the words are this command, which needs no threads, or none.
fn answer_alone<S: Source, K: Sink>(
    alloc: Global,
    command: Option<Command>,
    input: &mut S,
    output: &mut K,
    ran: &mut Option<Ran>,
    why: &mut Option<Why>,
) -> u8
    requires unran { ran.old ≡ None }
    requires ready { is_ready command ≡ true }
    requires alone { needs_threads_of command ≡ false }
    ensures answered { AnswersFound command result
        (record { left = S.left input.old; faults = S.fault_count input.old })
        (record { left = S.left input.new; faults = S.fault_count input.new }) (S.ended input.new)
        (record { holds = K.holds output.old; faults = K.fault_count output.old })
        (record { holds = K.holds output.new; faults = K.fault_count output.new }) ran.new }
    ensures explained { ExplainsFound command result
        (record { left = S.left input.old; faults = S.fault_count input.old })
        (record { left = S.left input.new; faults = S.fault_count input.new }) (S.ended input.new) why.new }
{
    let mut notes = None;
    match command {
        Some(command) => answer(alloc, command, input, output, ran, why, &mut notes),
        None => usage(output, why),
    }
}

// What a command that needs no threads answers.
fn answer<S: Source, K: Sink>(
    alloc: Global,
    command: Command,
    input: &mut S,
    output: &mut K,
    ran: &mut Option<Ran>,
    why: &mut Option<Why>,
    notes: &mut Option<Text>,
) -> u8
    requires limits { keeps_limits command ≡ true }
    requires alone { needs_threads_of (Some command) ≡ false }
    requires unran { ran.old ≡ None }
    ensures answered { Answers command result
        (record { left = S.left input.old; faults = S.fault_count input.old })
        (record { left = S.left input.new; faults = S.fault_count input.new }) (S.ended input.new)
        (record { holds = K.holds output.old; faults = K.fault_count output.old })
        (record { holds = K.holds output.new; faults = K.fault_count output.new }) ran.new }
    ensures explained { ExplainsEnd command result
        (record { left = S.left input.old; faults = S.fault_count input.old })
        (record { left = S.left input.new; faults = S.fault_count input.new }) (S.ended input.new) why.new }
    ensures noted { NotedEnd command
        (record { left = S.left input.old; faults = S.fault_count input.old })
        (record { left = S.left input.new; faults = S.fault_count input.new }) (S.ended input.new) ran.new notes.new }
{
    match read_needed(alloc, &command, input, output) {
        Ok(bytes) => {
            let made = carry_out(alloc, command, bytes.as_slice());
            hand_out(made, output, ran, why, notes)
        }
        Err(status) => {
            *why = why_of(status);
            *notes = None;
            status
        }
    }
}

// What a command answers.
fn answer_any<R: Threads + Wait + Sync, S: Source, K: Sink, G: Gate + Sync>(
    rt: &R,
    alloc: Global,
    command: Command,
    input: &mut S,
    output: &mut K,
    gate: &G,
    ran: &mut Option<Ran>,
    why: &mut Option<Why>,
    notes: &mut Option<Text>,
) -> u8
    requires ready { is_ready (Some command) ≡ true }
    requires unran { ran.old ≡ None }
    ensures answered { Answers command result
        (record { left = S.left input.old; faults = S.fault_count input.old })
        (record { left = S.left input.new; faults = S.fault_count input.new }) (S.ended input.new)
        (record { holds = K.holds output.old; faults = K.fault_count output.old })
        (record { holds = K.holds output.new; faults = K.fault_count output.new }) ran.new }
    ensures explained { ExplainsEnd command result
        (record { left = S.left input.old; faults = S.fault_count input.old })
        (record { left = S.left input.new; faults = S.fault_count input.new }) (S.ended input.new) why.new }
    ensures noted { NotedEnd command
        (record { left = S.left input.old; faults = S.fault_count input.old })
        (record { left = S.left input.new; faults = S.fault_count input.new }) (S.ended input.new) ran.new notes.new }
{
    if needs_threads(&command) {
        answer_by_threads(rt, alloc, command, input, output, gate, ran, why, notes)
    } else {
        answer(alloc, command, input, output, ran, why, notes)
    }
}

// Whether a command has a thread for each cluster: `run`, and `load` where it does not only print.
fn needs_threads(command: &Command) -> bool
    ensures { result ≡ needs_threads_of (Some command.now) }
{
    match command {
        Command::Run { .. } => true,
        Command::Load { text, .. } => !*text,
        Command::Plain | Command::Check | Command::Asm | Command::Sim { .. } => false,
    }
}

// What a command answers that has a thread for each cluster.
fn answer_by_threads<R: Threads + Wait + Sync, S: Source, K: Sink, G: Gate + Sync>(
    rt: &R,
    alloc: Global,
    command: Command,
    input: &mut S,
    output: &mut K,
    gate: &G,
    ran: &mut Option<Ran>,
    why: &mut Option<Why>,
    notes: &mut Option<Text>,
) -> u8
    requires ready { is_ready (Some command) ≡ true }
    requires threads { needs_threads_of (Some command) ≡ true }
    requires unran { ran.old ≡ None }
    ensures answered { Answers command result
        (record { left = S.left input.old; faults = S.fault_count input.old })
        (record { left = S.left input.new; faults = S.fault_count input.new }) (S.ended input.new)
        (record { holds = K.holds output.old; faults = K.fault_count output.old })
        (record { holds = K.holds output.new; faults = K.fault_count output.new }) ran.new }
    ensures explained { ExplainsEnd command result
        (record { left = S.left input.old; faults = S.fault_count input.old })
        (record { left = S.left input.new; faults = S.fault_count input.new }) (S.ended input.new) why.new }
    ensures noted { NotedEnd command
        (record { left = S.left input.old; faults = S.fault_count input.old })
        (record { left = S.left input.new; faults = S.fault_count input.new }) (S.ended input.new) ran.new notes.new }
{
    match command {
        Command::Run { log, script } => {
            answer_run(
                rt, alloc, log, &script, input, output, gate, ran, why, notes,
            )
        }
        Command::Load { size, script, .. } => {
            answer_load(rt, alloc, size, &script, output, gate, ran, why, notes)
        }
        Command::Plain | Command::Check | Command::Asm | Command::Sim { .. } => unreachable!(),
    }
}

// Says that the words are no command.
fn usage<K: Sink>(output: &mut K, why: &mut Option<Why>) -> u8
    ensures said { Says 1 usage_line result
        (record { holds = K.holds output.old; faults = K.fault_count output.old })
        (record { holds = K.holds output.new; faults = K.fault_count output.new }) }
    ensures explained { IsByStatus result why.new }
{
    let status = say(output, b"t32: usage\n", USAGE);
    *why = why_of(status);
    status
}

// What `run` answers.
fn answer_run<R: Threads + Wait + Sync, S: Source, K: Sink, G: Gate + Sync>(
    rt: &R,
    alloc: Global,
    log: bool,
    script: &Script,
    input: &mut S,
    output: &mut K,
    gate: &G,
    ran: &mut Option<Ran>,
    why: &mut Option<Why>,
    notes: &mut Option<Text>,
) -> u8
    requires unran { ran.old ≡ None }
    ensures answered { Answers (ACommand.Run log script.now) result
        (record { left = S.left input.old; faults = S.fault_count input.old })
        (record { left = S.left input.new; faults = S.fault_count input.new }) (S.ended input.new)
        (record { holds = K.holds output.old; faults = K.fault_count output.old })
        (record { holds = K.holds output.new; faults = K.fault_count output.new }) ran.new }
    ensures explained { ExplainsEnd (ACommand.Run log script.now) result
        (record { left = S.left input.old; faults = S.fault_count input.old })
        (record { left = S.left input.new; faults = S.fault_count input.new }) (S.ended input.new) why.new }
    ensures noted { NotedEnd (ACommand.Run log script.now)
        (record { left = S.left input.old; faults = S.fault_count input.old })
        (record { left = S.left input.new; faults = S.fault_count input.new }) (S.ended input.new) ran.new notes.new }
{
    match read_whole(alloc, input, output) {
        Ok(bytes) => {
            let made = run_threads(rt, alloc, bytes.as_slice(), log, script, gate);
            hand_out(made, output, ran, why, notes)
        }
        Err(status) => {
            *why = why_of(status);
            *notes = None;
            status
        }
    }
}

// What `load` answers where it runs its workload. It reads no input.
fn answer_load<R: Threads + Wait + Sync, K: Sink, G: Gate + Sync>(
    rt: &R,
    alloc: Global,
    size: u32,
    script: &Script,
    output: &mut K,
    gate: &G,
    ran: &mut Option<Ran>,
    why: &mut Option<Why>,
    notes: &mut Option<Text>,
) -> u8
    requires size { is_size size ≡ true }
    requires unran { ran.old ≡ None }
    ensures answered { (command : ACommand) → command ≡ ACommand.Load size false script.now → (input : In) (ended : Bool) → Answers command result input input ended
        (record { holds = K.holds output.old; faults = K.fault_count output.old })
        (record { holds = K.holds output.new; faults = K.fault_count output.new }) ran.new }
    ensures explained { (command : ACommand) → command ≡ ACommand.Load size false script.now → (input : In) (ended : Bool) → ExplainsEnd command result input input ended why.new }
    ensures noted { (command : ACommand) → command ≡ ACommand.Load size false script.now → (input : In) (ended : Bool) → NotedEnd command input input ended ran.new notes.new }
{
    let made = run_load(rt, alloc, size, script, gate);
    hand_out(made, output, ran, why, notes)
}

// The input that a command reads, all of it, and for `load` nothing; or the status with which the program ends
// without it, once that is said.
fn read_needed<S: Source, K: Sink>(
    alloc: Global,
    command: &Command,
    input: &mut S,
    output: &mut K,
) -> Result<Bytes, u8>
    ensures read { IfOk result (Takes command.now (record { left = S.left input.old; faults = S.fault_count input.old })
        (record { left = S.left input.new; faults = S.fault_count input.new }) (S.ended input.new)) }
    ensures kept { OnOk result (K.holds output.new ≡ K.holds output.old) }
    ensures counted { OnOk result (K.fault_count output.new ≡ K.fault_count output.old) }
    ensures unread { IfErr result (λ status. Answers command.now status
        (record { left = S.left input.old; faults = S.fault_count input.old })
        (record { left = S.left input.new; faults = S.fault_count input.new }) (S.ended input.new)
        (record { holds = K.holds output.old; faults = K.fault_count output.old })
        (record { holds = K.holds output.new; faults = K.fault_count output.new }) None) }
    ensures told { IfErr result (λ status. is_some (why_of_status status) ≡ true) }
{
    if reads_input(command) {
        read_whole(alloc, input, output)
    } else {
        Ok(Bytes::new(alloc))
    }
}

fn reads_input(command: &Command) -> bool
    ensures { result ≡ reads_input_of (Some command.now) }
{
    !matches!(command, Command::Load { .. })
}

// The whole input; or the status with which the program ends without it, once that is said.
fn read_whole<S: Source, K: Sink>(alloc: Global, input: &mut S, output: &mut K) -> Result<Bytes, u8>
    ensures read { IfOk result (ReadsAll (record { left = S.left input.old; faults = S.fault_count input.old })
        (record { left = S.left input.new; faults = S.fault_count input.new }) (S.ended input.new)) }
    ensures kept { OnOk result (K.holds output.new ≡ K.holds output.old) }
    ensures counted { OnOk result (K.fault_count output.new ≡ K.fault_count output.old) }
    ensures unread { IfErr result (λ status. IsUnread status
        (record { left = S.left input.old; faults = S.fault_count input.old })
        (record { left = S.left input.new; faults = S.fault_count input.new }) (S.ended input.new)
        (record { holds = K.holds output.old; faults = K.fault_count output.old })
        (record { holds = K.holds output.new; faults = K.fault_count output.new })) }
    ensures told { IfErr result (λ status. is_some (why_of_status status) ≡ true) }
{
    match read_input(alloc, input) {
        Ok(Input::Whole(bytes)) => Ok(bytes),
        Ok(Input::TooLong) => Err(say(output, b"t32: input too long\n", TOO_LONG)),
        Err(TakeFault::Failed) => Err(say(output, b"t32: read fault\n", READ_FAULT)),
        Err(TakeFault::NoMemory) => Err(NO_MEMORY),
    }
}

// Writes what a command made of its input, and hands out its run and why it ended so.
fn hand_out<K: Sink>(
    made: Result<(Reply, Option<Ran>), NoMemory>,
    output: &mut K,
    ran: &mut Option<Ran>,
    why: &mut Option<Why>,
    notes: &mut Option<Text>,
) -> u8
    requires { ran.old ≡ None }
    ensures made { HandsOut made result
        (record { holds = K.holds output.old; faults = K.fault_count output.old })
        (record { holds = K.holds output.new; faults = K.fault_count output.new }) ran.new }
    ensures why { HandsWhy made result why.new }
    ensures notes { HandsNotes made ran.new notes.new }
{
    match made {
        Ok((reply, made)) => {
            *ran = made;
            let status = say(output, reply.text.as_slice(), reply.status);
            *why = why_ended(status, reply.status, reply.why);
            *notes = notes_ended(status, reply.status, reply.notes);
            status
        }
        Err(NoMemory) => {
            *why = why_of(NO_MEMORY);
            *notes = None;
            NO_MEMORY
        }
    }
}

// Why the program ends with this status, where the other one was wanted for that reason.
fn why_ended(status: u8, wanted: u8, why: Option<Why>) -> Option<Why>
    ensures { result ≡ if status == wanted then why else why_of_status status }
{
    if status == wanted {
        why
    } else {
        why_of(status)
    }
}

// What is noted, where the status is the wanted one.
fn notes_ended(status: u8, wanted: u8, notes: Option<Text>) -> Option<Text>
    ensures { MayNote notes result }
{
    if status == wanted { notes } else { None }
}

// Writes what is noted.
fn tell_notes<E: Sink>(notes: &Option<Text>, errors: &mut E)
    ensures { TellsNotes notes.now (record { holds = E.holds errors.old; faults = E.fault_count errors.old })
        (record { holds = E.holds errors.new; faults = E.fault_count errors.new }) }
{
    if let Some(notes) = notes {
        let _status = say(errors, notes.as_slice(), 0);
    }
}

// Says why the program ended as it did.
fn tell_why<E: Sink>(alloc: Global, why: &Option<Why>, errors: &mut E)
    ensures { TellsWhy why.now (record { holds = E.holds errors.old; faults = E.fault_count errors.old })
        (record { holds = E.holds errors.new; faults = E.fault_count errors.new }) }
{
    let Some(why) = why else {
        return;
    };
    match why.text(alloc) {
        Ok(text) => {
            let _status = say(errors, text.as_slice(), 0);
        }
        Err(NoMemory) => {
            let _status = say(errors, why.headline().as_bytes(), 0);
        }
    }
}
