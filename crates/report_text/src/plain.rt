//! What is printed of a kernel.
ghost use Rattle.std.specs.Prelude.{◌≡◌, ◌++◌, OnOk, IfOk, Some, map, string_bytes, ◌||◌};
ghost use Rattle.std.specs.List.{range_with_len};
ghost use Rattle.proc_state.specs.State.{can_take, state_of};
ghost use Rattle.sys_calls.specs.Next.{next_step, has_step};
ghost use Rattle.plain_kernel.specs.Kernel.{process_at, tty_at};
ghost use Rattle.report_text.specs.Report.{plain_report as plain_report_of, tty_part, pid_part, ttys_report, pids_report, status_text};

use bus_msg::text::end_line;
use plain_kernel::plain::Plain;
use proc_state::process::Process;
use std::alloc::{AllocError, Global};
use sys_calls::signals::can_take;
use sys_calls::stepping::can_step;
use t32_base::lists::{Bytes, Text};
use t32_base::process::{Pid, Status};
use t32_base::streams::NoMemory;

/// The bytes of each terminal, and how each process stands.
pub fn plain_report(alloc: Global, plain: &Plain) -> Result<Text, NoMemory>
    ensures { IfOk result (λ text. text ≡ plain_report_of plain.now) }
{
    let mut text = Bytes::new(alloc);
    put_ttys(alloc, &mut text, plain)?;
    put_pids(alloc, &mut text, plain)?;
    Ok(text)
}

fn put_ttys(alloc: Global, text: &mut Text, plain: &Plain) -> Result<(), NoMemory>
    ensures { OnOk result (text.new ≡ text.old ++ ttys_report plain.now (range_with_len 0 16)) }
{
    for tty in 0..16u8 {
        put_tty_of(alloc, text, plain, tty)?;
    }
    Ok(())
}

fn put_tty_of(alloc: Global, text: &mut Text, plain: &Plain, tty: u8) -> Result<(), NoMemory>
    ensures { OnOk result (text.new ≡ text.old ++ tty_part tty (tty_at plain.now tty)) }
{
    match plain.tty(tty) {
        Some(bytes) => put_tty(alloc, text, tty, bytes),
        None => Ok(()),
    }
}

/// The line of a terminal with its number of bytes, the bytes, and a line feed.
pub fn put_tty(alloc: Global, text: &mut Text, tty: u8, bytes: &[u8]) -> Result<(), NoMemory>
    ensures { OnOk result (text.new ≡ text.old ++ tty_part tty (Some bytes.now)) }
{
    let count = bytes.len();
    let line = format!(in alloc; "tty {tty} {count}\n")?;
    text.extend(line.as_bytes())?;
    text.extend(bytes)?;
    text.extend(b"\n")
}

fn put_pids(alloc: Global, text: &mut Text, plain: &Plain) -> Result<(), NoMemory>
    ensures { OnOk result (text.new ≡ text.old ++ pids_report plain.now (map (λ e. e.0) plain.now.processes)) }
{
    let pids = plain.pids()?;
    for pid in pids.as_slice() {
        put_pid_of(alloc, text, plain, *pid)?;
    }
    Ok(())
}

fn put_pid_of(alloc: Global, text: &mut Text, plain: &Plain, pid: Pid) -> Result<(), NoMemory>
    ensures { OnOk result (text.new ≡ text.old ++ pid_part pid (process_at plain.now pid)) }
{
    match plain.process(pid) {
        Some(process) => put_pid(alloc, text, pid, process),
        None => Ok(()),
    }
}

fn put_pid(alloc: Global, text: &mut Text, pid: Pid, process: &Process) -> Result<(), NoMemory>
    ensures { OnOk result (text.new ≡ text.old ++ pid_part pid (Some (state_of process.now))) }
{
    let number = pid.0;
    let stands = standing(alloc, process)?;
    let line = format!(in alloc; "pid {number} {stands}\n")?;
    text.extend(line.as_bytes())
}

/// How a process ended, or whether it has a step or can take a signal.
fn standing(alloc: Global, process: &Process) -> Result<String, AllocError>
    ensures { IfOk result (λ text. string_bytes text ≡ status_text process.now.small.status (has_step (next_step (state_of process.now)) || can_take (state_of process.now))) }
{
    match process.small.status {
        Status::Ended(end) => end_line(alloc, end),
        _ => {
            if can_step(process) || can_take(process) {
                String::from_str(alloc, "running")
            } else {
                String::from_str(alloc, "waiting")
            }
        }
    }
}
