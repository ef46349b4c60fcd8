//! A signal that comes to a process in its kernel, and its take.
ghost use Rattle.std.specs.Prelude.{◌≡◌};
ghost use Rattle.proc_state.specs.Mail.{carries_signal as carries_signal_in};
ghost use Rattle.plain_kernel.specs.Maps.{TakesSignal, TakesWhere};

use proc_state::process::Process;
use std::collections::BTreeMap;
use sys_calls::signals::{can_take, take_signal};
use t32_base::letter::Body;
use t32_base::streams::NoMemory;

/// Whether what a letter says is a signal. Takes no memory.
pub fn carries_signal(body: &Body) -> bool
    ensures { result ≡ carries_signal_in body.now }
{
    match body {
        Body::Signal(_) => true,
        Body::Said(_) | Body::EndOf => false,
    }
}

/// The process with a pid takes the first signal that waits for it, where it is there and can take one, and the answer
/// is whether it did. After want of memory nothing is changed.
pub fn take_at(processes: &mut BTreeMap<u32, Process>, pid: u32) -> Result<bool, NoMemory>
    ensures { TakesSignal result processes.old.entries processes.new.entries pid }
{
    match processes.get_mut(&pid) {
        Some(process) => take_where(process),
        None => Ok(false),
    }
}

// A process takes the first signal that waits for it, where it can.
fn take_where(process: &mut Process) -> Result<bool, NoMemory>
    ensures { TakesWhere result process.old process.new }
{
    if !can_take(process) {
        return Ok(false);
    }
    let _signal = take_signal(process)?;
    Ok(true)
}
