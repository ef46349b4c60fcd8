//! Runs of clusters on threads: what is printed does not hang on their order.
ghost use Rattle.std.specs.Prelude.{◌≡◌, IfOk, true};
ghost use Rattle.std.specs.Arc.{arc_value};
ghost use Rattle.sys_text.specs.Valid.{is_system};

use cluster_run::life::Ran;
use cluster_threads::running::run;
use plain_kernel::plain::run as run_items;
use report_text::plain::plain_report;
use report_text::whole::{log_text, report};
use std::alloc::Global;
use std::sync::{Arc, Wait};
use std::test::Fail;
use std::thread::Threads;
use sys_text::read_system;
use sys_text::system::System;
use t32_base::gate::OpenGate;
use t32_base::lists::Text;
use t32_base::streams::NoMemory;
use test_asserts::same;
use test_systems::{CONVERSATION_IMAGES, HI, RING};

const WHOLE: &str =
    "tty 0 3\nhi\n\npid 16 exit 0\ncrash none\nbus 3 syncs 0 withheld 0\nschedule 2\nrun 16 6\nrun 16 4\n";

const RING_ENDS: &str =
    "tty 0 6\nd\nh\nl\n\ntty 1 6\na\ne\ni\n\ntty 2 6\nb\nf\nj\n\ntty 3 6\nc\ng\nk\n\npid 16 exit 0\npid 17 exit 0\npid 18 exit 0\npid 19 exit 0\n";

// Which of the two is heard first is not said.
static CONVERSATION_ENDS: [&str; 2] = [
    "tty 0 20\ncluster 1\ncluster 2\n\ntty 1 0\n\ntty 2 0\n\npid 16 exit 0\npid 17 exit 1\npid 18 exit 1\n",
    "tty 0 20\ncluster 2\ncluster 1\n\ntty 1 0\n\ntty 2 0\n\npid 16 exit 0\npid 17 exit 1\npid 18 exit 1\n",
];

fn shared(alloc: Global, system: System) -> Result<Arc<System>, NoMemory>
    ensures { IfOk result (λ shared. arc_value shared ≡ system) }
{
    Ok(Arc::new(alloc, system)?)
}

// The run of a system on threads.
fn run_of<R: AllocGlobal + Threads + Wait + Sync>(rt: &R, system: &Arc<System>) -> Result<Ran, Fail>
    requires { is_system (arc_value system.now) ≡ true }
{
    Ok(run(rt, rt.alloc(), system, &[], &OpenGate)?)
}

fn assert_printed(alloc: Global, system: &System, ran: &Ran) -> Result<(), Fail>
    requires { is_system system.now ≡ true }
{
    let plain = run_items(alloc, system, ran.run.items.as_slice())?;
    let text = report(alloc, &plain, &ran.run)?;
    same("the report", &text.as_slice(), &WHOLE.as_bytes())
}

// How many entries the log has, whether it is printed, and how many lives the run tells of.
fn log_of(alloc: Global, ran: &Ran) -> Result<(usize, bool, usize), NoMemory> {
    let log = log_text(alloc, ran.run.log.as_slice())?;
    Ok((ran.run.log.len(), !log.is_empty(), ran.lives.len()))
}

fn assert_run<R: AllocGlobal + Threads + Wait + Sync>(
    rt: &R,
    system: &Arc<System>,
) -> Result<(), Fail>
    requires { is_system (arc_value system.now) ≡ true }
{
    let ran = run_of(rt, system)?;
    assert_printed(rt.alloc(), system, &ran)?;
    same("the log", &log_of(rt.alloc(), &ran)?, &(3, true, 2))
}

fn system_of(alloc: Global, text: &str) -> Result<Arc<System>, Fail>
    ensures { IfOk result (λ shared. is_system (arc_value shared) ≡ true) }
{
    let system = read_system(alloc, text.as_bytes())?;
    Ok(shared(alloc, system)?)
}

#[test]
fn a_run_on_threads_is_printed(rt: HostRuntime) -> Result<(), Fail> {
    let system = system_of(rt.alloc(), HI)?;
    assert_run(&rt, &system)
}

// What the kernel prints of the schedule of a run.
fn printed<R: AllocGlobal + Threads + Wait + Sync>(
    rt: &R,
    system: &Arc<System>,
) -> Result<Text, Fail>
    requires { is_system (arc_value system.now) ≡ true }
{
    let ran = run_of(rt, system)?;
    printed_of(rt.alloc(), system, &ran)
}

fn printed_of(alloc: Global, system: &System, ran: &Ran) -> Result<Text, Fail>
    requires { is_system system.now ≡ true }
{
    let plain = run_items(alloc, system, ran.run.items.as_slice())?;
    Ok(plain_report(alloc, &plain)?)
}

fn is_one_of(text: &[u8], ends: &[&str]) -> bool {
    ends.iter().any(|end| text == end.as_bytes())
}

fn assert_ends<R: AllocGlobal + Threads + Wait + Sync>(
    rt: &R,
    system: &Arc<System>,
    ends: &[&str],
) -> Result<(), Fail>
    requires { is_system (arc_value system.now) ≡ true }
{
    let text = printed(rt, system)?;
    same("one of the ends", &is_one_of(text.as_slice(), ends), &true)
}

// Runs a system on threads a hundred times. The schedule of each run leads the kernel to one of these ends.
fn ends_alike<R: AllocGlobal + Threads + Wait + Sync>(
    rt: &R,
    text: &str,
    ends: &[&str],
) -> Result<(), Fail> {
    let system = system_of(rt.alloc(), text)?;
    for _ in 0..100 {
        assert_ends(rt, &system, ends)?;
    }
    Ok(())
}

#[test]
fn each_of_many_runs_ends_alike(rt: HostRuntime) -> Result<(), Fail> {
    ends_alike(&rt, RING, &[RING_ENDS])?;
    ends_alike(&rt, CONVERSATION_IMAGES, &CONVERSATION_ENDS)
}
