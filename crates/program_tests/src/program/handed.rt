//! Which run the program hands out.
use crate::program::program::failed;
use cluster_run::life::Ran;
use plain_kernel::item::Item;
use program_calls::{call, call_for_run, sink, source};
use report_text::run::Ended;
use std::sync::Wait;
use std::test::Fail;
use std::thread::Threads;
use t32_base::process::Pid;
use t32_base::streams::NoMemory;
use test_asserts::same;
use test_systems::{CUT, HI};

// Whether the run came to its end, how long its log is, and how many lives it tells of.
type Handed = (bool, usize, usize);

fn handed(ran: &Ran) -> Handed {
    let finished = ran.run.ended == Ended::Finished;
    (finished, ran.run.log.len(), ran.lives.len())
}

// Whether the schedule is that of the example.
fn has_schedule(ran: &Ran) -> bool {
    let items = [Item::Run(Pid(16), 6), Item::Run(Pid(16), 4)];
    ran.run.items.as_slice() == items.as_slice()
}

// The status, and what of the run of the word `sim` is handed out.
fn simulated<R: AllocGlobal + Threads + Wait + Sync>(
    rt: &R,
) -> Result<(u8, Option<(Handed, bool)>), NoMemory> {
    let mut input = source(rt.alloc(), HI.as_bytes())?;
    let mut output = sink(rt.alloc())?;
    let (status, ran) = call_for_run(rt, b"sim", &mut input, &mut output)?;
    Ok((
        status,
        ran.as_ref().map(|ran| (handed(ran), has_schedule(ran))),
    ))
}

#[test]
fn the_run_is_handed_out(rt: HostRuntime) -> Result<(), Fail> {
    let wanted = (0, Some(((true, 3, 2), true)));
    same("the run", &simulated(&rt)?, &wanted)
}

#[test]
fn a_run_whose_report_the_sink_does_not_take_is_handed_out(rt: HostRuntime) -> Result<(), Fail> {
    let (answer, bytes, faults) = failed(&rt, b"run")?;
    let shown = (answer, bytes.as_slice(), faults);
    same("the run", &shown, &((5, true), b"tty 0".as_slice(), 1))
}

static WITHOUT: [(&[u8], &str, u8); 7] = [
    (b"plain", HI, 0),
    (b"check", HI, 0),
    (b"sim", CUT, 2),
    (b"run", CUT, 2),
    (b"sim 7", HI, 1),
    (b"sim crash:2@bus:0", HI, 1),
    (b"run crash:2@bus:0", HI, 1),
];

fn called<R: AllocGlobal + Threads + Wait + Sync>(
    rt: &R,
    line: &[u8],
    text: &str,
) -> Result<(u8, bool), NoMemory> {
    let mut input = source(rt.alloc(), text.as_bytes())?;
    let mut output = sink(rt.alloc())?;
    call(rt, line, &mut input, &mut output)
}

#[test]
fn without_a_run_none_is_handed_out(rt: HostRuntime) -> Result<(), Fail> {
    for row in WITHOUT.iter() {
        let answer = called(&rt, row.0, row.1)?;
        same("the line", &(row.0, answer), &(row.0, (row.2, false)))?;
    }
    Ok(())
}
