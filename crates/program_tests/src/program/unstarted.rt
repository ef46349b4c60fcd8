//! A thread that cannot be started ends `run`, however many of the others run already.
use program_calls::{call_by, sink, source};
use std::sync::Wait;
use std::sync::atomic::{AtomicU64, Ordering};
use std::test::Fail;
use std::thread::Threads;
use t32_base::gate::Gate;
use t32_base::process::ClusterNo;
use t32_base::streams::NoMemory;
use test_asserts::same;

// A ring of sixteen processes, each in a cluster of its own, round which a token goes three times: no cluster gets on without the
// others.
const RING: &str =
    "clusters 16\npager 0 1\nsyncreads 32\nsyncsteps 4096\nimage first 1\nwords 00300493 00200893 00100513 000105b7 07458593 00400613 00000073 00300893\nwords 00200513 000105b7 07458593 00400613 00000073 00200893 00000513 000105b7\nwords 07458593 00200613 00000073 000102b7 07428293 00028303 00130313 00628023\nwords fff48493 fa0490e3 00100893 00000513 00000073 20200a61\nend\nimage next 1\nwords 00300493 00300893 00100513 000105b7 07458593 00400613 00000073 00200893\nwords 00000513 000105b7 07458593 00200613 00000073 000102b7 07428293 00028303\nwords 00130313 00628023 00200893 00200513 000105b7 07458593 00400613 00000073\nwords fff48493 fa0490e3 00100893 00000513 00000073 20200a61\nend\nroot 0 1 quarter first 1000 0 0\nroot 1 2 quarter next 1000 0 1\nroot 2 3 quarter next 1000 0 2\nroot 3 4 quarter next 1000 0 3\nroot 4 5 quarter next 1000 0 4\nroot 5 6 quarter next 1000 0 5\nroot 6 7 quarter next 1000 0 6\nroot 7 8 quarter next 1000 0 7\nroot 8 9 quarter next 1000 0 8\nroot 9 10 quarter next 1000 0 9\nroot 10 11 quarter next 1000 0 10\nroot 11 12 quarter next 1000 0 11\nroot 12 13 quarter next 1000 0 12\nroot 13 14 quarter next 1000 0 13\nroot 14 15 quarter next 1000 0 14\nroot 15 0 quarter next 1000 0 15\nchan 1 2\nchan 2 3\nchan 3 4\nchan 4 5\nchan 5 6\nchan 6 7\nchan 7 8\nchan 8 9\nchan 9 10\nchan 10 11\nchan 11 12\nchan 12 13\nchan 13 14\nchan 14 15\nchan 15 16\nchan 16 1\n";

// How many clusters get a thread of their own: the first one runs where the others are started.
const STARTS: u64 = 15;

// A gate that refuses one of the threads, by how many were to be started before it.
#[derive(Drop)]
struct Refusing {
    refused: u64,
    asked: AtomicU64,
}

impl Gate for Refusing {
    fn before(&self, _cluster: ClusterNo, _place: u64) {}

    fn may_start(&self, _cluster: ClusterNo) -> bool {
        self.asked.fetch_add(1, Ordering::SeqCst) != self.refused
    }
}

// The status, whether something was written, and how often it was asked for a thread, where one of the threads is refused.
fn refused<R: AllocGlobal + Threads + Wait + Sync>(
    rt: &R,
    refused: u64,
) -> Result<(u8, bool, u64), NoMemory> {
    let gate = Refusing {
        refused,
        asked: AtomicU64::new(0),
    };
    let mut input = source(rt.alloc(), RING.as_bytes())?;
    let mut output = sink(rt.alloc())?;
    let (status, _) = call_by(rt, &gate, b"run", &mut input, &mut output)?;
    Ok((
        status,
        !output.bytes.is_empty(),
        gate.asked.load(Ordering::SeqCst),
    ))
}

#[test]
fn a_run_without_one_of_its_threads_ends(rt: HostRuntime) -> Result<(), Fail> {
    for nth in 0..STARTS {
        same(
            "the run without it",
            &refused(&rt, nth)?,
            &(6, false, STARTS),
        )?;
    }
    same(
        "the run with all",
        &refused(&rt, STARTS)?,
        &(0, true, STARTS),
    )
}
