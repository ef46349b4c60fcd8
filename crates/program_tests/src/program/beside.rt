//! The clusters of `run` run beside each other.
use program_calls::{call_by, sink, source};
use std::sync::Wait;
use std::sync::atomic::{AtomicU64, Ordering};
use std::test::Fail;
use std::thread::Threads;
use t32_base::gate::Gate;
use t32_base::process::ClusterNo;
use t32_base::streams::NoMemory;
use test_asserts::same;
use test_systems::TWO_HI;

const BOTH: &str = "tty 0 3\nhi\n\ntty 1 3\nhi\n\npid 16 exit 0\npid 17 exit 0\n";

// How often a cluster looks whether the other one has come to its gate.
const MOST_LOOKS: u64 = 100_000_000;

// A gate at which the first two clusters meet, each before its first post.
#[derive(Drop)]
struct Meeting {
    first: AtomicU64,
    second: AtomicU64,
    failures: AtomicU64,
}

impl Meeting {
    fn new() -> Meeting {
        Meeting {
            first: AtomicU64::new(0),
            second: AtomicU64::new(0),
            failures: AtomicU64::new(0),
        }
    }

    // Tells that one has come, and waits for the other, but not for ever.
    fn meet(&self, mine: &AtomicU64, other: &AtomicU64) {
        if mine.load(Ordering::SeqCst) == 1 {
            return;
        }
        mine.store(1, Ordering::SeqCst);
        for _ in 0..MOST_LOOKS {
            if other.load(Ordering::SeqCst) == 1 {
                return;
            }
        }
        self.failures.store(1, Ordering::SeqCst);
    }
}

impl Gate for Meeting {
    fn before(&self, cluster: ClusterNo, _place: u64) {
        if cluster.0 == 0 {
            self.meet(&self.first, &self.second);
        } else {
            self.meet(&self.second, &self.first);
        }
    }
}

// The status, and what was written, where the two clusters of a system meet at this gate.
fn met<R: AllocGlobal + Threads + Wait + Sync>(
    rt: &R,
    meeting: &Meeting,
) -> Result<(u8, Vec<u8>), NoMemory> {
    let mut input = source(rt.alloc(), TWO_HI.as_bytes())?;
    let mut output = sink(rt.alloc())?;
    let (status, _) = call_by(rt, meeting, b"run", &mut input, &mut output)?;
    Ok((status, output.bytes))
}

#[test]
fn clusters_run_beside_each_other(rt: HostRuntime) -> Result<(), Fail> {
    let meeting = Meeting::new();
    let (status, written) = met(&rt, &meeting)?;
    same("the gate", &meeting.failures.load(Ordering::SeqCst), &0)?;
    let came = (
        meeting.first.load(Ordering::SeqCst),
        meeting.second.load(Ordering::SeqCst),
    );
    same("who came to the gate", &came, &(1, 1))?;
    let shown = (status, written.starts_with(BOTH.as_bytes()));
    same("the answer", &shown, &(0, true))
}
