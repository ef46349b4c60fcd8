//! The clusters of a run that doze or sleep, and who wakes them. No clause rests on it: a cluster that is woken for
//! nothing looks, and sleeps again.
use std::alloc::Global;
use std::sync::Wait;
use std::sync::atomic::{AtomicBool, AtomicU64, Ordering};
use std::thread::{Parker, yield_now};
use t32_base::process::ClusterNo;
use t32_base::streams::NoMemory;

// How often a cluster that dozes lets other threads run before it sleeps. To fall asleep and to be woken takes as long as
// some letters take, and a letter that comes meanwhile finds a cluster that dozes awake. So many are enough for a letter
// to pass round sixteen clusters on four processors, and few enough that a cluster to which none comes soon leaves its
// processor to those that compute.
const YIELDS: u32 = 100;

/// Which clusters lie: doze, or sleep. A letter wakes the home of its receiver alone; a cluster that lies on takes in what
/// it missed when it is woken next. The last one that lies down wakes all others, since the run ends when each has told
/// that nothing can move in it; a cluster that was lost lies until it has come back, and one that has done with the log, since that is
/// over, counts as one that lies, and wakes all when it goes.
///
/// No wake-up is lost, since all steps on these words and on the length of the log stand in one order: who is to sleep
/// lies down first and then looks at the length once more, and who adds an entry looks only then who lies.
#[derive(Drop)]
pub struct Sleepers {
    // A bit for each cluster that lies, or is about to.
    asleep: AtomicU64,
    // And for each that has gone.
    gone: AtomicU64,
    all: u64,
    // Whether no cluster that has not begun is to begin.
    given_up: AtomicBool,
    parkers: Vec<Parker>,
}

impl Sleepers {
    /// No cluster of so many sleeps.
    pub fn new(alloc: Global, clusters: u8) -> Result<Sleepers, NoMemory> {
        let mut parkers = Vec::new(alloc);
        let mut all = 0;
        for number in 0..clusters {
            parkers.push(Parker::new())?;
            all |= bit_of(ClusterNo(number));
        }
        Ok(Sleepers {
            asleep: AtomicU64::new(0),
            gone: AtomicU64::new(0),
            all,
            given_up: AtomicBool::new(false),
            parkers,
        })
    }

    /// A cluster is to doze or to sleep: whoever adds an entry for it from now on wakes it. Answers whether another is up.
    pub fn lie_down(&self, number: ClusterNo) -> bool {
        let bit = bit_of(number);
        let before = self.asleep.fetch_or(bit, Ordering::SeqCst);
        if before | bit | self.gone.load(Ordering::SeqCst) == self.all {
            self.wake_these(self.all ^ bit);
            return false;
        }
        true
    }

    /// Dozes until woken, after `lie_down`, but not for long: it lets other threads run.
    pub fn doze(&self, number: ClusterNo) {
        for _ in 0..YIELDS {
            if !self.lies(number) {
                return;
            }
            yield_now();
        }
    }

    /// Sleeps until woken, after `lie_down`. A wake-up of one that dozed, or that came too late for an earlier sleep, does
    /// not end it.
    pub fn sleep<R: Wait>(&self, rt: &R, number: ClusterNo) {
        let Some(parker) = self.parkers.get(usize::from(number.0)) else {
            return;
        };
        for _ in rt.forever() {
            if !self.lies(number) {
                return;
            }
            parker.park(rt);
        }
    }

    /// A cluster that lay down lies no longer, or gets up before it slept. Where it was woken there is nothing to write, and
    /// the others, who look at the same word, need not fetch it again.
    pub fn get_up(&self, number: ClusterNo) {
        if self.lies(number) {
            self.asleep.fetch_and(!bit_of(number), Ordering::SeqCst);
        }
    }

    // Whether a cluster lies still, since none has woken it.
    fn lies(&self, number: ClusterNo) -> bool {
        self.asleep.load(Ordering::SeqCst) & bit_of(number) != 0
    }

    /// Wakes a cluster, if it lies.
    pub fn wake(&self, number: ClusterNo) {
        let bit = bit_of(number);
        if self.asleep.load(Ordering::SeqCst) & bit != 0 {
            self.wake_these(bit);
        }
    }

    /// Wakes each that lies: a cluster was lost or has come back, which concerns all.
    pub fn wake_all(&self) {
        self.wake_these(self.all);
    }

    /// A cluster has done with the log, and goes. Wakes each that lies.
    pub fn go(&self, number: ClusterNo) {
        self.gone.fetch_or(bit_of(number), Ordering::SeqCst);
        self.wake_these(self.all);
    }

    /// No thread could be started for a cluster: each that has not begun ends the run for want of memory.
    pub fn give_up(&self) {
        self.given_up.store(true, Ordering::SeqCst);
    }

    /// Whether a cluster that begins is to end the run for want of memory.
    pub fn has_given_up(&self) -> bool {
        self.given_up.load(Ordering::SeqCst)
    }

    // Wakes those of these that lie.
    fn wake_these(&self, these: u64) {
        let woken = self.asleep.fetch_and(!these, Ordering::SeqCst) & these;
        for (place, parker) in self.parkers.iter().enumerate() {
            if woken & bit_at(place) != 0 {
                parker.unpark();
            }
        }
    }
}

fn bit_of(number: ClusterNo) -> u64 {
    bit_at(usize::from(number.0))
}

fn bit_at(place: usize) -> u64 {
    1u64 << (place % 64)
}
