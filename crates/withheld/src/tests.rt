//! Logs of two processes that write, of which the loss of a cluster moves one.
ghost use Rattle.std.specs.Prelude.{◌≡◌, ◌+◌, ◌<◌, IfOk};
ghost use Rattle.withheld.specs.Worked.{cut, image, loss, two_and_one, two_of, waited, with_cut, writer, writes};

use crate::withheld;
use bus_msg::entry::{By, Cause, Dests, Entry, Post, What};
use bus_msg::shared::Shared;
use std::alloc::Global;
use std::test::Fail;
use sys_text::system::{Image, Root, System};
use t32_base::letter::{Body, Letter, To};
use t32_base::lists::{List, Text};
use t32_base::process::{ClusterNo, EndState, Mode, Pid, Regs, Small, Status};
use t32_base::shared_bytes::SharedBytes;
use t32_base::streams::NoMemory;

// Writes a and a line feed by its sixth step, b and a line feed by its ninth, and exits.
const WORDS: [u32; 13] = [
    0x0020_0893,
    0x0000_0513,
    0x0001_05b7,
    0x0305_8593,
    0x0020_0613,
    0x0000_0073,
    0x0025_8593,
    0x0000_0513,
    0x0000_0073,
    0x0010_0893,
    0x0000_0513,
    0x0000_0073,
    0x0a62_0a61,
];

// Does the same, but counts down from 28 between the two, so that its last letter goes out by its sixty-sixth step.
const WAITING_WORDS: [u32; 16] = [
    0x0020_0893,
    0x0000_0513,
    0x0001_05b7,
    0x03c5_8593,
    0x0020_0613,
    0x0000_0073,
    0x01c0_0293,
    0xfff2_8293,
    0xfe02_9ee3,
    0x0025_8593,
    0x0000_0513,
    0x0000_0073,
    0x0010_0893,
    0x0000_0513,
    0x0000_0073,
    0x0a62_0a61,
];

fn image(alloc: Global, words: &[u32]) -> Result<Image, NoMemory>
    ensures { IfOk result (λ made. made ≡ image words.now) }
{
    Ok(Image {
        name: Text::copy_of(alloc, b"two")?,
        pages: 1,
        entry: 0x10000,
        words: List::from_vec(words.to_vec(alloc)?),
    })
}

fn writer(home: u8, backup: u8) -> Root
    ensures { result ≡ writer home backup }
{
    Root {
        home: ClusterNo(home),
        backup: ClusterNo(backup),
        mode: Mode::Quarter,
        image: 0,
        limit: 1000,
        births: 0,
        tty: 0,
    }
}

// Process 16 in cluster 0 and process 17 in cluster 1, each with its backup in the other's cluster; the steps between two
// synchronisations, and the program of both.
fn two_of(alloc: Global, syncsteps: u32, words: &[u32]) -> Result<System, NoMemory>
    ensures { IfOk result (λ system. system ≡ two_of syncsteps words.now) }
{
    let mut images = List::new(alloc);
    images.push(image(alloc, words)?)?;
    let mut roots = List::new(alloc);
    roots.push(writer(0, 1))?;
    roots.push(writer(1, 0))?;
    Ok(System {
        clusters: 2,
        pager: (ClusterNo(0), ClusterNo(1)),
        syncreads: 32,
        syncsteps,
        images,
        roots,
        chans: List::new(alloc),
    })
}

// By its step `at` a process of the cluster `k` writes a byte and a line feed.
fn writes(
    alloc: Global,
    place: u64,
    k: u8,
    backup: u16,
    at: u64,
    byte: u8,
) -> Result<Entry, NoMemory>
    requires { k < 2 }
    ensures { IfOk result (λ entry. entry ≡ writes place k (16 + k) backup at byte) }
{
    let letter = Letter {
        from: Pid(16 + u32::from(k)),
        out: 0,
        to: To::Tty(0),
        body: Body::Said(SharedBytes::copy_of(alloc, &[byte, 10])?),
    };
    Ok(Entry {
        place,
        post: Post {
            by: By::Cluster(ClusterNo(k)),
            what: What::Mail { at, letter },
        },
        dests: Dests {
            clusters: backup,
            tty: Some(0),
        },
    })
}

// Cluster 0 is lost.
fn loss(place: u64) -> Entry
    ensures { result ≡ loss place }
{
    Entry {
        place,
        post: Post {
            by: By::Bus,
            what: What::Crash {
                k: ClusterNo(0),
                cause: Cause::Place,
            },
        },
        dests: Dests {
            clusters: 3,
            tty: None,
        },
    }
}

// Process 16 after its sixty-fourth step of the program that waits: it has written, and counted down to 0.
fn waited() -> Small
    ensures { result ≡ waited }
{
    let mut x = [0; 32];
    x[2] = 0x1_0100;
    x[10] = 2;
    x[11] = 0x1_003e;
    x[12] = 2;
    x[17] = 2;
    let mut ends = [EndState::Never; 32];
    ends[0] = EndState::Tty(0);
    Small {
        pid: Pid(16),
        regs: Regs { x, pc: 0x1_0028 },
        ends,
        handler: 0,
        frame: None,
        left: 936,
        steps: 64,
        births: 0,
        status: Status::Live,
        pages: 1,
    }
}

// It synchronises then.
fn cut(alloc: Global, place: u64) -> Result<Entry, NoMemory>
    ensures { IfOk result (λ entry. entry ≡ cut place) }
{
    Ok(Entry {
        place,
        post: Post {
            by: By::Cluster(ClusterNo(0)),
            what: What::Sync {
                pid: Pid(16),
                small: Shared::new(alloc, waited())?,
                read: List::new(alloc),
                took: None,
            },
        },
        dests: Dests {
            clusters: 3,
            tty: None,
        },
    })
}

// The first sends two letters and the second one.
fn two_and_one(alloc: Global) -> Result<Vec<Entry>, NoMemory>
    ensures { IfOk result (λ log. log.items ≡ two_and_one) }
{
    let mut log = Vec::new(alloc);
    log.push(writes(alloc, 0, 0, 2, 6, b'a')?)?;
    log.push(writes(alloc, 1, 1, 1, 6, b'a')?)?;
    log.push(writes(alloc, 2, 0, 2, 9, b'b')?)?;
    Ok(log)
}

// Each sends a letter, the first synchronises and sends another, and then it is moved.
fn with_cut(alloc: Global) -> Result<Vec<Entry>, NoMemory>
    ensures { IfOk result (λ log. log.items ≡ with_cut) }
{
    let mut log = Vec::new(alloc);
    log.push(writes(alloc, 0, 0, 2, 6, b'a')?)?;
    log.push(writes(alloc, 1, 1, 1, 6, b'a')?)?;
    log.push(cut(alloc, 2)?)?;
    log.push(writes(alloc, 3, 0, 2, 66, b'b')?)?;
    log.push(loss(4))?;
    Ok(log)
}

#[test]
fn the_letters_of_a_process_that_a_loss_moves_are_withheld(rt: HostRuntime) -> Result<(), Fail> {
    let alloc = rt.alloc();
    let system = two_of(alloc, 4096, &WORDS)?;
    let mut log = two_and_one(alloc)?;
    assert_eq!(rt; withheld(alloc, &system, &log)?, 0);
    log.push(loss(3))?;
    assert_eq!(rt; withheld(alloc, &system, &log)?, 2);
    Ok(())
}

#[test]
fn letters_before_a_synchronisation_are_not_withheld(rt: HostRuntime) -> Result<(), Fail> {
    let alloc = rt.alloc();
    let system = two_of(alloc, 64, &WAITING_WORDS)?;
    let log = with_cut(alloc)?;
    assert_eq!(rt; withheld(alloc, &system, &log)?, 1);
    Ok(())
}
