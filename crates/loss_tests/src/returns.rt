//! Clusters that come back: what is printed, and that a cluster which came back may be lost again at each place of a conversation.
use crate::several::{TALK, assert_lost};
use program_calls::assert_answer;
use std::sync::Wait;
use std::test::Fail;
use std::thread::Threads;
use test_systems::{HI, TWO};

const TWO_SAID: &str = "tty 0 4\na\nb\n\npid 16 exit 0\n";

const TWO_ITEMS: &str = "schedule 3\nrun 16 6\nrun 16 3\nrun 16 4\n";

const HI_SAID: &str = "tty 0 3\nhi\n\npid 16 exit 0\n";

const HI_ITEMS: &str = "schedule 2\nrun 16 6\nrun 16 4\n";

// A word for the return of a cluster that lives has no effect, and is used. Words at one place are looked at in their order. The process stays where
// its loss moved it, so that the loss of its new home is not covered, since the cluster that came back holds nothing of it.
static RETURNED: [(&[u8], &str, u8, &[&str]); 7] = [
    (
        b"sim crash:0@bus:1 return:0@bus:3 crash:0@bus:4",
        TWO,
        0,
        &[
            TWO_SAID,
            "crash 0 at 1\nreturn 0 at 3\ncrash 0 at 4\nbus 9 syncs 0 withheld 1\n",
            TWO_ITEMS,
        ],
    ),
    (
        b"sim crash:0@bus:1 return:0@bus:1",
        TWO,
        0,
        &[
            TWO_SAID,
            "crash 0 at 1\nreturn 0 at 2\nbus 8 syncs 0 withheld 1\n",
            TWO_ITEMS,
        ],
    ),
    (
        b"sim return:0@bus:1 crash:0@bus:1",
        TWO,
        0,
        &[
            TWO_SAID,
            "crash 0 at 1\nbus 7 syncs 0 withheld 1\n",
            TWO_ITEMS,
        ],
    ),
    (
        b"sim crash:0@bus:1 return:0@bus:1 return:0@bus:2 crash:0@bus:2 return:0@bus:4",
        TWO,
        0,
        &[
            TWO_SAID,
            "crash 0 at 1\nreturn 0 at 2\ncrash 0 at 3\nreturn 0 at 4\nbus 10 syncs 0 withheld 1\n",
            TWO_ITEMS,
        ],
    ),
    (
        b"sim crash:0@bus:1 return:0@bus:3 crash:0@bus:4",
        HI,
        0,
        &[
            HI_SAID,
            "crash 0 at 1\nreturn 0 at 3\ncrash 0 at 4\nbus 8 syncs 0 withheld 1\n",
            HI_ITEMS,
        ],
    ),
    (
        b"sim crash:0@bus:1 return:0@bus:2 crash:1@bus:5",
        TWO,
        7,
        &[
            "tty 0 2\na\n\npid 16 running\n",
            "crash 0 at 1\nreturn 0 at 2\ncrash 1 at 5\nlost 1 at 5\nbus 6 syncs 0 withheld 1\n",
            "schedule 1\nrun 16 6\n",
        ],
    ),
    (
        b"sim crash:0@bus:1 return:0@bus:2 crash:1@bus:5",
        HI,
        7,
        &[
            "tty 0 3\nhi\n\npid 16 running\n",
            "crash 0 at 1\nreturn 0 at 2\ncrash 1 at 5\nlost 1 at 5\nbus 6 syncs 0 withheld 1\n",
            "schedule 1\nrun 16 6\n",
        ],
    ),
];

// The same program in a system of three clusters, where its mode says when it gets a new backup.
const HALF: &str =
    "clusters 3\npager 1 2\nsyncreads 32\nsyncsteps 4096\nasm two 1\nli a7, 2\nli a0, 0\nla a1, m\nli a2, 2\necall\naddi a1, a1, 2\nli a0, 0\necall\nli a7, 1\nli a0, 0\necall\nm: .ascii \"a\\nb\\n\"\nend\nroot 0 1 half two 1000 0 0\n";

const FULL: &str =
    "clusters 3\npager 1 2\nsyncreads 32\nsyncsteps 4096\nasm two 1\nli a7, 2\nli a0, 0\nla a1, m\nli a2, 2\necall\naddi a1, a1, 2\nli a0, 0\necall\nli a7, 1\nli a0, 0\necall\nm: .ascii \"a\\nb\\n\"\nend\nroot 0 1 full two 1000 0 0\n";

// A halfback gets its new backup after its next step where the cluster that it lost has come back, and a fullback where its
// backup was lost and another cluster lives: behind that the loss of its home is covered, and before it is not.
static RENEWED: [(&[u8], &str, u8, &[&str]); 8] = [
    (
        b"sim crash:0@bus:1 return:0@bus:4",
        HALF,
        0,
        &[
            TWO_SAID,
            "crash 0 at 1\nreturn 0 at 4\nbus 9 syncs 0 withheld 1\n",
            TWO_ITEMS,
        ],
    ),
    (
        b"run crash:0@bus:1 return:0@bus:4",
        HALF,
        0,
        &[
            TWO_SAID,
            "crash 0 at 1\nreturn 0 at 4\nbus 9 syncs 0 withheld 1\n",
            TWO_ITEMS,
        ],
    ),
    (
        b"sim crash:0@bus:1 return:0@bus:4 crash:1@bus:6",
        HALF,
        7,
        &[
            "tty 0 4\na\nb\n\npid 16 running\n",
            "crash 0 at 1\nreturn 0 at 4\ncrash 1 at 6\nlost 1 at 6\nbus 7 syncs 0 withheld 1\n",
            "schedule 2\nrun 16 6\nrun 16 3\n",
        ],
    ),
    (
        b"sim crash:0@bus:1 return:0@bus:4 crash:1@bus:7",
        HALF,
        0,
        &[
            TWO_SAID,
            "crash 0 at 1\nreturn 0 at 4\ncrash 1 at 7\nbus 12 syncs 0 withheld 1\n",
            TWO_ITEMS,
        ],
    ),
    (
        b"sim crash:1@bus:1 return:1@bus:2 crash:0@bus:4",
        HALF,
        0,
        &[
            TWO_SAID,
            "crash 1 at 1\nreturn 1 at 2\ncrash 0 at 4\nbus 10 syncs 0 withheld 0\n",
            TWO_ITEMS,
        ],
    ),
    (
        b"sim crash:1@bus:1 crash:0@bus:3",
        HALF,
        7,
        &[
            "tty 0 4\na\nb\n\npid 16 running\n",
            "crash 1 at 1\ncrash 0 at 3\nlost 0 at 3\nbus 4 syncs 0 withheld 0\n",
            "schedule 2\nrun 16 6\nrun 16 3\n",
        ],
    ),
    (
        b"sim crash:1@bus:1 crash:0@bus:2",
        FULL,
        7,
        &[
            "tty 0 2\na\n\npid 16 running\n",
            "crash 1 at 1\ncrash 0 at 2\nlost 0 at 2\nbus 3 syncs 0 withheld 0\n",
            "schedule 1\nrun 16 6\n",
        ],
    ),
    (
        b"sim crash:1@bus:1 crash:0@bus:3",
        FULL,
        0,
        &[
            TWO_SAID,
            "crash 1 at 1\ncrash 0 at 3\nbus 9 syncs 0 withheld 0\n",
            TWO_ITEMS,
        ],
    ),
];

fn assert_returned<R: AllocGlobal + Threads + Wait + Sync>(
    rt: &R,
    line: &[u8],
    text: &str,
    status: u8,
    parts: &[&str],
) -> Result<(), Fail> {
    let report = parts.concat(rt.alloc())?;
    assert_answer(rt, line, text, status, report.as_str())
}

#[test]
fn a_lost_cluster_comes_back(rt: HostRuntime) -> Result<(), Fail> {
    for row in RETURNED.iter().chain(RENEWED.iter()) {
        assert_returned(&rt, row.0, row.1, row.2, row.3)?;
    }
    Ok(())
}

// A cluster is lost, comes back, is lost again and comes back again, all from a place on.
fn assert_again<R: AllocGlobal + Threads + Wait + Sync>(
    rt: &R,
    cluster: u32,
    at: u8,
) -> Result<(), Fail> {
    let at = u32::from(at);
    let (back, again, last) = (at + 2, at + 5, at + 6);
    let line = format!(in rt.alloc();
        "sim crash:{cluster}@bus:{at} return:{cluster}@bus:{back} crash:{cluster}@bus:{again} return:{cluster}@bus:{last}"
    )?;
    assert_lost(rt, line.as_bytes(), &TALK, true)
}

#[test]
fn one_cluster_is_lost_twice_at_each_place(rt: HostRuntime) -> Result<(), Fail> {
    for cluster in 0..3 {
        for at in 0..20 {
            assert_again(&rt, cluster, at)?;
        }
    }
    Ok(())
}

// Sixteen losses and returns of a cluster: as many words as there may be.
const MOST: &[u8] =
    b"sim crash:0@bus:1 return:0@bus:2 crash:0@bus:4 return:0@bus:5 crash:0@bus:7 return:0@bus:8 crash:0@bus:9 return:0@bus:10 crash:0@bus:11 return:0@bus:12 crash:0@bus:13 return:0@bus:14 crash:0@bus:15 return:0@bus:16 crash:0@bus:17 return:0@bus:18 crash:0@bus:19 return:0@bus:20 crash:0@bus:21 return:0@bus:22 crash:0@bus:23 return:0@bus:24 crash:0@bus:25 return:0@bus:26 crash:0@bus:27 return:0@bus:28 crash:0@bus:29 return:0@bus:30 crash:0@bus:31 return:0@bus:32";

#[test]
fn as_many_words_as_there_may_be(rt: HostRuntime) -> Result<(), Fail> {
    assert_lost(&rt, MOST, &TALK, true)
}
