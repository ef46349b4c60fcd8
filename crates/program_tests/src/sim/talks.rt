//! Runs of clusters by the word `sim` whose processes send letters to each other, or share a home. The expected
//! schedules follow from the programs and the rule of the turns, by hand: the first item of each process is
//! counted from its first instruction to what it sends first, and each later one from there to the next.
use program_calls::assert_answer;
use std::test::Fail;
use test_systems::{BUSY, CONVERSATION, LINKED, NEIGHBOURS, TALK, THREE, WAIT, WAITING_NEIGHBOURS};

// Both trap at once: each sends an end letter to the other, and then its exit.
const LINKED_ENDS: &str = "tty 0 0\n\npid 16 trap 2\npid 32 trap 2\n";

const LINKED_ITEMS: &str = "schedule 4\nrun 16 2\nrun 32 2\nrun 16 1\nrun 32 1\n";

const NEIGHBOURS_ENDS: &str = "tty 0 0\n\ntty 1 0\n\npid 16 trap 2\npid 32 trap 2\n";

const NEIGHBOURS_ITEMS: &str = "schedule 2\nrun 16 2\nrun 32 2\n";

// Nothing is sent. The schedule has the steps in which each came to its read.
const WAIT_ENDS: &str = "tty 0 0\n\npid 16 waiting\npid 17 waiting\n";

const WAIT_ITEMS: &str = "schedule 2\nrun 16 4\nrun 17 4\n";

const WAITING_NEIGHBOURS_ENDS: &str = "tty 0 0\n\npid 16 waiting\npid 32 waiting\n";

const WAITING_NEIGHBOURS_ITEMS: &str = "schedule 2\nrun 16 4\nrun 32 4\n";

// The writer sends its letter, and the reader what it read. Then both close: an end letter and an exit each.
const TALK_ENDS: &str = "tty 0 2\nx\n\npid 16 exit 0\npid 17 exit 0\n";

const TALK_ITEMS: &str =
    "schedule 6\nrun 17 6\nrun 16 10\nrun 17 4\nrun 16 4\nrun 17 1\nrun 16 1\n";

// The questions and the answers cross: the first answer comes before the second question. Then the asker prints
// both, and closes its ends one after the other.
const CONVERSATION_ENDS: &str =
    "tty 0 20\ncluster 1\ncluster 2\n\ntty 1 0\n\ntty 2 0\n\npid 16 exit 0\npid 17 exit 1\npid 18 exit 1\n";

const CONVERSATION_ITEMS: &str =
    "schedule 13\nrun 16 7\nrun 17 19\nrun 16 9\nrun 18 19\nrun 16 15\nrun 16 13\nrun 16 5\nrun 17 13\nrun 16 3\nrun 17 1\nrun 18 13\nrun 16 4\nrun 18 1\n";

// One turn each, in rising order, cyclically.
const THREE_ENDS: &str =
    "tty 0 2\naa\ntty 1 2\nbb\ntty 2 2\ncc\npid 16 exit 0\npid 32 exit 0\npid 48 exit 0\n";

const THREE_ITEMS: &str =
    "schedule 9\nrun 16 6\nrun 32 6\nrun 48 6\nrun 16 2\nrun 32 2\nrun 48 2\nrun 16 4\nrun 32 4\nrun 48 4\n";

// A turn has 64 steps at most, so the other has sent all that it sends before the first has made 200.
const BUSY_ENDS: &str = "tty 0 0\n\ntty 1 3\nhi\n\npid 16 limit\npid 32 exit 0\n";

const BUSY_ITEMS: &str = "schedule 3\nrun 32 6\nrun 32 4\nrun 16 202\n";

// A system, what `plain` prints of it, how many entries the log has, and the schedule.
static TALKS: [(&str, &str, u32, &str); 8] = [
    (LINKED, LINKED_ENDS, 5, LINKED_ITEMS),
    (NEIGHBOURS, NEIGHBOURS_ENDS, 3, NEIGHBOURS_ITEMS),
    (WAIT, WAIT_ENDS, 1, WAIT_ITEMS),
    (
        WAITING_NEIGHBOURS,
        WAITING_NEIGHBOURS_ENDS,
        1,
        WAITING_NEIGHBOURS_ITEMS,
    ),
    (TALK, TALK_ENDS, 7, TALK_ITEMS),
    (CONVERSATION, CONVERSATION_ENDS, 14, CONVERSATION_ITEMS),
    (THREE, THREE_ENDS, 10, THREE_ITEMS),
    (BUSY, BUSY_ENDS, 4, BUSY_ITEMS),
];

#[test]
fn processes_talk_and_share_a_home(rt: HostRuntime) -> Result<(), Fail> {
    for (system, ends, entries, items) in TALKS {
        let report = format!(in rt.alloc();
            "{ends}crash none\nbus {entries} syncs 0 withheld 0\n{items}"
        )?;
        assert_answer(&rt, b"sim", system, 0, report.as_str())?;
    }
    Ok(())
}

#[test]
fn the_kernel_without_failures_makes_the_same_of_the_schedule(rt: HostRuntime) -> Result<(), Fail> {
    for (system, ends, _, items) in TALKS {
        let pasted = format!(in rt.alloc(); "{system}{items}")?;
        assert_answer(&rt, b"plain", pasted.as_str(), 0, ends)?;
    }
    Ok(())
}

#[test]
fn the_kernel_without_failures_makes_the_same_of_its_own_order(
    rt: HostRuntime,
) -> Result<(), Fail> {
    for (system, ends, _, _) in TALKS {
        assert_answer(&rt, b"plain", system, 0, ends)?;
    }
    Ok(())
}
