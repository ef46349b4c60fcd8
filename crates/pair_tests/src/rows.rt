//! Whole outputs of one process that writes two lines, by hand: the log of a new backup of either kind, of a return, and of two losses of
//! which the second cuts the recovery of the first short.
use program_calls::assert_answer;
use std::alloc::{AllocError, Global};
use std::sync::Wait;
use std::test::Fail;
use std::thread::Threads;
use test_systems::TWO;

// The system of this process by its first two lines and its mode.
fn system(alloc: Global, head: &str, mode: &str) -> Result<String, AllocError> {
    let moded = TWO.replace(alloc, "quarter", mode)?;
    moded.replace(alloc, "clusters 2\npager 0 1\n", head)
}

const SAID: &str = "tty 0 4\na\nb\n\npid 16 exit 0\n";

const ITEMS: &str = "schedule 3\nrun 16 6\nrun 16 3\nrun 16 4\n";

const HALF_SAID: &str = "tty 0 2\na\n\npid 16 running\n";

const TWO_CLUSTERS: &str = "clusters 2\npager 0 1\n";

const THREE_CLUSTERS: &str = "clusters 3\npager 1 2\n";

const FOUR_CLUSTERS: &str = "clusters 4\npager 2 3\n";

// The words, the system, the status, and the report in parts.
struct Row {
    words: &'static str,
    head: &'static str,
    mode: &'static str,
    status: u8,
    parts: [&'static str; 4],
}

static ROWS: [Row; 5] = [
    // A fullback that moved gets its backup before its pages.
    Row {
        words: "crash:0@bus:1",
        head: THREE_CLUSTERS,
        mode: "full",
        status: 0,
        parts: [
            SAID,
            "crash 0 at 1\nbus 8 syncs 0 withheld 1\n",
            ITEMS,
            "log 8\n0 0 mail 16 at 6 out 0 tty 0 610a\n1 bus crash 0 place\n2 1 rebackup 16 to 2 standing\n3 1 fetch 16 0\n4 1 pageis 16 0\n5 1 mail 16 at 9 out 0 tty 0 620a\n6 1 exit 16 at 13 exit 0\n7 bus done\n",
        ],
    },
    // A halfback gets its own where the lost cluster is back, after its next letter.
    Row {
        words: "crash:0@bus:1 return:0@bus:4",
        head: THREE_CLUSTERS,
        mode: "half",
        status: 0,
        parts: [
            SAID,
            "crash 0 at 1\nreturn 0 at 4\nbus 9 syncs 0 withheld 1\n",
            ITEMS,
            "log 9\n0 0 mail 16 at 6 out 0 tty 0 610a\n1 bus crash 0 place\n2 1 fetch 16 0\n3 1 pageis 16 0\n4 bus return 0\n5 1 mail 16 at 9 out 0 tty 0 620a\n6 1 rebackup 16 at 9 to 0 fresh\n7 1 exit 16 at 13 exit 0\n8 bus done\n",
        ],
    },
    // A second loss cuts the recovery of a fullback short, which begins anew in a third cluster.
    Row {
        words: "crash:0@bus:1 crash:1@bus:4",
        head: FOUR_CLUSTERS,
        mode: "full",
        status: 0,
        parts: [
            SAID,
            "crash 0 at 1\ncrash 1 at 4\nbus 11 syncs 0 withheld 2\n",
            ITEMS,
            "log 11\n0 0 mail 16 at 6 out 0 tty 0 610a\n1 bus crash 0 place\n2 1 rebackup 16 to 2 standing\n3 1 fetch 16 0\n4 bus crash 1 place\n5 2 rebackup 16 to 3 standing\n6 2 fetch 16 0\n7 2 pageis 16 0\n8 2 mail 16 at 9 out 0 tty 0 620a\n9 2 exit 16 at 13 exit 0\n10 bus done\n",
        ],
    },
    // That of a quarterback ends there.
    Row {
        words: "crash:0@bus:1 crash:1@bus:4",
        head: FOUR_CLUSTERS,
        mode: "quarter",
        status: 7,
        parts: [
            HALF_SAID,
            "crash 0 at 1\ncrash 1 at 4\nlost 1 at 4\nbus 5 syncs 0 withheld 1\n",
            "schedule 1\nrun 16 6\n",
            "log 5\n0 0 mail 16 at 6 out 0 tty 0 610a\n1 bus crash 0 place\n2 1 fetch 16 0\n3 2 pageis 16 0\n4 bus crash 1 place\n",
        ],
    },
    // The cluster that came back is lost once more, and nothing stands in it.
    Row {
        words: "crash:0@bus:1 return:0@bus:3 crash:0@bus:4",
        head: TWO_CLUSTERS,
        mode: "quarter",
        status: 0,
        parts: [
            SAID,
            "crash 0 at 1\nreturn 0 at 3\ncrash 0 at 4\nbus 9 syncs 0 withheld 1\n",
            ITEMS,
            "log 9\n0 0 mail 16 at 6 out 0 tty 0 610a\n1 bus crash 0 place\n2 1 fetch 16 0\n3 bus return 0\n4 bus crash 0 place\n5 1 pageis 16 0\n6 1 mail 16 at 9 out 0 tty 0 620a\n7 1 exit 16 at 13 exit 0\n8 bus done\n",
        ],
    },
];

// A cluster that is lost and comes back within the look of its own letter begins anew in the same turn, and is lost there before it takes
// in what stands behind its return.
static AT_ONCE: Row = Row {
    words: "crash:0@bus:0 return:0@bus:1 crash:3@bus:2 crash:0@step:2",
    head: FOUR_CLUSTERS,
    mode: "quarter",
    status: 0,
    parts: [
        SAID,
        "crash 0 at 0\nreturn 0 at 1\ncrash 3 at 2\ncrash 0 at 3\nbus 10 syncs 0 withheld 0\n",
        ITEMS,
        "log 10\n0 bus crash 0 place\n1 bus return 0\n2 bus crash 3 place\n3 bus crash 0 step 2\n4 1 fetch 16 0\n5 2 pageis 16 0\n6 1 mail 16 at 6 out 0 tty 0 610a\n7 1 mail 16 at 9 out 0 tty 0 620a\n8 1 exit 16 at 13 exit 0\n9 bus done\n",
    ],
};

fn rows() -> &'static [Row; 5] {
    &ROWS
}

fn assert_row<R: AllocGlobal + Threads + Wait + Sync>(rt: &R, row: &Row) -> Result<(), Fail> {
    let text = system(rt.alloc(), row.head, row.mode)?;
    let report = row.parts.concat(rt.alloc())?;
    let line = ["sim --log ", row.words].concat(rt.alloc())?;
    assert_answer(
        rt,
        line.as_bytes(),
        text.as_str(),
        row.status,
        report.as_str(),
    )
}

// By `run` all but the log is the same: one cluster alone has anything to send, and losses and returns stand where the words name
// them.
fn assert_run<R: AllocGlobal + Threads + Wait + Sync>(rt: &R, row: &Row) -> Result<(), Fail> {
    let text = system(rt.alloc(), row.head, row.mode)?;
    let [said, losses, items, _] = row.parts;
    let report = [said, losses, items].concat(rt.alloc())?;
    let line = ["run ", row.words].concat(rt.alloc())?;
    assert_answer(
        rt,
        line.as_bytes(),
        text.as_str(),
        row.status,
        report.as_str(),
    )
}

#[test]
fn new_backups_and_returns_by_their_logs(rt: HostRuntime) -> Result<(), Fail> {
    for row in rows() {
        assert_row(&rt, row)?;
        assert_run(&rt, row)?;
    }
    Ok(())
}

#[test]
fn a_cluster_that_is_back_in_its_turn_goes_on_in_it(rt: HostRuntime) -> Result<(), Fail> {
    assert_row(&rt, &AT_ONCE)
}
