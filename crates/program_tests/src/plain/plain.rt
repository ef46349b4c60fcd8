//! Runs of the kernel without failures by the word `plain`.
use program_calls::assert_answer;
use std::sync::Wait;
use std::test::Fail;
use std::thread::Threads;
use test_systems::{
    BAD, CHANNEL, CHANNEL_SCHEDULE, COMMENTED, EARLY, FORKER, HI, LINKED, MISSING, NO_STEPS, PAIR,
    SIGNALLED, SIGNALLER, SPIN, TOO_MANY_STEPS, WAIT, WHOLE,
};

static DEFAULT_RUNS: [(&str, &str); 8] = [
    (SIGNALLER, STRUCK),
    (EARLY, "tty 0 0\n\npid 16 exit 0\npid 32 exit 0\n"),
    (
        SIGNALLED,
        "tty 0 2\nab\ntty 1 2\nk\n\npid 16 killed 7\npid 17 exit 0\n",
    ),
    (HI, "tty 0 3\nhi\n\npid 16 exit 0\n"),
    (COMMENTED, "tty 0 3\nhi\n\npid 16 exit 0\n"),
    (BAD, "tty 0 0\n\npid 16 trap 2\n"),
    (SPIN, "tty 0 0\n\npid 16 limit\n"),
    (PAIR, "tty 2 0\n\ntty 3 0\n\npid 16 trap 2\npid 17 trap 2\n"),
];

#[test]
fn the_default_run_is_reported(rt: HostRuntime) -> Result<(), Fail> {
    for (text, report) in DEFAULT_RUNS {
        assert_answer(&rt, b"plain", text, 0, report)?;
    }
    Ok(())
}

// What the program answers to a system with a schedule behind it.
fn assert_scheduled<R: AllocGlobal + Threads + Wait + Sync>(
    rt: &R,
    system: &str,
    schedule: &str,
    status: u8,
    written: &str,
) -> Result<(), Fail> {
    let text = format!(in rt.alloc(); "{system}{schedule}")?;
    assert_answer(rt, b"plain", text.as_str(), status, written)
}

const WAITS: &str = "tty 0 0\n\npid 16 waiting\npid 17 waiting\n";

const READ: &str = "tty 0 2\nx\n\npid 16 exit 0\npid 17 exit 0\n";

static CHANNELS: [(&str, &str, u8, &str); 6] = [
    (WAIT, "", 0, WAITS),
    (WAIT, "schedule 2\nrun 16 4\nrun 17 4\n", 0, WAITS),
    (
        WAIT,
        "schedule 2\nrun 16 4\nrun 16 1\n",
        3,
        "t32: schedule item 1\n",
    ),
    (CHANNEL, "", 0, READ),
    (CHANNEL, CHANNEL_SCHEDULE, 0, READ),
    (LINKED, "", 0, "tty 0 0\n\npid 16 trap 2\npid 32 trap 2\n"),
];

#[test]
fn a_channel_carries_letters_between_two_roots(rt: HostRuntime) -> Result<(), Fail> {
    for (system, schedule, status, written) in CHANNELS {
        assert_scheduled(&rt, system, schedule, status, written)?;
    }
    Ok(())
}

static SCHEDULES: [(&str, u8, &str); 7] = [
    (WHOLE, 0, "tty 0 3\nhi\n\npid 16 exit 0\n"),
    ("schedule 1\nrun 16 6", 0, "tty 0 3\nhi\n\npid 16 running\n"),
    ("schedule 0\n", 0, "tty 0 0\n\npid 16 running\n"),
    (TOO_MANY_STEPS, 3, "t32: schedule item 1\n"),
    (NO_STEPS, 3, "t32: schedule item 0\n"),
    (MISSING, 3, "t32: schedule item 2\n"),
    ("schedule\n", 3, "t32: schedule item 0\n"),
];

#[test]
fn a_schedule_behind_the_text_is_followed(rt: HostRuntime) -> Result<(), Fail> {
    for (schedule, status, written) in SCHEDULES {
        assert_scheduled(&rt, HI, schedule, status, written)?;
    }
    Ok(())
}

const FORKED: &str = "tty 0 2\nc\n\npid 16 exit 0\npid 32 exit 0\n";

const BORN: &str = "tty 0 0\n\npid 16 running\npid 32 running\n";

const BORN_ELSEWHERE: &str = "tty 0 0\n\npid 16 running\npid 33 running\n";

// A fork is an item of its own, and its child gets any pid that no process has. It is refused where the process is not there or does not stand
// before a fork, as once its children are all born.
static FORKS: [(&str, u8, &str); 10] = [
    ("", 0, FORKED),
    (
        "schedule 7\nrun 16 1\nfork 16 32\nrun 32 7\nrun 16 5\nrun 32 4\nrun 32 1\nrun 16 1\n",
        0,
        FORKED,
    ),
    ("schedule 2\nrun 16 1\nfork 16 32\n", 0, BORN),
    ("schedule 2\nrun 16 1\nfork 16 33\n", 0, BORN_ELSEWHERE),
    (
        "schedule 2\nrun 16 1\nfork 16 16\n",
        3,
        "t32: schedule item 1\n",
    ),
    (
        "schedule 2\nrun 16 1\nfork 17 32\n",
        3,
        "t32: schedule item 1\n",
    ),
    ("schedule 1\nfork 16 32\n", 3, "t32: schedule item 0\n"),
    ("schedule 1\nrun 16 2\n", 3, "t32: schedule item 0\n"),
    (
        "schedule 3\nrun 16 1\nfork 16 32\nfork 16 48\n",
        3,
        "t32: schedule item 2\n",
    ),
    (
        "schedule 3\nrun 16 1\nfork 16 32\nfork 32 48\n",
        3,
        "t32: schedule item 2\n",
    ),
];

#[test]
fn a_schedule_says_where_a_process_forks(rt: HostRuntime) -> Result<(), Fail> {
    for (schedule, status, written) in FORKS {
        assert_scheduled(&rt, FORKER, schedule, status, written)?;
    }
    Ok(())
}

const STRUCK: &str = "tty 0 2\ns\n\npid 16 exit 0\n";

// A take is an item of its own, and no run waits for it. It is refused where no signal has come yet, where the handler runs, and where
// the process is not there.
static TAKES: [(&str, u8, &str); 6] = [
    (
        "schedule 4\nrun 16 9\ntake 16\nrun 16 6\nrun 16 6\n",
        0,
        STRUCK,
    ),
    ("schedule 1\nrun 16 9\n", 0, "tty 0 0\n\npid 16 running\n"),
    (
        "schedule 2\nrun 16 9\nrun 16 4\n",
        0,
        "tty 0 0\n\npid 16 exit 0\n",
    ),
    (
        "schedule 2\nrun 16 8\ntake 16\n",
        3,
        "t32: schedule item 1\n",
    ),
    (
        "schedule 3\nrun 16 9\ntake 16\ntake 16\n",
        3,
        "t32: schedule item 2\n",
    ),
    (
        "schedule 2\nrun 16 9\ntake 17\n",
        3,
        "t32: schedule item 1\n",
    ),
];

#[test]
fn a_schedule_says_where_a_signal_is_taken(rt: HostRuntime) -> Result<(), Fail> {
    for (schedule, status, written) in TAKES {
        assert_scheduled(&rt, SIGNALLER, schedule, status, written)?;
    }
    Ok(())
}

// The text with a schedule behind it is none that `check` takes.
#[test]
fn a_schedule_behind_the_text_is_not_checked(rt: HostRuntime) -> Result<(), Fail> {
    for (schedule, _, _) in SCHEDULES {
        let text = format!(in rt.alloc(); "{HI}{schedule}")?;
        let line = "t32: system line 10 rule 2\n";
        assert_answer(&rt, b"check", text.as_str(), 2, line)?;
    }
    Ok(())
}
