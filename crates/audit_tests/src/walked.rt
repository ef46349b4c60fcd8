//! The walk over printed logs. They are what `sim` prints with `--log` of systems of the examples, each with its losses: a conversation
//! with a cluster that comes back, a server with two children, a fullback that is moved three times, and a worker that takes signals.
ghost use Rattle.std.specs.Prelude.{◌≡◌, true, IfOk, IsTrue};
ghost use Rattle.sys_text.specs.Valid.{is_system};
ghost use Rattle.audited_log.specs.State.{IsOfSomeLog};

use audited_log::state::AuditedLog;
use entry_lines::read_told;
use std::alloc::Global;
use std::test::Fail;
use sys_text::read_system;
use sys_text::system::System;
use test_asserts::same;
use test_systems::{CONVERSATION, SERVER};

const RENEWED: &str =
    "clusters 4\npager 2 3\nsyncreads 32\nsyncsteps 4096\nimage talk 1\nwords 00300493 00200893 00000513 000105b7 04458593 00200613 00000073 000102b7\nwords 04428293 00028303 00130313 00628023 fff48493 fc0498e3 00100893 00000513\nwords 00000073 00000a61\nend\nroot 0 1 full talk 200 0 0\n";

const SIGNALS: &str =
    "clusters 3\npager 0 1\nsyncreads 32\nsyncsteps 4096\nimage worker 1\nwords 00010537 05450513 00700893 00000073 00300893 00100513 000105b7 0b058593\nwords 00400613 00000073 02050063 00050613 00200893 00100513 000105b7 0b058593\nwords 00000073 fcdff06f 00100893 00000513 00000073 00100293 02551263 00200893\nwords 00000513 000105b7 0a058593 00600613 00000073 00900893 00000073 00200893\nwords 00000513 000105b7 0a858593 00500613 00000073 00100893 00300513 00000073\nwords 69616761 00000a6e 706f7473 0000000a 20202020\nend\nimage boss 1\nwords 00100413 00f00493 00200893 00100513 000105b7 07858593 00400613 00000073\nwords 00300893 00100513 000105b7 07858593 00400613 00000073 00050e63 00800893\nwords 01000513 00040593 00000073 00048413 fb9ff06f 00200893 00000513 000105b7\nwords 07c58593 00500613 00000073 00100893 00000513 00000073 6b726f77 656e6f67\nwords 0000000a\nend\nroot 0 1 quarter worker 1000 0 0\nroot 1 2 quarter boss 1000 0 1\nchan 1 2\n";

// `sim crash:1@bus:2 return:1@bus:5 crash:1@bus:9`
static CONVERSATION_LOG: [&str; 19] = [
    "0 0 mail 16 at 7 out 1 to 17 end 1 77686f3f0a",
    "1 1 mail 17 at 19 out 1 to 16 end 1 636c757374657220310a",
    "2 bus crash 1 place",
    "3 0 mail 16 at 16 out 2 to 18 end 1 77686f3f0a",
    "4 2 fetch 17 0",
    "5 bus return 1",
    "6 0 pageis 17 0",
    "7 0 mail 16 at 31 out 0 tty 0 636c757374657220310a",
    "8 2 mail 18 at 19 out 1 to 16 end 2 636c757374657220320a",
    "9 bus crash 1 place",
    "10 0 mail 16 at 44 out 0 tty 0 636c757374657220320a",
    "11 0 mail 16 at 49 out 1 to 17 end 1 eof",
    "12 2 mail 17 at 32 out 1 to 16 end 1 eof",
    "13 0 mail 16 at 52 out 2 to 18 end 1 eof",
    "14 2 mail 18 at 32 out 1 to 16 end 2 eof",
    "15 0 exit 16 at 56 exit 0",
    "16 2 exit 17 at 33 exit 1",
    "17 2 exit 18 at 33 exit 1",
    "18 bus done",
];

// `sim crash:0@bus:8`
static SERVER_LOG: [&str; 27] = [
    "0 1 mail 17 at 6 out 1 to 16 end 1 68656c6c6f0a",
    "1 2 mail 18 at 6 out 1 to 16 end 2 616761696e0a",
    "2 0 birth 16 at 10 child 32 end 3",
    "3 0 mail 32 at 40 out 1 to 16 end 3 48454c4c4f0a",
    "4 0 birth 16 at 27 child 48 end 4",
    "5 0 mail 32 at 44 out 1 to 16 end 3 eof",
    "6 0 mail 48 at 40 out 1 to 16 end 4 414741494e0a",
    "7 0 mail 16 at 51 out 1 to 17 end 1 48454c4c4f0a",
    "8 bus crash 0 place",
    "9 1 mail 17 at 18 out 0 tty 1 48454c4c4f0a",
    "10 1 fetch 16 0",
    "11 1 pageis 16 0",
    "12 1 mail 17 at 22 out 1 to 16 end 1 eof",
    "13 1 exit 32 at 45 exit 0",
    "14 1 mail 48 at 44 out 1 to 16 end 4 eof",
    "15 1 mail 16 at 69 out 2 to 18 end 1 414741494e0a",
    "16 2 mail 18 at 18 out 0 tty 2 414741494e0a",
    "17 1 exit 17 at 23 exit 0",
    "18 2 mail 18 at 22 out 1 to 16 end 2 eof",
    "19 1 exit 48 at 45 exit 0",
    "20 2 exit 18 at 23 exit 0",
    "21 1 mail 16 at 76 out 1 to 17 end 1 eof",
    "22 1 mail 16 at 77 out 2 to 18 end 1 eof",
    "23 1 mail 16 at 78 out 3 to 32 end 1 eof",
    "24 1 mail 16 at 79 out 4 to 48 end 1 eof",
    "25 1 exit 16 at 80 exit 0",
    "26 bus done",
];

// `sim crash:0@bus:1 crash:1@bus:4 crash:2@bus:9`
static RENEWED_LOG: [&str; 15] = [
    "0 0 mail 16 at 7 out 0 tty 0 610a",
    "1 bus crash 0 place",
    "2 1 rebackup 16 to 2 standing",
    "3 1 fetch 16 0",
    "4 bus crash 1 place",
    "5 2 rebackup 16 to 3 standing",
    "6 2 fetch 16 0",
    "7 2 pageis 16 0",
    "8 2 mail 16 at 20 out 0 tty 0 620a",
    "9 bus crash 2 place",
    "10 3 fetch 16 0",
    "11 3 pageis 16 0",
    "12 3 mail 16 at 33 out 0 tty 0 630a",
    "13 3 exit 16 at 44 exit 0",
    "14 bus done",
];

// `sim crash:0@bus:8`
static SIGNALS_LOG: [&str; 22] = [
    "0 1 mail 17 at 8 out 1 to 16 end 1 776f726b",
    "1 0 mail 16 at 17 out 1 to 17 end 1 776f726b",
    "2 1 mail 17 at 19 to 16 sig 1",
    "3 0 page 16 at 17 0",
    "4 0 sync 16 at 17 take 1",
    "5 1 mail 17 at 27 out 1 to 16 end 1 776f726b",
    "6 0 mail 16 at 25 out 0 tty 0 616761696e0a",
    "7 0 mail 16 at 41 out 1 to 17 end 1 776f726b",
    "8 bus crash 0 place",
    "9 1 mail 17 at 38 to 16 sig 15",
    "10 1 fetch 16 0",
    "11 1 pageis 16 0",
    "12 1 mail 17 at 46 out 1 to 16 end 1 776f726b",
    "13 1 page 16 at 41 0",
    "14 1 sync 16 at 41 take 15",
    "15 1 mail 16 at 49 out 0 tty 0 73746f700a",
    "16 1 mail 16 at 53 out 1 to 17 end 1 eof",
    "17 1 mail 17 at 59 out 0 tty 1 676f6e650a",
    "18 1 exit 16 at 54 exit 3",
    "19 1 mail 17 at 63 out 1 to 16 end 1 eof",
    "20 1 exit 17 at 64 exit 0",
    "21 bus done",
];

// Takes in a line, if an entry with it may follow.
fn take(alloc: Global, state: &mut AuditedLog, line: &str) -> Result<bool, Fail>
    requires { IsOfSomeLog state.old }
    ensures { IfOk result (λ taken. IsTrue taken → IsOfSomeLog state.new) }
{
    let Some(told) = read_told(alloc, line.as_bytes())? else {
        return Ok(false);
    };
    match state.next(alloc, &told)? {
        Some(_) => Ok(true),
        None => Ok(false),
    }
}

// Takes in all of these lines.
fn take_all(alloc: Global, state: &mut AuditedLog, lines: &[&str]) -> Result<(), Fail>
    requires { IsOfSomeLog state.old }
    ensures { IfOk result (λ _. IsOfSomeLog state.new) }
{
    for line in lines {
        if !take(alloc, state, line)? {
            return Err("a line is refused".into());
        }
    }
    Ok(())
}

fn started(alloc: Global, system: &System) -> Result<AuditedLog, Fail>
    requires { is_system system.now ≡ true }
    ensures { IfOk result IsOfSomeLog }
{
    Ok(AuditedLog::start(alloc, system)?)
}

// ---- to the end

fn assert_accepted(alloc: Global, text: &str, log: &[&str]) -> Result<(), Fail> {
    let system = read_system(alloc, text.as_bytes())?;
    let mut state = started(alloc, &system)?;
    take_all(alloc, &mut state, log)
}

#[test]
fn printed_logs_are_accepted(rt: HostRuntime) -> Result<(), Fail> {
    assert_accepted(rt.alloc(), CONVERSATION, &CONVERSATION_LOG)?;
    assert_accepted(rt.alloc(), SERVER, &SERVER_LOG)?;
    assert_accepted(rt.alloc(), RENEWED, &RENEWED_LOG)?;
    assert_accepted(rt.alloc(), SIGNALS, &SIGNALS_LOG)
}

// ---- a changed line

// The place of a line, and what stands there instead.
type Row = (usize, &'static str);

// Another step count, a process that is not there, another place, page, cluster, sender or word; the end too soon.
static CONVERSATION_ROWS: [Row; 10] = [
    (0, "0 0 mail 16 at 6 out 1 to 17 end 1 77686f3f0a"),
    (0, "0 0 mail 19 at 7 out 1 to 17 end 1 77686f3f0a"),
    (
        1,
        "2 1 mail 17 at 19 out 1 to 16 end 1 636c757374657220310a",
    ),
    (4, "4 2 fetch 17 1"),
    (5, "5 bus return 2"),
    (6, "6 2 pageis 17 0"),
    (
        8,
        "8 2 mail 18 at 19 out 1 to 16 end 2 636c757374657220310a",
    ),
    (9, "9 bus crash 3 place"),
    (18, "18 0 done"),
    (17, "17 bus done"),
];

// Another child, step count, sender or status.
static SERVER_ROWS: [Row; 4] = [
    (2, "2 0 birth 16 at 10 child 48 end 3"),
    (4, "4 0 birth 16 at 26 child 48 end 4"),
    (13, "13 0 exit 32 at 45 exit 0"),
    (13, "13 1 exit 32 at 45 exit 1"),
];

// A cluster that is lost, a process that is not there, and a new backup after the process has got its page.
static RENEWED_ROWS: [Row; 3] = [
    (2, "2 1 rebackup 16 to 0 standing"),
    (2, "2 1 rebackup 16 48 to 2 standing"),
    (8, "8 2 rebackup 16 to 0 standing"),
];

// A page that the process lacks, another signal or none, a synchronisation before its page, a page again, and a number that is no pid.
static SIGNALS_ROWS: [Row; 6] = [
    (3, "3 0 page 16 at 17 1"),
    (4, "4 0 sync 16 at 17 take 15"),
    (4, "4 0 sync 16 at 17 plain"),
    (3, "3 0 sync 16 at 17 take 1"),
    (14, "14 1 page 16 at 41 0"),
    (20, "20 1 exit 4294967313 at 64 exit 0"),
];

fn assert_row(alloc: Global, system: &System, log: &[&str], row: &Row) -> Result<(), Fail>
    requires { is_system system.now ≡ true }
{
    let mut state = started(alloc, system)?;
    let Some(before) = log.get(..row.0) else {
        return Err("there is no such place".into());
    };
    take_all(alloc, &mut state, before)?;
    let taken = take(alloc, &mut state, row.1)?;
    same(
        "a changed line",
        &(row.0, row.1, taken),
        &(row.0, row.1, false),
    )
}

fn assert_rows(alloc: Global, text: &str, log: &[&str], rows: &[Row]) -> Result<(), Fail> {
    let system = read_system(alloc, text.as_bytes())?;
    for row in rows {
        assert_row(alloc, &system, log, row)?;
    }
    Ok(())
}

#[test]
fn a_changed_line_is_refused(rt: HostRuntime) -> Result<(), Fail> {
    assert_rows(
        rt.alloc(),
        CONVERSATION,
        &CONVERSATION_LOG,
        &CONVERSATION_ROWS,
    )?;
    assert_rows(rt.alloc(), SERVER, &SERVER_LOG, &SERVER_ROWS)?;
    assert_rows(rt.alloc(), RENEWED, &RENEWED_LOG, &RENEWED_ROWS)?;
    assert_rows(rt.alloc(), SIGNALS, &SIGNALS_LOG, &SIGNALS_ROWS)
}

// ---- new backups

// Two fullbacks, each of which reads a letter that never comes.
const RESTING: &str =
    "clusters 3\npager 0 1\nsyncreads 32\nsyncsteps 4096\nimage wait 1\nwords 00300893 00100513 000105b7 00100613 00000073\nend\nroot 0 1 full wait 1000 0 0\nroot 1 2 full wait 1000 0 0\nchan 1 2\n";

// The lines before, and one behind them.
type Behind = (&'static str, &'static [&'static str], &'static str);

// A fullback that a loss moved sends or ends before its new backup, and the run ends before a fullback has its own.
static TOO_SOON: [Behind; 3] = [
    (
        RENEWED,
        &[
            "0 0 mail 16 at 7 out 0 tty 0 610a",
            "1 bus crash 0 place",
            "2 1 fetch 16 0",
            "3 2 pageis 16 0",
        ],
        "4 1 mail 16 at 20 out 0 tty 0 620a",
    ),
    (
        RENEWED,
        &[
            "0 0 mail 16 at 7 out 0 tty 0 610a",
            "1 0 mail 16 at 20 out 0 tty 0 620a",
            "2 0 mail 16 at 33 out 0 tty 0 630a",
            "3 bus crash 0 place",
            "4 1 fetch 16 0",
            "5 2 pageis 16 0",
        ],
        "6 1 exit 16 at 44 exit 0",
    ),
    (RESTING, &["0 bus crash 0 place"], "1 bus done"),
];

// The same lines behind the new backups.
static IN_TIME: [Behind; 3] = [
    (
        RENEWED,
        &[
            "0 0 mail 16 at 7 out 0 tty 0 610a",
            "1 bus crash 0 place",
            "2 1 rebackup 16 to 2 standing",
            "3 1 fetch 16 0",
            "4 2 pageis 16 0",
        ],
        "5 1 mail 16 at 20 out 0 tty 0 620a",
    ),
    (
        RENEWED,
        &[
            "0 0 mail 16 at 7 out 0 tty 0 610a",
            "1 0 mail 16 at 20 out 0 tty 0 620a",
            "2 0 mail 16 at 33 out 0 tty 0 630a",
            "3 bus crash 0 place",
            "4 1 fetch 16 0",
            "5 2 pageis 16 0",
            "6 1 rebackup 16 to 2 standing",
        ],
        "7 1 exit 16 at 44 exit 0",
    ),
    (
        RESTING,
        &["0 bus crash 0 place", "1 1 rebackup 16 to 2 standing"],
        "2 bus done",
    ),
];

fn taken_behind(alloc: Global, row: &Behind) -> Result<bool, Fail> {
    let system = read_system(alloc, row.0.as_bytes())?;
    let mut state = started(alloc, &system)?;
    take_all(alloc, &mut state, row.1)?;
    take(alloc, &mut state, row.2)
}

fn assert_behind(alloc: Global, rows: &[Behind], wanted: bool) -> Result<(), Fail> {
    for row in rows {
        let taken = taken_behind(alloc, row)?;
        same("a line", &(row.2, taken), &(row.2, wanted))?;
    }
    Ok(())
}

#[test]
fn who_is_owed_a_backup_waits_for_it(rt: HostRuntime) -> Result<(), Fail> {
    assert_behind(rt.alloc(), &TOO_SOON, false)?;
    assert_behind(rt.alloc(), &IN_TIME, true)
}
