//! The words of a line: the command that they are, its options and its script of failures.
use cert_sched::script::{Script, ScriptWord};
use command_words::{Command, allowed, command_of};
use std::alloc::Global;
use std::test::Fail;
use t32_base::lists::{Bytes, Text};
use t32_base::process::ClusterNo;
use t32_base::streams::NoMemory;
use test_asserts::same;
use word_faults::fault::fault_of;

// A command, as the rows below write it; `Usage` is none.
#[derive(Clone, Copy, PartialEq, Eq, Debug)]
enum Read {
    Usage,
    Plain,
    Check,
    Asm,
    Sim(u32, bool),
    Run(bool),
    Load(u32, bool),
}

fn push_word(alloc: Global, words: &mut Vec<Text>, word: &[u8]) -> Result<(), NoMemory> {
    let word = Bytes::copy_of(alloc, word)?;
    Ok(words.push(word)?)
}

// The words of a line, which single spaces part. An empty line has none.
pub fn words(alloc: Global, line: &[u8]) -> Result<Vec<Text>, NoMemory> {
    let mut words = Vec::new(alloc);
    if line.is_empty() {
        return Ok(words);
    }
    for word in line.split(|b| *b == b' ') {
        push_word(alloc, &mut words, word)?;
    }
    Ok(words)
}

pub fn command(alloc: Global, line: &[u8]) -> Result<Option<Command>, NoMemory> {
    let words = words(alloc, line)?;
    command_of(alloc, words.as_slice())
}

// What a command is, without its script.
fn kind_of(command: &Option<Command>) -> Read {
    match command {
        None => Read::Usage,
        Some(Command::Plain) => Read::Plain,
        Some(Command::Check) => Read::Check,
        Some(Command::Asm) => Read::Asm,
        Some(Command::Sim { pick, log, .. }) => Read::Sim(*pick, *log),
        Some(Command::Run { log, .. }) => Read::Run(*log),
        Some(Command::Load { size, text, .. }) => Read::Load(*size, *text),
    }
}

// The script of a command that has one.
fn script(command: &Option<Command>) -> Option<&Script> {
    match command {
        Some(
            Command::Sim { script, .. }
            | Command::Run { script, .. }
            | Command::Load { script, .. },
        ) => Some(script),
        _ => None,
    }
}

// Whether its script has just these words.
fn has_script(command: &Option<Command>, words: &[ScriptWord]) -> bool {
    match script(command) {
        Some(script) => script.as_slice() == words,
        None => words.is_empty(),
    }
}

// What the words of a line are read as, and whether the script has just these words.
fn read_line(alloc: Global, line: &[u8], words: &[ScriptWord]) -> Result<(Read, bool), NoMemory> {
    let command = command(alloc, line)?;
    Ok((kind_of(&command), has_script(&command, words)))
}

fn assert_read(alloc: Global, line: &[u8], wanted: Read, words: &[ScriptWord]) -> Result<(), Fail> {
    let shown = read_line(alloc, line, words)?;
    same("the line", &(line, shown), &(line, (wanted, true)))
}

static OPTIONS: [(&[u8], Read); 101] = [
    (b"", Read::Usage),
    (b"plain", Read::Plain),
    (b"check", Read::Check),
    (b"asm", Read::Asm),
    (b"plain plain", Read::Usage),
    (b"plain --", Read::Usage),
    (b"check --log", Read::Usage),
    (b"asm ", Read::Usage),
    (b" plain", Read::Usage),
    (b"Plain", Read::Usage),
    (b"simulate", Read::Usage),
    (b"help", Read::Usage),
    (b"--help", Read::Usage),
    (b"-h", Read::Usage),
    (b"--", Read::Usage),
    (b"-- sim", Read::Usage),
    (b"--log sim", Read::Usage),
    (b"sim", Read::Sim(0, false)),
    (b"sim --", Read::Sim(0, false)),
    (b"sim --log", Read::Sim(0, true)),
    (b"sim --log --", Read::Sim(0, true)),
    (b"sim --pick 0", Read::Sim(0, false)),
    (b"sim --pick=0", Read::Sim(0, false)),
    (b"sim --log --pick 3", Read::Sim(3, true)),
    (b"sim --pick=3 --log", Read::Sim(3, true)),
    (b"sim --pick 0000000007", Read::Sim(7, false)),
    (b"sim --pick 00000000007", Read::Usage),
    (b"sim --pick 2147483647", Read::Sim(2147483647, false)),
    (b"sim --pick 2147483648", Read::Usage),
    (b"sim --pick=2147483648", Read::Usage),
    (b"sim --pick", Read::Usage),
    (b"sim --pick=", Read::Usage),
    (b"sim --pick ", Read::Usage),
    (b"sim --pick -1", Read::Usage),
    (b"sim --pick=-1", Read::Usage),
    (b"sim --pick +1", Read::Usage),
    (b"sim --pick=+1", Read::Usage),
    (b"sim --pick -", Read::Usage),
    (b"sim --pick 0x1", Read::Usage),
    (b"sim --pick --log", Read::Usage),
    (b"sim --pick --pick 1", Read::Usage),
    (b"sim --pick -- 1", Read::Usage),
    (b"sim --pick --", Read::Usage),
    (b"sim --log --log", Read::Usage),
    (b"sim --pick 1 --pick 1", Read::Usage),
    (b"sim --pick=1 --pick 1", Read::Usage),
    (b"sim --pick=1 --pick=1", Read::Usage),
    (b"sim --log=", Read::Usage),
    (b"sim --log=true", Read::Usage),
    (b"sim --lo", Read::Usage),
    (b"sim --logs", Read::Usage),
    (b"sim --pic 1", Read::Usage),
    (b"sim --picks=1", Read::Usage),
    (b"sim --text", Read::Usage),
    (b"sim --=1", Read::Usage),
    (b"sim ---", Read::Usage),
    (b"sim -", Read::Usage),
    (b"sim -l", Read::Usage),
    (b"sim -h", Read::Usage),
    (b"sim --help", Read::Usage),
    (b"sim help", Read::Usage),
    (b"sim ", Read::Usage),
    (b"sim 1", Read::Usage),
    (b"sim -- -", Read::Usage),
    (b"sim -- --", Read::Usage),
    (b"sim -- --log", Read::Usage),
    (b"sim -- --pick 1", Read::Usage),
    (b"sim \xff", Read::Usage),
    (b"sim -- \xff", Read::Usage),
    (b"sim -\xff", Read::Usage),
    (b"sim --pick \xff", Read::Usage),
    (b"sim -\xc3\xa9", Read::Usage),
    (b"plain \xff", Read::Usage),
    (b"\xff", Read::Usage),
    (b"run", Read::Run(false)),
    (b"run --", Read::Run(false)),
    (b"run --log", Read::Run(true)),
    (b"run --log --log", Read::Usage),
    (b"run --pick 1", Read::Usage),
    (b"run --pick=1", Read::Usage),
    (b"run --text", Read::Usage),
    (b"run --help", Read::Usage),
    (b"load", Read::Usage),
    (b"load 0", Read::Usage),
    (b"load 1", Read::Load(1, false)),
    (b"load 1000", Read::Load(1000, false)),
    (b"load 1001", Read::Usage),
    (b"load 0000000001", Read::Load(1, false)),
    (b"load 00000000001", Read::Usage),
    (b"load -5", Read::Usage),
    (b"load +5", Read::Usage),
    (b"load --text 5", Read::Load(5, true)),
    (b"load 5 --text", Read::Load(5, true)),
    (b"load 5 --text --text", Read::Usage),
    (b"load --text", Read::Usage),
    (b"load --log 5", Read::Usage),
    (b"load 5 --pick 1", Read::Usage),
    (b"load 5 6", Read::Usage),
    (b"load 5 --", Read::Load(5, false)),
    (b"load -- 5", Read::Usage),
    (b"load 5 -- 6", Read::Usage),
];

// No words are one, too.
fn asks_for_help(line: &[u8]) -> bool {
    line.is_empty()
        || line == b"help".as_slice()
        || line == b"--help".as_slice()
        || line == b"-h".as_slice()
}

// A word is noted exactly where the words are no command, but for no words and the wish for help.
fn assert_noted(alloc: Global, line: &[u8], read: Read) -> Result<(), Fail> {
    let words = words(alloc, line)?;
    let unnoted = read != Read::Usage || asks_for_help(line);
    same(
        "a note",
        &(line, fault_of(&words).is_none()),
        &(line, unnoted),
    )
}

#[test]
fn a_word_is_noted_where_they_are_no_command(rt: HostRuntime) -> Result<(), Fail> {
    for row in OPTIONS.iter() {
        assert_noted(rt.alloc(), row.0, row.1)?;
    }
    for row in SCRIPTS.iter() {
        assert_noted(rt.alloc(), row.0, row.1)?;
    }
    Ok(())
}

#[test]
fn commands_and_options_are_read(rt: HostRuntime) -> Result<(), Fail> {
    for row in OPTIONS.iter() {
        assert_read(rt.alloc(), row.0, row.1, &[])?;
    }
    Ok(())
}

const CRASH_AT: ScriptWord = ScriptWord::CrashAt {
    k: ClusterNo(2),
    place: 9,
};

const CRASH_STEP: ScriptWord = ScriptWord::CrashStep {
    k: ClusterNo(2),
    step: 9,
};

const DISK_AT: ScriptWord = ScriptWord::DiskAt {
    k: ClusterNo(2),
    call: 9,
};

const RETURN_AT: ScriptWord = ScriptWord::ReturnAt {
    k: ClusterNo(2),
    place: 9,
};

const LATER_CRASH: ScriptWord = ScriptWord::CrashAt {
    k: ClusterNo(3),
    place: 10,
};

const LATER_RETURN: ScriptWord = ScriptWord::ReturnAt {
    k: ClusterNo(3),
    place: 10,
};

// What a cluster and a place are held as, which are as great as can be.
const FAR: ScriptWord = ScriptWord::CrashAt {
    k: ClusterNo(255),
    place: 4294967295,
};

static SCRIPTS: [(&[u8], Read, &[ScriptWord]); 53] = [
    (b"sim crash:2@bus:9", Read::Sim(0, false), &[CRASH_AT]),
    (b"sim crash:2@step:9", Read::Sim(0, false), &[CRASH_STEP]),
    (b"sim disk:2@9", Read::Sim(0, false), &[DISK_AT]),
    (b"sim return:2@bus:9", Read::Sim(0, false), &[RETURN_AT]),
    (b"run crash:2@step:9", Read::Run(false), &[CRASH_STEP]),
    (b"load 5 disk:2@9", Read::Load(5, false), &[DISK_AT]),
    (b"sim -- crash:2@bus:9", Read::Sim(0, false), &[CRASH_AT]),
    (b"sim crash:2@bus:9 --", Read::Sim(0, false), &[CRASH_AT]),
    (
        b"sim --log crash:2@bus:9 --pick 3",
        Read::Sim(3, true),
        &[CRASH_AT],
    ),
    (b"run crash:2@bus:9 --log", Read::Run(true), &[CRASH_AT]),
    (
        b"load 5 -- crash:2@bus:9",
        Read::Load(5, false),
        &[CRASH_AT],
    ),
    (
        b"load 5 disk:2@9 --text --",
        Read::Load(5, true),
        &[DISK_AT],
    ),
    (b"load crash:2@bus:9 5", Read::Usage, &[]),
    (b"load crash:2@bus:9", Read::Usage, &[]),
    (
        b"sim crash:2@bus:9 return:3@bus:10",
        Read::Sim(0, false),
        &[CRASH_AT, LATER_RETURN],
    ),
    (
        b"sim crash:2@bus:9 -- return:3@bus:10",
        Read::Sim(0, false),
        &[CRASH_AT, LATER_RETURN],
    ),
    (
        b"run return:3@bus:10 -- disk:2@9",
        Read::Run(false),
        &[LATER_RETURN, DISK_AT],
    ),
    (
        b"sim crash:2@bus:9 crash:3@bus:10",
        Read::Sim(0, false),
        &[CRASH_AT, LATER_CRASH],
    ),
    (
        b"sim crash:2@bus:9 -- crash:2@step:9",
        Read::Sim(0, false),
        &[CRASH_AT, CRASH_STEP],
    ),
    (
        b"sim crash:2@bus:9 disk:2@9",
        Read::Sim(0, false),
        &[CRASH_AT, DISK_AT],
    ),
    (
        b"run return:2@bus:9 return:2@bus:9",
        Read::Run(false),
        &[RETURN_AT, RETURN_AT],
    ),
    (b"sim crash:2@bus:9 crash", Read::Usage, &[]),
    (b"sim crash:2@bus:9 plain", Read::Usage, &[]),
    (
        b"sim crash:0000000002@bus:0000000009",
        Read::Sim(0, false),
        &[CRASH_AT],
    ),
    (b"sim crash:00000000002@bus:9", Read::Usage, &[]),
    (b"sim crash:2@bus:00000000009", Read::Usage, &[]),
    (b"sim crash:300@bus:4294967295", Read::Sim(0, false), &[FAR]),
    (
        b"sim crash:9999999999@bus:4294967295",
        Read::Sim(0, false),
        &[FAR],
    ),
    (b"sim crash:10000000000@bus:4294967295", Read::Usage, &[]),
    (b"sim crash:2@bus:4294967296", Read::Usage, &[]),
    (b"sim crash:2@step:4294967296", Read::Usage, &[]),
    (b"sim disk:2@4294967296", Read::Usage, &[]),
    (b"sim return:2@bus:4294967296", Read::Usage, &[]),
    (b"sim crash:@bus:9", Read::Usage, &[]),
    (b"sim crash:2@bus:", Read::Usage, &[]),
    (b"sim crash:2@bus", Read::Usage, &[]),
    (b"sim crash:2@9", Read::Usage, &[]),
    (b"sim crash:2@", Read::Usage, &[]),
    (b"sim crash:2", Read::Usage, &[]),
    (b"sim crash:", Read::Usage, &[]),
    (b"sim crash:-2@bus:9", Read::Usage, &[]),
    (b"sim crash:2@bus:-9", Read::Usage, &[]),
    (b"sim crash:2@bus:9@", Read::Usage, &[]),
    (b"sim crash:2@@bus:9", Read::Usage, &[]),
    (b"sim crash:2@bus:9x", Read::Usage, &[]),
    (b"sim Crash:2@bus:9", Read::Usage, &[]),
    (b"sim disk:2@bus:9", Read::Usage, &[]),
    (b"sim disk:2@step:9", Read::Usage, &[]),
    (b"sim disk:2@", Read::Usage, &[]),
    (b"sim disk:2", Read::Usage, &[]),
    (b"sim return:2@step:9", Read::Usage, &[]),
    (b"sim return:2@9", Read::Usage, &[]),
    (b"sim crash:2@bus:9 ", Read::Usage, &[]),
];

#[test]
fn script_words_are_read(rt: HostRuntime) -> Result<(), Fail> {
    for row in SCRIPTS.iter() {
        assert_read(rt.alloc(), row.0, row.1, row.2)?;
    }
    Ok(())
}

// The words of a system with four clusters, of which 0 and 2 are page servers.
static ALLOWED: [(&[u8], bool); 13] = [
    (b"sim", true),
    (b"sim crash:3@bus:9", true),
    (b"sim crash:4@bus:9", false),
    (b"sim crash:3@step:9", true),
    (b"sim crash:4@step:9", false),
    (b"sim crash:300@step:9", false),
    (b"sim return:3@bus:9", true),
    (b"sim return:4@bus:9", false),
    (b"sim disk:0@9", true),
    (b"sim disk:1@9", false),
    (b"sim disk:2@9", true),
    (b"sim disk:256@9", false),
    (b"sim crash:3@bus:9 return:4@bus:9", false),
];

// Whether the script of a line is allowed, where it is that of the word `sim`.
fn is_allowed(alloc: Global, line: &[u8]) -> Result<Option<bool>, NoMemory> {
    let command = command(alloc, line)?;
    match script(&command) {
        Some(script) => Ok(Some(allowed(script, 4, (ClusterNo(0), ClusterNo(2))))),
        None => Ok(None),
    }
}

#[test]
fn words_are_allowed_by_the_system(rt: HostRuntime) -> Result<(), Fail> {
    for row in ALLOWED.iter() {
        let answer = is_allowed(rt.alloc(), row.0)?;
        same("the line", &(row.0, answer), &(row.0, Some(row.1)))?;
    }
    Ok(())
}
