//! What is printed of a run that loses a cluster by the words `sim` and `run`: the terminals, the processes and the schedule
//! are those of the run without a loss.
use program_calls::assert_answer;
use std::test::Fail;
use test_systems::{CHANNEL, CUT, EARLY, FORKER, HI, SIGNALLER, TWO};

// What stands before the lines of the losses and of the bus, and what stands behind them.
type Around = (&'static str, &'static str);

const TWO_AROUND: Around = (
    "tty 0 4\na\nb\n\npid 16 exit 0\n",
    "schedule 3\nrun 16 6\nrun 16 3\nrun 16 4\n",
);

const HI_AROUND: Around = (
    "tty 0 3\nhi\n\npid 16 exit 0\n",
    "schedule 2\nrun 16 6\nrun 16 4\n",
);

// The reader synchronises once it has read the letter.
const CHANNEL_AROUND: Around = (
    "tty 0 2\nx\n\npid 16 exit 0\npid 17 exit 0\n",
    "schedule 7\nrun 17 6\nrun 17 4\nrun 16 6\nrun 17 1\nrun 16 4\nrun 16 4\nrun 16 1\n",
);

// Where the reader's cluster is lost between its page and its `sync`, its backup synchronises in its place, once the writer has ended.
const CHANNEL_LATE: Around = (
    "tty 0 2\nx\n\npid 16 exit 0\npid 17 exit 0\n",
    "schedule 7\nrun 17 6\nrun 17 4\nrun 17 1\nrun 16 6\nrun 16 4\nrun 16 4\nrun 16 1\n",
);

const CHANNEL_NONE: &str = "crash none\nbus 9 syncs 1 withheld 0\n";

const CHANNEL_AT_3: &str = "crash 0 at 3\nbus 13 syncs 1 withheld 0\n";

const CHANNEL_AT_4: &str = "crash 0 at 4\nbus 12 syncs 1 withheld 0\n";

const CHANNEL_AT_6: &str = "crash 0 at 6\nbus 12 syncs 1 withheld 1\n";

const TWO_NONE: &str = "crash none\nbus 4 syncs 0 withheld 0\n";

const TWO_AT_0: &str = "crash 0 at 0\nbus 7 syncs 0 withheld 0\n";

const TWO_AT_1: &str = "crash 0 at 1\nbus 7 syncs 0 withheld 1\n";

const TWO_AT_2: &str = "crash 0 at 2\nbus 7 syncs 0 withheld 2\n";

const HI_NONE: &str = "crash none\nbus 3 syncs 0 withheld 0\n";

const HI_AT_0: &str = "crash 0 at 0\nbus 6 syncs 0 withheld 0\n";

const HI_AT_1: &str = "crash 0 at 1\nbus 6 syncs 0 withheld 1\n";

// The loss of a cluster in which no process has its home.
const HI_BACKUP: &str = "crash 1 at 1\nbus 4 syncs 0 withheld 0\n";

const HI_BACKUP_FIRST: &str = "crash 1 at 0\nbus 4 syncs 0 withheld 0\n";

const FORKER_AROUND: Around = (
    "tty 0 2\nc\n\npid 16 exit 0\npid 32 exit 0\n",
    "schedule 7\nrun 16 1\nfork 16 32\nrun 32 7\nrun 16 5\nrun 32 4\nrun 32 1\nrun 16 1\n",
);

const FORKER_NONE: &str = "crash none\nbus 9 syncs 1 withheld 0\n";

const FORKER_AT_2: &str = "crash 0 at 2\nbus 12 syncs 1 withheld 2\n";

const SIGNALLER_AROUND: Around = (
    "tty 0 2\ns\n\npid 16 exit 0\n",
    "schedule 4\nrun 16 9\ntake 16\nrun 16 6\nrun 16 6\n",
);

const SIGNALLER_NONE: &str = "crash none\nbus 5 syncs 1 withheld 0\n";

const SIGNALLER_AT_1: &str = "crash 0 at 1\nbus 8 syncs 1 withheld 1\n";

const SIGNALLER_AT_2: &str = "crash 0 at 2\nbus 8 syncs 1 withheld 0\n";

const EARLY_AROUND: Around = (
    "tty 0 0\n\npid 16 exit 0\npid 32 exit 0\n",
    "schedule 7\nrun 16 4\nrun 16 1\nfork 16 32\nrun 32 4\nrun 16 4\nrun 32 1\nrun 16 1\n",
);

const EARLY_NONE: &str = "crash none\nbus 7 syncs 0 withheld 0\n";

static LOSSES: [(&[u8], &str, Around, &str); 41] = [
    (b"sim", SIGNALLER, SIGNALLER_AROUND, SIGNALLER_NONE),
    (b"run", SIGNALLER, SIGNALLER_AROUND, SIGNALLER_NONE),
    (
        b"sim crash:0@bus:1",
        SIGNALLER,
        SIGNALLER_AROUND,
        SIGNALLER_AT_1,
    ),
    (
        b"sim crash:0@bus:2",
        SIGNALLER,
        SIGNALLER_AROUND,
        SIGNALLER_AT_2,
    ),
    (
        b"run crash:0@bus:1",
        SIGNALLER,
        SIGNALLER_AROUND,
        SIGNALLER_AT_1,
    ),
    (b"sim", EARLY, EARLY_AROUND, EARLY_NONE),
    (b"sim", TWO, TWO_AROUND, TWO_NONE),
    (b"sim crash:0@bus:0", TWO, TWO_AROUND, TWO_AT_0),
    (b"sim crash:0@bus:1", TWO, TWO_AROUND, TWO_AT_1),
    (b"sim crash:0@bus:2", TWO, TWO_AROUND, TWO_AT_2),
    (b"sim crash:0@bus:2 --pick 1", TWO, TWO_AROUND, TWO_AT_2),
    (b"run crash:0@bus:0", TWO, TWO_AROUND, TWO_AT_0),
    (b"run crash:0@bus:1", TWO, TWO_AROUND, TWO_AT_1),
    (b"run crash:0@bus:2", TWO, TWO_AROUND, TWO_AT_2),
    (b"sim crash:0@bus:3", HI, HI_AROUND, HI_NONE),
    (b"sim crash:0@bus:0", HI, HI_AROUND, HI_AT_0),
    (b"sim crash:0@bus:1", HI, HI_AROUND, HI_AT_1),
    (b"run crash:0@bus:1", HI, HI_AROUND, HI_AT_1),
    (b"sim crash:1@bus:1", HI, HI_AROUND, HI_BACKUP),
    // The first steps of cluster 0 are a work, the attempt to send its letter, the letter taken in, and the next work.
    (b"sim crash:0@step:0", HI, HI_AROUND, HI_AT_0),
    (b"sim crash:0@step:1", HI, HI_AROUND, HI_AT_0),
    (b"sim crash:0@step:2", HI, HI_AROUND, HI_AT_1),
    (b"sim crash:0@step:3", HI, HI_AROUND, HI_AT_1),
    (b"run crash:0@step:0", HI, HI_AROUND, HI_AT_0),
    (b"run crash:0@step:1", HI, HI_AROUND, HI_AT_0),
    (b"run crash:0@step:2", HI, HI_AROUND, HI_AT_1),
    (b"run crash:0@step:3", HI, HI_AROUND, HI_AT_1),
    (b"sim crash:0@step:100", HI, HI_AROUND, HI_NONE),
    (b"run crash:0@step:100", HI, HI_AROUND, HI_NONE),
    // Each page server puts the one page of the process at its start, so that no other call is made without a loss.
    (b"sim disk:0@0", HI, HI_AROUND, HI_AT_0),
    (b"run disk:0@0", HI, HI_AROUND, HI_AT_0),
    (b"sim disk:1@0", HI, HI_AROUND, HI_BACKUP),
    (b"sim disk:1@0 --pick 1", HI, HI_AROUND, HI_BACKUP_FIRST),
    (b"sim disk:0@1", HI, HI_AROUND, HI_NONE),
    (b"run disk:1@4294967295", HI, HI_AROUND, HI_NONE),
    // After a page of a synchronisation, directly after its `sync`, and after what was written behind it.
    (b"sim", CHANNEL, CHANNEL_AROUND, CHANNEL_NONE),
    (b"sim crash:0@bus:3", CHANNEL, CHANNEL_LATE, CHANNEL_AT_3),
    (b"sim crash:0@bus:4", CHANNEL, CHANNEL_AROUND, CHANNEL_AT_4),
    (b"sim crash:0@bus:6", CHANNEL, CHANNEL_AROUND, CHANNEL_AT_6),
    // A child was born and has written, and was never synchronised: its birth and its letter are withheld.
    (b"sim", FORKER, FORKER_AROUND, FORKER_NONE),
    (b"sim crash:0@bus:2", FORKER, FORKER_AROUND, FORKER_AT_2),
];

#[test]
fn a_run_goes_on_after_a_loss(rt: HostRuntime) -> Result<(), Fail> {
    for (line, text, (before, behind), lost) in LOSSES {
        let report = format!(in rt.alloc(); "{before}{lost}{behind}")?;
        assert_answer(&rt, line, text, 0, report.as_str())?;
    }
    Ok(())
}

// What stands behind the report of the second loss of the first system, with its log: after the loss the other cluster asks for the
// one page, answers as the page server that is left, and then sends.
const TWO_LOG: &str =
    "log 7\n0 0 mail 16 at 6 out 0 tty 0 610a\n1 bus crash 0 place\n2 1 fetch 16 0\n3 1 pageis 16 0\n4 1 mail 16 at 9 out 0 tty 0 620a\n5 1 exit 16 at 13 exit 0\n6 bus done\n";

// And those of the last system: its synchronisation, after 6 steps, is a page and a `sync`.
const CHANNEL_LOG: &str =
    "log 9\n0 1 mail 17 at 6 out 1 to 16 end 1 780a\n1 1 mail 17 at 10 out 1 to 16 end 1 eof\n2 0 page 16 at 6 0\n3 0 sync 16 at 6 plain\n4 1 exit 17 at 11 exit 0\n5 0 mail 16 at 10 out 0 tty 0 780a\n6 0 mail 16 at 14 out 1 to 17 end 1 eof\n7 0 exit 16 at 15 exit 0\n8 bus done\n";

// The page that came before the loss is not used: the backup sends its own.
const CHANNEL_LATE_LOG: &str =
    "log 13\n0 1 mail 17 at 6 out 1 to 16 end 1 780a\n1 1 mail 17 at 10 out 1 to 16 end 1 eof\n2 0 page 16 at 6 0\n3 bus crash 0 place\n4 1 fetch 16 0\n5 1 pageis 16 0\n6 1 exit 17 at 11 exit 0\n7 1 page 16 at 6 0\n8 1 sync 16 at 6 plain\n9 1 mail 16 at 10 out 0 tty 0 780a\n10 1 mail 16 at 14 out 1 to 17 end 1 eof\n11 1 exit 16 at 15 exit 0\n12 bus done\n";

static LOGS: [(&[u8], &str, Around, &str, &str); 3] = [
    (
        b"sim --log crash:0@bus:1",
        TWO,
        TWO_AROUND,
        TWO_AT_1,
        TWO_LOG,
    ),
    (
        b"sim --log",
        CHANNEL,
        CHANNEL_AROUND,
        CHANNEL_NONE,
        CHANNEL_LOG,
    ),
    (
        b"sim --log crash:0@bus:3",
        CHANNEL,
        CHANNEL_LATE,
        CHANNEL_AT_3,
        CHANNEL_LATE_LOG,
    ),
];

#[test]
fn a_loss_stands_in_the_log(rt: HostRuntime) -> Result<(), Fail> {
    for (line, text, (before, behind), lost, log) in LOGS {
        let report = format!(in rt.alloc(); "{before}{lost}{behind}{log}")?;
        assert_answer(&rt, line, text, 0, report.as_str())?;
    }
    Ok(())
}

// A cluster that the system lacks is usage once the text was read.
static REFUSED: [(&[u8], &str, u8, &str); 12] = [
    (b"sim crash:2@bus:0", HI, 1, "t32: usage\n"),
    (b"run crash:2@bus:0", HI, 1, "t32: usage\n"),
    (b"sim crash:2@step:1", HI, 1, "t32: usage\n"),
    (b"sim crash:300@bus:0", HI, 1, "t32: usage\n"),
    (b"sim crash:2@bus:0", CUT, 2, "t32: system line 6 rule 10\n"),
    (
        b"sim crash:0@bus:0 crash:1@bus:1",
        CUT,
        2,
        "t32: system line 6 rule 10\n",
    ),
    (
        b"sim crash:0@bus:1 return:0@bus:4",
        CUT,
        2,
        "t32: system line 6 rule 10\n",
    ),
    (
        b"run crash:0@bus:1 return:0@bus:4",
        CUT,
        2,
        "t32: system line 6 rule 10\n",
    ),
    (b"sim return:2@bus:0", HI, 1, "t32: usage\n"),
    (b"run return:2@bus:0", HI, 1, "t32: usage\n"),
    (b"sim disk:2@0", HI, 1, "t32: usage\n"),
    (
        b"sim disk:0@0 disk:1@4 crash:2@bus:0",
        HI,
        1,
        "t32: usage\n",
    ),
];

#[test]
fn a_script_is_refused(rt: HostRuntime) -> Result<(), Fail> {
    for (line, text, status, written) in REFUSED {
        assert_answer(&rt, line, text, status, written)?;
    }
    Ok(())
}
