//! What is printed of a run by the words `sim` and `run`.
use program_calls::assert_answer;
use std::test::Fail;
use test_systems::{BAD, CUT, HI, SPIN};

const HI_REPORT: &str =
    "tty 0 3\nhi\n\npid 16 exit 0\ncrash none\nbus 3 syncs 0 withheld 0\nschedule 2\nrun 16 6\nrun 16 4\n";

const HI_LOG: &str =
    "log 3\n0 0 mail 16 at 6 out 0 tty 0 68690a\n1 0 exit 16 at 10 exit 0\n2 bus done\n";

const BAD_REPORT: &str =
    "tty 0 0\n\npid 16 trap 2\ncrash none\nbus 2 syncs 0 withheld 0\nschedule 1\nrun 16 2\n";

const SPIN_REPORT: &str =
    "tty 0 0\n\npid 16 limit\ncrash none\nbus 2 syncs 0 withheld 0\nschedule 1\nrun 16 3\n";

static RUNS: [(&[u8], &str, &str); 5] = [
    (b"run", BAD, BAD_REPORT),
    (b"sim", HI, HI_REPORT),
    (b"sim", BAD, BAD_REPORT),
    (b"sim", SPIN, SPIN_REPORT),
    (b"sim --pick 2147483647", HI, HI_REPORT),
];

#[test]
fn a_run_is_printed_without_its_log(rt: HostRuntime) -> Result<(), Fail> {
    for (line, text, written) in RUNS {
        assert_answer(&rt, line, text, 0, written)?;
    }
    Ok(())
}

static WITH_LOG: [&[u8]; 4] = [
    b"sim --log",
    b"run --log",
    b"sim --log --pick 7",
    b"sim --pick=0000000007 --log",
];

#[test]
fn a_run_is_printed_with_its_log(rt: HostRuntime) -> Result<(), Fail> {
    let whole = format!(in rt.alloc(); "{HI_REPORT}{HI_LOG}")?;
    for line in WITH_LOG {
        assert_answer(&rt, line, HI, 0, whole.as_str())?;
    }
    Ok(())
}

static REFUSED: [(&[u8], &str, &str); 4] = [
    (b"sim", CUT, "t32: system line 6 rule 10\n"),
    (b"sim --log", CUT, "t32: system line 6 rule 10\n"),
    (b"sim", "", "t32: system line 1 rule 10\n"),
    (b"sim --log", "", "t32: system line 1 rule 10\n"),
];

#[test]
fn a_system_is_refused(rt: HostRuntime) -> Result<(), Fail> {
    for (line, text, written) in REFUSED {
        assert_answer(&rt, line, text, 2, written)?;
    }

    // A schedule has no place behind the text.
    let text = format!(in rt.alloc(); "{HI}schedule 0\n")?;
    let line = "t32: system line 10 rule 2\n";
    assert_answer(&rt, b"sim", text.as_str(), 2, line)
}
