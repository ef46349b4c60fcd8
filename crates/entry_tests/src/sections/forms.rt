//! Sections that are of the form, and their neighbours that are not.
use entry_lines::{Told, told_text};
use log_section::{SectionRefused, read_section};
use std::alloc::Global;
use std::test::Fail;
use t32_base::lists::{Bytes, Text};
use t32_base::streams::NoMemory;
use test_asserts::same;

fn head(alloc: Global, count: usize) -> Result<Text, NoMemory> {
    let head = format!(in alloc; "log {count}\n")?;
    Bytes::copy_of(alloc, head.as_bytes())
}

fn put_line(alloc: Global, text: &mut Text, told: &Told) -> Result<(), NoMemory> {
    let line = told_text(alloc, told)?;
    text.extend(line.as_slice())?;
    text.extend(b"\n")
}

fn put_lines(alloc: Global, text: &mut Text, log: &[Told]) -> Result<(), NoMemory> {
    for told in log {
        put_line(alloc, text, told)?;
    }
    Ok(())
}

// Whether a section ends with this log, printed again.
fn is_end(alloc: Global, section: &[u8], log: &[Told]) -> Result<bool, NoMemory> {
    let mut text = head(alloc, log.len())?;
    put_lines(alloc, &mut text, log)?;
    Ok(section.ends_with(text.as_slice()))
}

// Whether the end of a section is its log printed again; none where the section is refused for its form.
fn log_is_end(alloc: Global, section: &[u8]) -> Result<Option<bool>, NoMemory> {
    match read_section(alloc, section) {
        Ok(log) => Ok(Some(is_end(alloc, section, log.as_slice())?)),
        Err(SectionRefused::Form) => Ok(None),
        Err(SectionRefused::NoMemory) => Err(NoMemory),
    }
}

// ---- sections

const HI: &str = "\
tty 0 3\n\
hi\n\
\n\
pid 16 exit 0\n\
crash none\n\
bus 3 syncs 0 withheld 0\n\
schedule 2\n\
run 16 6\n\
run 16 4\n\
log 3\n\
0 0 mail 16 at 6 out 0 tty 0 68690a\n\
1 0 exit 16 at 10 exit 0\n\
2 bus done\n\
";

const LOST: &str = "\
tty 0 4\n\
a\n\
b\n\
\n\
pid 16 exit 0\n\
crash 0 at 1\n\
bus 7 syncs 0 withheld 1\n\
schedule 3\n\
run 16 6\n\
run 16 3\n\
run 16 4\n\
log 7\n\
0 0 mail 16 at 6 out 0 tty 0 610a\n\
1 bus crash 0 place\n\
2 1 fetch 16 0\n\
3 1 pageis 16 0\n\
4 1 mail 16 at 9 out 0 tty 0 620a\n\
5 1 exit 16 at 13 exit 0\n\
6 bus done\n\
";

const SMALLEST: &str = "\
tty 0 0\n\
\n\
pid 16 limit\n\
crash none\n\
bus 1 syncs 0 withheld 0\n\
schedule 0\n\
log 1\n\
0 bus done\n\
";

const NUMBERS: &str = "\
tty 18446744073709551615 0\n\
\n\
pid 18446744073709551615 exit 18446744073709551615\n\
crash 18446744073709551615 at 18446744073709551615\n\
lost 18446744073709551615 at 18446744073709551615\n\
bus 18446744073709551615 syncs 18446744073709551615 withheld 18446744073709551615\n\
schedule 3\n\
run 18446744073709551615 0\n\
fork 0 18446744073709551615\n\
take 18446744073709551615\n\
log 0\n\
";

const LOSSES: &str = "\
tty 0 0\n\
\n\
return 1 at 9\n\
crash 1 at 2\n\
crash 0 at 1\n\
lost 0 at 1\n\
bus 0 syncs 0 withheld 0\n\
schedule 0\n\
log 0\n\
";

enum Section {
    Hi,
    Lost,
    Smallest,
    Numbers,
    Losses,
}

fn text(section: &Section) -> &'static str {
    match section {
        Section::Hi => HI,
        Section::Lost => LOST,
        Section::Smallest => SMALLEST,
        Section::Numbers => NUMBERS,
        Section::Losses => LOSSES,
    }
}

// A section with one text in place of another.
fn changed(
    alloc: Global,
    section: &Section,
    old: &str,
    new: &str,
) -> Result<Option<bool>, NoMemory> {
    let changed = text(section).replace(alloc, old, new)?;
    log_is_end(alloc, changed.as_bytes())
}

// What stands in none of them.
const AS_IT_IS: &str = "\r";

// Each state, two terminals, and lines of a report among their bytes.
static STATES: &[u8] = b"\
tty 3 14\n\
pid 16 limit\n\
\n\
\n\
tty 2 2\n\
\xff\n\
\n\
pid 1 exit 1\n\
pid 1 trap 1\n\
pid 1 killed 1\n\
pid 1 limit\n\
pid 1 waiting\n\
pid 1 running\n\
crash none\n\
bus 0 syncs 0 withheld 0\n\
schedule 0\n\
log 0\n\
";

#[test]
fn each_state_is_of_the_form(rt: HostRuntime) -> Result<(), Fail> {
    same(
        "its log is its end",
        &log_is_end(rt.alloc(), STATES)?,
        &Some(true),
    )
}

// The last line, and the whole section again.
const AGAIN: &str = "\
done\n\
tty 0 3\n\
hi\n\
\n\
pid 16 exit 0\n\
crash none\n\
bus 3 syncs 0 withheld 0\n\
schedule 2\n\
run 16 6\n\
run 16 4\n\
log 3\n\
0 0 mail 16 at 6 out 0 tty 0 68690a\n\
1 0 exit 16 at 10 exit 0\n\
2 bus done\n\
";

// Another implementation takes the first eight of them, and refuses each other for its form, but for numbers of more than 64 bits.
static CASES: [(Section, &str, &str, Option<bool>); 54] = [
    // The whole output of a run of one process that writes and ends.
    (Section::Hi, AS_IT_IS, "", Some(true)),
    // A run with a loss that its backup covers.
    (Section::Lost, AS_IT_IS, "", Some(true)),
    // The smallest.
    (Section::Smallest, AS_IT_IS, "", Some(true)),
    // Numbers that no run has.
    (Section::Numbers, AS_IT_IS, "", Some(true)),
    // Losses in any order, and one that ended the run.
    (Section::Losses, AS_IT_IS, "", Some(true)),
    // No process.
    (Section::Hi, "pid 16 exit 0\n", "", Some(true)),
    // A process twice.
    (Section::Hi, "crash", "pid 16 exit 0\ncrash", Some(true)),
    // An other number.
    (Section::Hi, "at 6", "at 5", Some(true)),
    // Nothing.
    (Section::Smallest, SMALLEST, "", None),
    // A word.
    (Section::Smallest, SMALLEST, "tty", None),
    // No bytes.
    (Section::Smallest, SMALLEST, "tty 0 3\n", None),
    // A byte too few.
    (Section::Hi, "0 3", "0 2", None),
    // A byte too many.
    (Section::Hi, "0 3", "0 4", None),
    // More bytes than are.
    (Section::Hi, "0 3", "0 4294967296", None),
    // A line of bytes dropped.
    (Section::Hi, "hi\n", "", None),
    // No line feed behind the bytes.
    (Section::Hi, "hi\n\n", "hi\n", None),
    // A space before the terminal.
    (Section::Hi, "tty 0 3", " tty 0 3", None),
    // A leading zero.
    (Section::Hi, "pid 16", "pid 06", None),
    // Two spaces.
    (Section::Hi, "pid 16", "pid 16 ", None),
    // A space at the end.
    (Section::Hi, "16 exit 0\ncrash", "16 exit 0 \ncrash", None),
    // An unknown state.
    (Section::Hi, "16 exit 0\ncrash", "16 exits 0\ncrash", None),
    // A number behind a state.
    (Section::Smallest, "limit", "limit 0", None),
    // Neither a loss nor that there was none.
    (Section::Hi, "crash none\n", "", None),
    // None twice.
    (Section::Hi, "bus 3", "crash none\nbus 3", None),
    // None and a loss.
    (Section::Hi, "bus 3", "crash 0 at 1\nbus 3", None),
    // A loss and none.
    (Section::Lost, "bus 7", "crash none\nbus 7", None),
    // A loss dropped.
    (Section::Lost, "crash 0 at 1\n", "", None),
    // Two ends.
    (
        Section::Lost,
        "bus 7",
        "lost 0 at 1\nlost 0 at 1\nbus 7",
        None,
    ),
    // An end before the losses.
    (
        Section::Lost,
        "crash 0 at 1",
        "lost 0 at 1\ncrash 0 at 1",
        None,
    ),
    // No bus.
    (Section::Hi, "bus 3 syncs 0 withheld 0\n", "", None),
    // Bus twice.
    (
        Section::Hi,
        "schedule",
        "bus 3 syncs 0 withheld 0\nschedule",
        None,
    ),
    // No schedule.
    (Section::Hi, "schedule 2\n", "", None),
    // An item too few.
    (Section::Hi, "schedule 2", "schedule 1", None),
    // An item too many.
    (Section::Hi, "schedule 2", "schedule 3", None),
    // As many items as can be told.
    (
        Section::Hi,
        "schedule 2",
        "schedule 18446744073709551615",
        None,
    ),
    // An item dropped.
    (Section::Hi, "run 16 6\n", "", None),
    // An item doubled.
    (Section::Hi, "run 16 4", "run 16 6\nrun 16 4", None),
    // An item of two words.
    (Section::Hi, "run 16 6", "take 16 6", None),
    // No log.
    (
        Section::Hi,
        "log 3\n0 0 mail 16 at 6 out 0 tty 0 68690a\n1 0 exit 16 at 10 exit 0\n2 bus done\n",
        "",
        None,
    ),
    // A line too few.
    (Section::Hi, "log 3", "log 2", None),
    // A line too many.
    (Section::Hi, "log 3", "log 4", None),
    // As many lines as can be told.
    (Section::Hi, "log 3", "log 18446744073709551615", None),
    // A line dropped.
    (Section::Hi, "2 bus done\n", "", None),
    // A line doubled.
    (
        Section::Hi,
        "2 bus done\n",
        "2 bus done\n2 bus done\n",
        None,
    ),
    // An end that is missing.
    (Section::Hi, "done\n", "done", None),
    // An empty line behind.
    (Section::Hi, "done\n", "done\n\n", None),
    // An upper case digit.
    (Section::Hi, "68690a", "68690A", None),
    // Half a byte.
    (Section::Hi, "68690a", "68690", None),
    // A line of the section again.
    (Section::Hi, "done\n", AGAIN, None),
    // A carriage return.
    (Section::Hi, "\n", "\r\n", None),
    // A pid of 65 bits.
    (Section::Hi, "pid 16", "pid 18446744073709551616", None),
    // A count of 65 bits.
    (Section::Hi, "log 3", "log 18446744073709551616", None),
    // A count that is 3 in 64 bits.
    (Section::Hi, "log 3", "log 18446744073709551619", None),
    // A step of 20 digits.
    (Section::Hi, "at 6", "at 99999999999999999999", None),
];

#[test]
fn sections_are_of_the_form_and_neighbours_are_not(rt: HostRuntime) -> Result<(), Fail> {
    for (section, old, new, wanted) in &CASES {
        let found = changed(rt.alloc(), section, old, new)?;
        same(
            "its log is its end",
            &(*old, *new, found),
            &(*old, *new, *wanted),
        )?;
    }
    Ok(())
}
