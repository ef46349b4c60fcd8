//! Lines that are read, and their neighbours that are not.
use entry_lines::{Told, read_told, told_text};
use std::alloc::Global;
use std::test::Fail;
use t32_base::streams::NoMemory;
use test_asserts::same;
use text_parts::first_line;

fn is_printed(alloc: Global, told: &Told, line: &[u8]) -> Result<bool, NoMemory> {
    Ok(told_text(alloc, told)?.as_slice() == line)
}

// Whether what was read of a line is printed as this line; none where the line is not read.
fn reads(alloc: Global, line: &[u8]) -> Result<Option<bool>, NoMemory> {
    match read_told(alloc, line)? {
        Some(told) => Ok(Some(is_printed(alloc, &told, line)?)),
        None => Ok(None),
    }
}

// Each of so many lines is read and printed again, or none is.
fn assert_each(alloc: Global, text: &[u8], lines: u32, wanted: Option<bool>) -> Result<(), Fail> {
    let mut rest = text;
    for _ in 0..lines {
        if rest.is_empty() {
            return Err(Fail::new("the text is too short"));
        }
        let (line, after) = first_line(rest);
        same("read", &(line, reads(alloc, line)?), &(line, wanted))?;
        rest = after;
    }
    same("left", &rest.len(), &0)
}

// Each kind as the table of the formats has it, and the greatest and the least of what a line may say.
static LINES: &[u8] = b"\
0 0 mail 16 at 6 out 0 tty 0 68690a\n\
7 1 mail 17 at 9 out 1 tty 15 00689fff\n\
3 1 mail 17 at 9 out 1 to 16 end 2 78\n\
4 1 mail 17 at 9 out 1 to 16 end 2 eof\n\
5 1 mail 17 at 9 to 16 sig 10\n\
6 0 birth 16 at 3 child 32 end 1\n\
1 0 exit 16 at 10 exit 0\n\
7 0 exit 16 at 10 trap 2\n\
8 0 exit 16 at 10 killed 9\n\
9 0 exit 16 at 1000 limit\n\
10 0 page 16 at 40 3\n\
11 0 sync 16 at 40 plain\n\
12 0 sync 16 at 40 take 10\n\
13 1 fetch 16 3\n\
14 0 pageis 16 3\n\
15 bus crash 0 place\n\
16 bus crash 12 step 7\n\
17 bus crash 1 disk 4294967295\n\
18 bus return 15\n\
19 2 rebackup 17 at 80 to 0 fresh\n\
20 2 rebackup 17 33 49 to 0 standing\n\
21 bus done\n\
22 bus stop\n\
0 0 mail 16 at 6 out 0 tty 0 \n\
0 0 mail 16 at 6 out 0 to 17 end 0 \n\
18446744073709551615 0 fetch 4294967295 255\n\
0 18446744073709551615 fetch 0 0\n\
0 bus crash 0 step 18446744073709551615\n\
0 bus exit 5000000000 at 0 exit 256\n\
0 2 rebackup 17 33 at 18446744073709551615 to 0 fresh\n\
";

#[test]
fn lines_of_each_kind_are_read(rt: HostRuntime) -> Result<(), Fail> {
    assert_each(rt.alloc(), LINES, 30, Some(true))
}

static NONE: &[u8] = b"\
\n\
\x20\n\
0\n\
0 0\n\
0 0 \n\
0 bus\n\
bus bus done\n\
0  done\n\
00 bus done\n\
01 bus done\n\
0 Bus done\n\
0 bus Done\n\
0 bus don\n\
0 bus done \n\
0 bus done 0\n\
\x200 bus done\n\
0  bus done\n\
0 bus  done\n\
0\tbus done\n\
0 bus stop.\n\
0 00 fetch 16 3\n\
0 0 fetch 016 3\n\
0 0 fetch 16 03\n\
0 0 fetch 16\n\
0 0 fetch 16 \n\
0 0 fetch 16 3 4\n\
0 0 fetch +16 3\n\
0 0 fetch -16 3\n\
0 0 fetch 1a 3\n\
0 0 fetch 18446744073709551616 3\n\
99999999999999999999 0 fetch 16 3\n\
0 0 fetch 16 00000000000000000003\n\
0 0 pageis 16\n\
0 0 page 16 at 40\n\
0 0 page 16 40 3\n\
0 0 sync 16 at 40\n\
0 0 sync 16 at 40 take\n\
0 0 sync 16 at 40 plain 1\n\
0 0 exit 16 at 10\n\
0 0 exit 16 at 10 exit\n\
0 0 exit 16 at 10 exit 00\n\
0 0 exit 16 at 10 limit 0\n\
0 0 exit 16 of 10 limit\n\
0 0 birth 16 at 3 child 32\n\
0 0 mail 16 at 6 out 0 tty 0\n\
0 0 mail 16 at 6 out 0 tty 0 68690A\n\
0 0 mail 16 at 6 out 0 tty 0 68690\n\
0 0 mail 16 at 6 out 0 tty 0 6869 0a\n\
0 0 mail 16 at 6 out 0 tty 0 6g\n\
0 0 mail 16 at 6 out 0 tty 0 eof\n\
0 0 mail 16 at 6 out 0 to 17 end 1 EOF\n\
0 0 mail 16 at 6 out 0 to 17 sig 9\n\
0 bus crash 0\n\
0 bus crash 0 step\n\
0 bus crash 0 place 0\n\
0 0 rebackup 17 to 0 fresh\n\
0 0 rebackup 17 at 80 to 0 standing\n\
";

#[test]
fn neighbours_are_not_read(rt: HostRuntime) -> Result<(), Fail> {
    assert_each(rt.alloc(), NONE, 57, None)?;
    let two = b"0 bus done\n";
    same("a line with its end", &reads(rt.alloc(), two)?, &None)
}
