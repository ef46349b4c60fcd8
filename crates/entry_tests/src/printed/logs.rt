//! A log of two processes that send signals, of which the one is moved: another implementation printed it.
use crate::printed::values::ends;
use std::alloc::Global;
use std::test::Fail;
use t32_base::streams::NoMemory;
use test_asserts::same;
use text_parts::first_line;

static LOG: &[u8] = b"\
0 1 mail 17 at 8 out 1 to 16 end 1 776f726b\n\
1 0 mail 16 at 17 out 1 to 17 end 1 776f726b\n\
2 1 mail 17 at 19 to 16 sig 1\n\
3 0 page 16 at 17 0\n\
4 0 sync 16 at 17 take 1\n\
5 1 mail 17 at 27 out 1 to 16 end 1 776f726b\n\
6 0 mail 16 at 25 out 0 tty 0 616761696e0a\n\
7 0 mail 16 at 41 out 1 to 17 end 1 776f726b\n\
8 bus crash 0 place\n\
9 1 mail 17 at 38 to 16 sig 15\n\
10 1 fetch 16 0\n\
11 1 pageis 16 0\n\
12 1 mail 17 at 46 out 1 to 16 end 1 776f726b\n\
13 1 page 16 at 41 0\n\
14 1 sync 16 at 41 take 15\n\
15 1 mail 16 at 49 out 0 tty 0 73746f700a\n\
16 1 mail 16 at 53 out 1 to 17 end 1 eof\n\
17 1 mail 17 at 59 out 0 tty 1 676f6e650a\n\
18 1 exit 16 at 54 exit 3\n\
19 1 mail 17 at 63 out 1 to 16 end 1 eof\n\
20 1 exit 17 at 64 exit 0\n\
21 bus done\n";

fn place(alloc: Global, line: &[u8]) -> Result<Option<u64>, NoMemory> {
    match ends(alloc, line)? {
        Some(ends) => Ok(Some(ends.0)),
        None => Ok(None),
    }
}

#[test]
fn each_line_of_a_log_is_read(rt: HostRuntime) -> Result<(), Fail> {
    let mut rest = LOG;
    for number in 0..22u64 {
        if rest.is_empty() {
            return Err(Fail::new("the log is too short"));
        }
        let (line, after) = first_line(rest);
        same("the place", &place(rt.alloc(), line)?, &Some(number))?;
        rest = after;
    }
    same("left", &rest.len(), &0)
}
