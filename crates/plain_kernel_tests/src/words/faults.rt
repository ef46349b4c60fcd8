//! Which word is wrong, and why. The rows are those of the formats.
use crate::words::words::words;
use std::alloc::Global;
use std::test::Fail;
use t32_base::lists::Text;
use t32_base::streams::NoMemory;
use test_asserts::same;
use word_faults::fault::word_hint;

// What is noted of the words of a line; no hint is no text.
pub fn noted(alloc: Global, line: &[u8]) -> Result<Text, NoMemory> {
    let words = words(alloc, line)?;
    match word_hint(alloc, &words)? {
        Some(hint) => Ok(hint),
        None => Ok(Text::new(alloc)),
    }
}

fn assert_noted(alloc: Global, line: &[u8], wanted: &str) -> Result<(), Fail> {
    let noted = noted(alloc, line)?;
    let shown = (line, noted.as_slice());
    same("what is noted", &shown, &(line, wanted.as_bytes()))
}

static NOTED: [(&[u8], &str); 13] = [
    (b"", ""),
    (b"--help", ""),
    (b"sim --log --pick 3 crash:1@bus:9", ""),
    (b"run return:0@bus:1", ""),
    (b"load 7 --text return:0@bus:1 disk:0@1", ""),
    (
        b"simulate",
        "t32: word 1: simulate: no command has this name\n",
    ),
    (
        b"check --log",
        "t32: word 2: --log: this command takes no words\n",
    ),
    (
        b"run --pick=1",
        "t32: word 2: --pick=1: this command has no such option\n",
    ),
    (
        b"sim --log -- --log",
        "t32: word 4: --log: it is none of crash:K@bus:N, crash:K@step:N, disk:K@N and return:K@bus:N, where K and N are 1 to 10 digits and N is at most 4294967295\n",
    ),
    (
        b"sim --pick -- 1",
        "t32: word 3: --: --pick takes a number, 0 to 2147483647\n",
    ),
    (
        b"load --text",
        "t32: word 1: load: load takes its size, 1 to 1000, before any other word that is no option\n",
    ),
    (
        b"load 1001",
        "t32: word 2: 1001: the size of load is a number, 1 to 1000\n",
    ),
    (b"sim \xff", "t32: word 2: ?: it is no UTF-8\n"),
];

#[test]
fn the_first_wrong_word_is_noted(rt: HostRuntime) -> Result<(), Fail> {
    for row in NOTED.iter() {
        assert_noted(rt.alloc(), row.0, row.1)?;
    }
    Ok(())
}
