//! Executables in system texts, and entries of images.
use std::alloc::{AllocError, Global};
use std::test::Fail;
use sys_text::printer::system_text;
use sys_text::{SystemRefused, read_system};
use t32_base::lists::Text;
use test_asserts::same;

const FRONT: &str = "clusters 2\npager 0 1\nsyncreads 2\nsyncsteps 64\n";

const ROOT: &str = "root 0 1 quarter hi 1000 0 0\n";

// A static executable of 124 bytes, which is its one segment.
static WORDS: [&str; 31] = [
    "464c457f", "00010101", "00000000", "00000000", "00f30002", "00000001", "00010054", "00000034",
    "00000000", "00000000", "00200034", "00000001", "00000000", "00000001", "00000000", "00010000",
    "00010000", "0000007c", "0000007c", "00000005", "00001000", "00200893", "00000513", "000105b7",
    "07858593", "00300613", "00000073", "00100893", "00000513", "00000073", "000a6968",
];

const READ: &str =
    "image hi 1 65620\nwords 464c457f 00010101 00000000 00000000 00f30002 00000001 00010054 00000034\nwords 00000000 00000000 00200034 00000001 00000000 00000001 00000000 00010000\nwords 00010000 0000007c 0000007c 00000005 00001000 00200893 00000513 000105b7\nwords 07858593 00300613 00000073 00100893 00000513 00000073 000a6968\nend\n";

// Words of the file that are changed: where, and to what.
type Changes = &'static [(usize, &'static str)];

fn changed(i: usize, word: &'static str, changes: Changes) -> &'static str {
    let mut now = word;
    for (at, other) in changes {
        if *at == i {
            now = other;
        }
    }
    now
}

fn push_words(text: &mut String, changes: Changes) -> Result<(), AllocError> {
    for (i, word) in WORDS.iter().enumerate() {
        text.push_str("words ")?;
        text.push_str(changed(i, word, changes))?;
        text.push_str("\n")?;
    }
    Ok(())
}

// The block of the file with some of its words changed.
fn block(alloc: Global, header: &str, changes: Changes, end: &str) -> Result<String, AllocError> {
    let mut text = [header, "\n"].concat(alloc)?;
    push_words(&mut text, changes)?;
    text.push_str(end)?;
    text.push_str("\n")?;
    Ok(text)
}

fn printed(alloc: Global, block: &str) -> Result<Text, Fail> {
    let text = [FRONT, block, ROOT].concat(alloc)?;
    let system = read_system(alloc, text.as_bytes())?;
    Ok(system_text(alloc, &system)?)
}

fn assert_printed(alloc: Global, block: &str, wanted: &str) -> Result<(), Fail> {
    let printed = printed(alloc, block)?;
    let wanted = [FRONT, wanted, ROOT].concat(alloc)?;
    same(block, &printed.as_slice(), &wanted.as_bytes())
}

fn assert_refused(alloc: Global, block: &str, line: u64, rule: u8) -> Result<(), Fail> {
    assert_refused_before(alloc, block, ROOT, line, rule)
}

fn assert_refused_before(
    alloc: Global,
    block: &str,
    behind: &str,
    line: u64,
    rule: u8,
) -> Result<(), Fail> {
    let text = [FRONT, block, behind].concat(alloc)?;
    let refused = read_system(alloc, text.as_bytes()).err();
    same(
        block,
        &refused,
        &Some(SystemRefused::BadLine { line, rule }),
    )
}

const UNCHANGED: Changes = &[];

// The file behind this header is refused with this text behind it, by this line and rule.
fn assert_file_refused(
    alloc: Global,
    header: &str,
    changes: Changes,
    behind: &str,
    (line, rule): (u64, u8),
) -> Result<(), Fail> {
    let file = block(alloc, header, changes, "end")?;
    assert_refused_before(alloc, &file, behind, line, rule)
}

#[test]
fn a_file_is_read_as_its_memory(rt: HostRuntime) -> Result<(), Fail> {
    let alloc = rt.alloc();
    let file = block(alloc, "elf hi 1 124", UNCHANGED, "end")?;
    assert_printed(alloc, &file, READ)
}

// Files that break one rule each, and the number of the rule.
static BROKEN: [(Changes, u8); 10] = [
    (&[(0, "464c457e")], 11),
    (&[(1, "00010102")], 12),
    (&[(4, "00f30003")], 13),
    (&[(9, "00000001")], 14),
    (&[(10, "00210034")], 15),
    (&[(13, "00000002")], 16),
    (&[(17, "0000007d")], 17),
    (&[(18, "00000101")], 18),
    (
        &[
            (11, "00000002"),
            (21, "00000001"),
            (22, "00000000"),
            (23, "00010000"),
            (25, "00000004"),
            (26, "00000004"),
        ],
        19,
    ),
    (&[(6, "00010056")], 20),
];

#[test]
fn a_file_is_refused_at_its_end(rt: HostRuntime) -> Result<(), Fail> {
    let alloc = rt.alloc();
    for row in BROKEN.iter() {
        assert_file_refused(alloc, "elf hi 1 124", row.0, ROOT, (37, row.1))?;
    }
    Ok(())
}

#[test]
fn the_end_of_the_text_is_named_before_the_file(rt: HostRuntime) -> Result<(), Fail> {
    let alloc = rt.alloc();
    for row in BROKEN.iter() {
        assert_file_refused(alloc, "elf hi 1 124", row.0, "", (37, 10))?;
        assert_file_refused(alloc, "elf hi 1 124", row.0, "#", (37, row.1))?;
    }
    assert_file_refused(alloc, "elf hi 1 124", UNCHANGED, "", (37, 10))?;
    assert_file_refused(alloc, "elf hi 1 124", UNCHANGED, "#\n", (38, 10))?;
    assert_file_refused(alloc, "elf hi 1 120", UNCHANGED, "", (37, 8))
}

// The first and the last line of the block; the line and the rule that is named.
static HEADERS: [(&str, &str, u64, u8); 11] = [
    ("elf hi 1", "end", 5, 3),
    ("elf hi 1 124 1", "end", 5, 3),
    ("elf Hi 1 124", "end", 5, 4),
    ("elf hi 1 x", "end", 5, 4),
    ("elf hi 0 124", "end", 5, 5),
    ("elf hi 1 0", "end", 5, 5),
    ("elf hi 1 65537", "end", 5, 5),
    ("elf hi 1 124", "end a", 37, 3),
    ("elf hi 1 120", "end", 37, 8),
    ("elf hi 1 125", "end", 37, 8),
    ("elf hi 1 123", "end", 37, 17),
];

fn assert_block_refused(
    alloc: Global,
    header: &str,
    end: &str,
    line: u64,
    rule: u8,
) -> Result<(), Fail> {
    let file = block(alloc, header, UNCHANGED, end)?;
    assert_refused(alloc, &file, line, rule)
}

#[test]
fn a_block_of_a_file_keeps_the_rules(rt: HostRuntime) -> Result<(), Fail> {
    let alloc = rt.alloc();
    for row in HEADERS.iter() {
        assert_block_refused(alloc, row.0, row.1, row.2, row.3)?;
    }
    assert_refused(
        alloc,
        "image hi 1\nend\nelf hi 1 4\nwords 00000000\nend\n",
        7,
        7,
    )?;
    assert_refused(alloc, "elf hi 1 4\nroot 0 1 quarter hi 1 0 0\n", 6, 2)
}

// The first line of an image; the rule that is named, or 0, and then the line that is printed.
static ENTRIES: [(&str, u8, &str); 11] = [
    ("image hi 1 65536", 0, "image hi 1"),
    ("image hi 1 65620", 0, "image hi 1 65620"),
    ("image hi 1 00065620", 0, "image hi 1 65620"),
    ("image hi 1 65788", 0, "image hi 1 65788"),
    ("image hi 1 65538", 5, ""),
    ("image hi 1 65532", 5, ""),
    ("image hi 1 65792", 5, ""),
    ("image hi 1 4294967296", 5, ""),
    ("image hi 1 x", 4, ""),
    ("image hi 1 65536 1", 3, ""),
    ("asm hi 1 65536", 3, ""),
];

fn one_word(alloc: Global, header: &str) -> Result<String, AllocError> {
    [header, "\nwords 00000073\nend\n"].concat(alloc)
}

fn assert_entry_printed(alloc: Global, header: &str, printed: &str) -> Result<(), Fail> {
    let block = one_word(alloc, header)?;
    let wanted = one_word(alloc, printed)?;
    assert_printed(alloc, &block, &wanted)
}

fn assert_entry_refused(alloc: Global, header: &str, rule: u8) -> Result<(), Fail> {
    let block = one_word(alloc, header)?;
    assert_refused(alloc, &block, 5, rule)
}

fn assert_entry(alloc: Global, header: &str, rule: u8, printed: &str) -> Result<(), Fail> {
    if rule == 0 {
        return assert_entry_printed(alloc, header, printed);
    }
    assert_entry_refused(alloc, header, rule)
}

#[test]
fn an_entry_is_an_address_of_the_image(rt: HostRuntime) -> Result<(), Fail> {
    for row in ENTRIES.iter() {
        assert_entry(rt.alloc(), row.0, row.1, row.2)?;
    }
    Ok(())
}
