//! What is noted of a refused line. Fields, limits and rules are those of the formats.
use hints::asm_lines::asm_line;
use hints::system::system_hint;
use std::alloc::Global;
use std::test::Fail;
use t32_base::lists::Text;
use test_asserts::same;

const FRONT: &str = "clusters 2\npager 0 1\nsyncreads 32\nsyncsteps 4096\n";

// What is noted of a line; no hint is no text.
fn noted(alloc: Global, behind: &str, line: u64, rule: u8) -> Result<Text, Fail> {
    let text = [FRONT, behind].concat(alloc)?;
    match system_hint(alloc, text.as_bytes(), line, rule)? {
        Some(hint) => Ok(hint),
        None => Ok(Text::new(alloc)),
    }
}

// This is noted of a line of the front with these lines behind it, which is refused by this rule; no text is nothing.
fn assert_noted(
    alloc: Global,
    behind: &str,
    line: u64,
    rule: u8,
    wanted: &str,
) -> Result<(), Fail> {
    let noted = noted(alloc, behind, line, rule)?;
    same(behind, &noted.as_slice(), &wanted.as_bytes())
}

static FIELDS: [(&str, u8, &str); 8] = [
    (
        "root 0 2 quarter a 9 0 0",
        5,
        "t32: line 5: rule 5: BACKUP is 2; it may be 0 to 1\n",
    ),
    (
        "root 0 1 quarter a 100001 0 0",
        5,
        "t32: line 5: rule 5: LIMIT is 100001; it may be 1 to 100000\n",
    ),
    (
        "root 0 1 quarter a 9 32 16",
        5,
        "t32: line 5: rule 5: BIRTHS is 32; it may be 0 to 31\n",
    ),
    (
        "asm a 0",
        5,
        "t32: line 5: rule 5: PAGES is 0; it may be 1 to 256\n",
    ),
    (
        "root 0 1 quarters a 9 0 0",
        4,
        "t32: line 5: rule 4: MODE is quarters; it has to be quarter, half or full\n",
    ),
    (
        "chan 1 b",
        4,
        "t32: line 5: rule 4: B is b; it has to be a number of 1 to 10 digits\n",
    ),
    ("chan 1 1", 6, ""),
    (
        "asm a 1 # one",
        3,
        "t32: line 5: rule 3: # begins no comment here; outside asm blocks a comment is a line of its own\n",
    ),
];

#[test]
fn the_field_that_breaks_a_rule_is_noted(rt: HostRuntime) -> Result<(), Fail> {
    for row in FIELDS.iter() {
        assert_noted(rt.alloc(), row.0, 5, row.1, row.2)?;
    }
    Ok(())
}

static BLOCKS: [(&str, u64, u8, &str); 4] = [
    (
        "image a 1\nwords 00000073\nroot 0 1 quarter a 9 0 0",
        7,
        2,
        "t32: line 7: rule 2: the block that line 5 opens may lack its end\n",
    ),
    (
        "asm a 1\necall\nend # a\nend",
        7,
        9,
        "t32: line 7: rule 9: a block ends at a line whose only field is end\n",
    ),
    (
        "asm a 1\necall\nend # a",
        7,
        10,
        "t32: line 7: rule 10: the block that line 5 opens has no end, a line whose only field is end; maybe at line 7\n",
    ),
    (
        "asm a 1\nend\nasm b 1\necall",
        8,
        10,
        "t32: line 8: rule 10: the block that line 7 opens has no end\n",
    ),
];

#[test]
fn a_missing_end_is_guessed_at(rt: HostRuntime) -> Result<(), Fail> {
    for row in BLOCKS.iter() {
        assert_noted(rt.alloc(), row.0, row.1, row.2, row.3)?;
    }
    Ok(())
}

// An image of words, and a block of the assembler: `la` makes two words, a line without a statement none, and six bytes make two.
const PROGRAMS: &[u8] =
    b"image w 1\nwords 00000073 00000073\nend\nasm a 1\nstart: la a0, text # two\n\n  j start\ntext: .ascii \"abcdef\"\n  ecall\nend\n";

// The image, the word, and the line that makes it.
static LINES: [(u64, u64, Option<u64>); 9] = [
    (0, 0, None),
    (1, 0, Some(5)),
    (1, 1, Some(5)),
    (1, 2, Some(7)),
    (1, 3, Some(8)),
    (1, 4, Some(8)),
    (1, 5, Some(9)),
    (1, 6, None),
    (2, 0, None),
];

#[test]
fn the_line_of_a_word_is_found(rt: HostRuntime) -> Result<(), Fail> {
    for row in LINES.iter() {
        let found = asm_line(rt.alloc(), PROGRAMS, row.0, row.1)?;
        same("the line", &(row.0, row.1, found), row)?;
    }
    Ok(())
}
