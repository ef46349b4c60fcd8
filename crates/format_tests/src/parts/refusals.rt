//! What is said of a refused line.
use refusal_text::why::{ItemFault, Why, asm_why, item_why, system_why};
use std::alloc::Global;
use std::test::Fail;
use test_asserts::same;

// Two assembler blocks; the second one names a label that only the first defines, and a line with a tab stands behind it.
const BLOCKS: &[u8] =
    b"# two\nclusters 2\nasm a 1\nhere: j here\nend\nasm b 1\n  j here\nli a0\nend\n\tx\nroot 0 0 quarter a 9 0 0";

const SECTION: &[u8] = b"# items\nschedule 2\n\nrun 16 6\n# more\nrun 16 x";

// A line of the blocks and the number of its rule, and what is said of it. The rules of the assembler are those of the formats.
static LINES: [(u64, u8, &str); 4] = [
    (
        7,
        9,
        "t32: line 7 of the system text breaks rule 9: the assembler refuses it, by its rule 6: no line defines the label that it names\n7 |   j here\n",
    ),
    (
        10,
        1,
        "t32: line 10 of the system text breaks rule 1: it has a byte outside 0x20 to 0x7E, shown as ?\n10 | ?x\n",
    ),
    (
        11,
        6,
        "t32: line 11 of the system text breaks rule 6: its two clusters or its two roots are the same\n11 | root 0 0 quarter a 9 0 0\n",
    ),
    (
        12,
        10,
        "t32: line 12 of the system text breaks rule 10: the text ends before its first root, or inside a block\n",
    ),
];

const ASM_LINE: &str =
    "t32: line 2 of the assembler text breaks rule 3: its operands are not those of the statement, or its label is no name\n2 | li a0\n";

const ITEM: &str =
    "t32: item 1 of the schedule cannot be read: its line or the first line is malformed or missing, or its line is one too many\n1 | run 16 x\n";

fn assert_said(alloc: Global, why: &Why, told: &str) -> Result<(), Fail> {
    let said = why.text(alloc)?;
    same("what is said", &said.as_slice(), &told.as_bytes())
}

fn assert_line_said(alloc: Global, line: u64, rule: u8, told: &str) -> Result<(), Fail> {
    assert_said(alloc, &system_why(alloc, BLOCKS, line, rule), told)
}

fn assert_asm_line_said(alloc: Global) -> Result<(), Fail> {
    assert_said(alloc, &asm_why(alloc, b"nop\nli a0\n", 2, 3), ASM_LINE)
}

fn assert_item_said(alloc: Global) -> Result<(), Fail> {
    let why = item_why(alloc, SECTION, 1, ItemFault::Unreadable);
    assert_said(alloc, &why, ITEM)
}

#[test]
fn a_line_is_told_with_its_rules(rt: HostRuntime) -> Result<(), Fail> {
    for row in LINES.iter() {
        assert_line_said(rt.alloc(), row.0, row.1, row.2)?;
    }
    assert_asm_line_said(rt.alloc())?;
    assert_item_said(rt.alloc())
}
