//! Which texts are read, and which line and rule of the others is named.
use std::alloc::Global;
use std::test::Fail;
use sys_text::printer::system_text;
use sys_text::system::{Root, System};
use sys_text::{SystemRefused, read_system};
use t32_base::lists::Text;
use test_asserts::same;

const FRONT: &str = "clusters 2\npager 0 1\nsyncreads 32\nsyncsteps 4096\n";

const HI: &str =
    "image hi 1\nwords 00200893 00000513 000105b7 02458593 00300613 00000073 00100893 00000513\nwords 00000073 000a6968\nend\n";

const HI_PROGRAM: &str =
    "asm hi 1\n# says hi\nli a7, 2\nli a0, 0\nla a1, m\nli a2, 3\necall\n\nli a7, 1\nli a0, 0\necall\nm: .ascii \"hi\\n\"\n end\n";

const ROOT: &str = "root 0 1 quarter hi 1000 0 0\n";

fn lines_of(text: &[u8]) -> u64 {
    let mut lines = 0u64;
    for byte in text {
        if *byte == b'\n' {
            lines = lines.saturating_add(1);
        }
    }
    lines
}

fn refused(alloc: Global, text: &[u8]) -> Option<SystemRefused> {
    read_system(alloc, text).err()
}

fn assert_refused(alloc: Global, text: &[u8], line: u64, rule: u8, what: &str) -> Result<(), Fail> {
    let wanted = Some(SystemRefused::BadLine { line, rule });
    same(what, &refused(alloc, text), &wanted)
}

fn assert_read(alloc: Global, text: &[u8], what: &str) -> Result<(), Fail> {
    same(what, &refused(alloc, text), &None)
}

// A text with its program in words or in lines of the assembler, read and printed.
fn reprinted(alloc: Global, block: &str) -> Result<Text, Fail> {
    let text = [FRONT, block, ROOT].concat(alloc)?;
    let system = read_system(alloc, text.as_bytes())?;
    Ok(system_text(alloc, &system)?)
}

// It is printed with its words.
fn assert_reprinted(alloc: Global, block: &str) -> Result<(), Fail> {
    let printed = reprinted(alloc, block)?;
    same(block, &printed.as_slice(), &CANONICAL.as_bytes())
}

const CANONICAL: &str =
    "clusters 2\npager 0 1\nsyncreads 32\nsyncsteps 4096\nimage hi 1\nwords 00200893 00000513 000105b7 02458593 00300613 00000073 00100893 00000513\nwords 00000073 000a6968\nend\nroot 0 1 quarter hi 1000 0 0\n";

#[test]
fn a_program_is_read_as_its_words(rt: HostRuntime) -> Result<(), Fail> {
    assert_reprinted(rt.alloc(), HI)?;
    assert_reprinted(rt.alloc(), HI_PROGRAM)
}

// Three parts of a text; the line and the rule that is named, and why.
type Example = (
    &'static str,
    &'static str,
    &'static str,
    u64,
    u8,
    &'static str,
);

static EXAMPLES: [Example; 6] = [
    (
        FRONT,
        HI,
        "root 0 0 quarter hi 1000 0 0\n",
        9,
        6,
        "one cluster twice",
    ),
    (
        FRONT,
        "image hi 1\n",
        "words 00200893 00000513\n",
        6,
        10,
        "cut after line 6",
    ),
    ("", "", "", 1, 10, "the empty text"),
    ("# one\n", "\n", "  # three", 3, 10, "skipped lines alone"),
    (
        FRONT,
        "asm a 1\n",
        "j x\nx: addd\nend\n",
        7,
        9,
        "a label of a refused line",
    ),
    (
        FRONT,
        "asm a 1\n",
        "addd\n# \x7f\n",
        7,
        1,
        "a block that does not end",
    ),
];

fn assert_example(alloc: Global, row: &Example) -> Result<(), Fail> {
    let text = [row.0, row.1, row.2].concat(alloc)?;
    assert_refused(alloc, text.as_bytes(), row.3, row.4, row.5)
}

#[test]
fn the_examples_of_refusals(rt: HostRuntime) -> Result<(), Fail> {
    for row in EXAMPLES.iter() {
        assert_example(rt.alloc(), row)?;
    }
    Ok(())
}

// The texts before the last line, in two parts; last lines that each break a rule behind them, and the rule.
static RULES: [(&str, &str, &[(&str, u8)]); 8] = [
    (
        "",
        "",
        &[
            ("clusters 2\t", 1),
            ("# \x7f", 1),
            ("cluster 2", 2),
            ("pager 0 1", 2),
            ("clusters", 3),
            ("clusters 2 2", 3),
            ("clusters two", 4),
            ("clusters 00000000002", 4),
            ("clusters 1", 5),
            ("clusters 17", 5),
            ("clusters 2", 10),
        ],
    ),
    (
        "",
        "clusters 2\n",
        &[
            ("pager 0 1\r", 1),
            ("clusters 2", 2),
            ("pager 0", 3),
            ("pager 2 x", 4),
            ("pager 0 2", 5),
            ("pager 2 2", 5),
            ("pager 1 1", 6),
            ("pager 0 1", 10),
        ],
    ),
    (
        "",
        "clusters 2\npager 0 1\n",
        &[
            ("syncsteps 64", 2),
            ("syncreads", 3),
            ("syncreads -1", 4),
            ("syncreads 0", 5),
            ("syncreads 1001", 5),
            ("syncreads 1000", 10),
        ],
    ),
    (
        "",
        "clusters 2\npager 0 1\nsyncreads 1\n",
        &[
            ("syncreads 1", 2),
            ("syncsteps 64 64", 3),
            ("syncsteps 0x40", 4),
            ("syncsteps 63", 5),
            ("syncsteps 100001", 5),
            ("syncsteps 100000", 10),
        ],
    ),
    (
        FRONT,
        "",
        &[
            ("image a 1\x01", 1),
            ("end", 2),
            ("chan 1 2", 2),
            ("schedule 1", 2),
            ("image a", 3),
            ("asm a 1 1", 3),
            ("image A 1", 4),
            ("image a1b2c3d4e5f6g7h8i 1", 4),
            ("asm 1a 1", 4),
            ("image a 0", 5),
            ("asm a 257", 5),
            ("root 0 1 full a 1 0 0", 7),
            ("image a 256", 10),
            ("asm a 256", 10),
            ("asm a 1\nend x", 10),
            ("asm a 1\n\x7f", 1),
            ("asm a 1\nend\nroot 0 1 full b 1 0 0", 7),
        ],
    ),
    (
        FRONT,
        "image a 1\n",
        &[
            ("words 00000000\t", 1),
            ("# \x7f", 1),
            ("image b 1", 2),
            ("root 0 1 full a 1 0 0", 2),
            ("words", 3),
            ("end a", 3),
            ("words 0", 4),
            ("words 0000000g", 4),
            (
                "words 00000000 00000000 00000000 00000000 00000000 00000000 00000000 00000000 0",
                4,
            ),
            ("words 00000000 # x", 4),
            ("words 00000000", 10),
            ("end", 10),
        ],
    ),
    (
        FRONT,
        "image a 1\nend\n",
        &[
            ("root 0 1 full a 1 0 0\t", 1),
            ("words 00000000", 2),
            ("root 0 1 full a 1 0", 3),
            ("root 0 1 fully a 1 0 0", 4),
            ("root 0 1 full a 1 0 x", 4),
            ("root 0 2 full a 1 0 0", 5),
            ("root 0 1 full a 0 0 0", 5),
            ("root 0 1 full a 100001 0 0", 5),
            ("root 0 1 full a 1 32 0", 5),
            ("root 0 1 full a 1 0 16", 5),
            ("root 1 1 full b 1 0 0", 6),
            ("root 0 1 full b 1 0 0", 7),
            ("image a 1", 7),
            ("asm a 1", 7),
        ],
    ),
    (
        FRONT,
        "image a 1\nend\nroot 0 1 full a 1 30 0\n",
        &[
            ("chan 1 2\t", 1),
            ("image b 1", 2),
            ("chan 1", 3),
            ("chan 1 x", 4),
            ("chan 1 1", 6),
            ("chan 9 9", 6),
            ("chan 1 2", 7),
            ("chan 0 1", 7),
            ("chan 1 9999999999", 7),
            ("root 0 1 full a 1 1 0", 8),
        ],
    ),
];

fn assert_last_line(
    alloc: Global,
    front: &str,
    amid: &str,
    line: &str,
    rule: u8,
) -> Result<(), Fail> {
    let text = [front, amid, line, "\n"].concat(alloc)?;
    assert_refused(
        alloc,
        text.as_bytes(),
        lines_of(text.as_bytes()),
        rule,
        line,
    )
}

// The last line of each text breaks the rule.
fn assert_last_lines(
    alloc: Global,
    front: &str,
    amid: &str,
    rows: &[(&str, u8)],
) -> Result<(), Fail> {
    for row in rows {
        assert_last_line(alloc, front, amid, row.0, row.1)?;
    }
    Ok(())
}

#[test]
fn each_rule_in_each_line(rt: HostRuntime) -> Result<(), Fail> {
    for rule in RULES.iter() {
        assert_last_lines(rt.alloc(), rule.0, rule.1, rule.2)?;
    }
    Ok(())
}

// A text of these parts, with one of them so many times.
fn repeated(
    alloc: Global,
    front: &[u8],
    amid: &[u8],
    part: &[u8],
    count: u32,
) -> Result<Vec<u8>, Fail> {
    let mut text = Vec::new(alloc);
    text.extend_from_slice(front)?;
    text.extend_from_slice(amid)?;
    for _ in 0..count {
        text.extend_from_slice(part)?;
    }
    Ok(text)
}

// Two processes with so many channels.
fn channels(alloc: Global, count: u32) -> Result<Vec<u8>, Fail> {
    let roots = b"image a 1\nend\nroot 0 1 full a 1 0 0\nroot 0 1 full a 1 0 0\n";
    repeated(alloc, FRONT.as_bytes(), roots, b"chan 1 2\n", count)
}

#[test]
fn there_is_no_room_for_32_channels(rt: HostRuntime) -> Result<(), Fail> {
    let text = channels(rt.alloc(), 32)?;
    assert_refused(rt.alloc(), text.as_slice(), 40, 8, "end 32")
}

#[test]
fn there_is_room_for_31_channels(rt: HostRuntime) -> Result<(), Fail> {
    let text = channels(rt.alloc(), 31)?;
    assert_read(rt.alloc(), text.as_slice(), "31 channels")
}

// A block of one page, with one of its lines so many times.
fn block_of(alloc: Global, first: &str, line: &str, count: u32) -> Result<Vec<u8>, Fail> {
    let (first, line) = (first.as_bytes(), line.as_bytes());
    let mut text = repeated(alloc, FRONT.as_bytes(), first, line, count)?;
    text.extend_from_slice(b"end\n")?;
    Ok(text)
}

fn assert_full(alloc: Global, first: &str, word: &str, line: u64) -> Result<(), Fail> {
    let text = block_of(alloc, first, word, 65)?;
    assert_refused(alloc, text.as_slice(), line, 8, "65 words in a page")
}

#[test]
fn there_is_no_room_for_65_words_in_a_page(rt: HostRuntime) -> Result<(), Fail> {
    assert_full(rt.alloc(), "image a 1\n", "words 00000000\n", 70)?;
    assert_full(rt.alloc(), "asm a 1\n", "ecall\n", 71)
}

#[test]
fn a_long_line_is_read(rt: HostRuntime) -> Result<(), Fail> {
    let block = b"image a 256\nwords";
    let text = repeated(rt.alloc(), FRONT.as_bytes(), block, b" 00000000", 70_000)?;
    assert_refused(rt.alloc(), text.as_slice(), 6, 8, "a line of 70,000 fields")
}

// So many comments, and a system behind them.
fn commented(alloc: Global, count: u32) -> Result<Vec<u8>, Fail> {
    let mut text = repeated(alloc, b"", b"", b"# a comment\n", count)?;
    text.extend_from_slice(FRONT.as_bytes())?;
    text.extend_from_slice(HI.as_bytes())?;
    text.extend_from_slice(b"root 0 1 quarter hi 1000 0 0")?;
    Ok(text)
}

#[test]
fn many_comments_are_read(rt: HostRuntime) -> Result<(), Fail> {
    let text = commented(rt.alloc(), 100_000)?;
    assert_read(rt.alloc(), text.as_slice(), "100,000 comments")
}

fn push_image(alloc: Global, text: &mut Vec<u8>, number: u32) -> Result<(), Fail> {
    let block = format!(in alloc; "image a{number} 1\nend\n")?;
    text.extend_from_slice(block.as_bytes())?;
    Ok(())
}

// So many empty images with the names a0, a1, ..
fn many_images(alloc: Global, count: u32) -> Result<Vec<u8>, Fail> {
    let mut text = Vec::new(alloc);
    text.extend_from_slice(FRONT.as_bytes())?;
    for number in 0..count {
        push_image(alloc, &mut text, number)?;
    }
    Ok(text)
}

fn with_last_and_first(alloc: Global) -> Result<System, Fail> {
    let roots = "root 0 1 full a79999 1 0 0\nroot 0 1 full a0 1 0 0\n";
    let mut text = many_images(alloc, 80_000)?;
    text.extend_from_slice(roots.as_bytes())?;
    Ok(read_system(alloc, text.as_slice())?)
}

// The images of two roots, where there are just two.
fn two_images(roots: &[Root]) -> Option<(u64, u64)> {
    match roots {
        [first, second] => Some((first.image, second.image)),
        _ => None,
    }
}

#[test]
fn many_images_are_found_by_their_names(rt: HostRuntime) -> Result<(), Fail> {
    let system = with_last_and_first(rt.alloc())?;
    let found = (system.images.len(), two_images(system.roots.as_slice()));
    same("80,000 images", &found, &(80_000, Some((79_999, 0))))
}

static NAMES: [(&str, &str); 3] = [
    ("image a0 1\n", "the first name again"),
    ("asm a40000 1\n", "a name amid the others again"),
    ("root 0 1 full a80000 1 0 0\n", "an unknown name"),
];

fn assert_name_refused(alloc: Global, images: &[u8], last: &str, what: &str) -> Result<(), Fail> {
    let text = repeated(alloc, images, b"", last.as_bytes(), 1)?;
    assert_refused(alloc, text.as_slice(), 160_005, 7, what)
}

#[test]
fn names_among_many_are_refused(rt: HostRuntime) -> Result<(), Fail> {
    let images = many_images(rt.alloc(), 80_000)?;
    for name in NAMES.iter() {
        assert_name_refused(rt.alloc(), images.as_slice(), name.0, name.1)?;
    }
    Ok(())
}
