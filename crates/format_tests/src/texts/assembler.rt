//! Programs and their words, from outside, and which line and rule of the others is named.
use rv_asm::{AsmRefused, assemble, words_text};
use std::alloc::Global;
use std::test::Fail;
use t32_base::lists::Text;
use test_asserts::same;

const HI: &str =
    "li a7, 2\nli a0, 0\nla a1, m\nli a2, 3\necall\nli a7, 1\nli a0, 0\necall\nm: .ascii \"hi\\n\"\n";

const TWO: &str =
    "li a7, 2\nli a0, 0\nla a1, m\nli a2, 2\necall\naddi a1, a1, 2\nli a0, 0\necall\nli a7, 1\nli a0, 0\necall\nm: .ascii \"a\\nb\\n\"";

const WAIT: &str = "li a7, 3\nli a0, 1\nlui a1, 16\nli a2, 1\necall\n";

const WRITER: &str =
    "li a7, 2\nli a0, 1\nla a1, m\nli a2, 2\necall\nli a7, 1\nli a0, 0\necall\nm: .ascii \"x\\n\"\n";

const READER: &str =
    "li a7, 3\nli a0, 1\nla a1, m\nli a2, 2\necall\nmv a2, a0\nli a7, 2\nli a0, 0\necall\nli a7, 1\nli a0, 0\necall\nm: .word 0\n";

const FORKER: &str =
    "li a7, 5\necall\nbeq a0, x0, kid\nli a7, 1\nli a0, 0\necall\nkid: li a7, 2\nli a0, 0\nla a1, m\nli a2, 2\necall\nli a7, 1\nli a0, 0\necall\nm: .ascii \"c\\n\"\n";

const EARLY: &str =
    "li a0, 32\nli a1, 9\nli a7, 8\necall\nli a7, 5\necall\nli a7, 1\nli a0, 0\necall\n";

const SIG: &str =
    "la a0, h\nli a7, 7\necall\nli a7, 6\necall\nli a1, 10\nli a7, 8\necall\nli a7, 1\nli a0, 0\necall\nh: li a7, 2\nli a0, 0\nla a1, m\nli a2, 2\necall\nli a7, 9\necall\nm: .ascii \"s\\n\"\n";

/// What is printed for a program.
fn printed(alloc: Global, text: &str) -> Result<Text, AsmRefused> {
    let words = assemble(alloc, text.as_bytes())?;
    Ok(words_text(alloc, words.as_slice())?)
}

fn assert_printed(alloc: Global, text: &str, wanted: &str) -> Result<(), Fail> {
    let printed = printed(alloc, text)?;
    same(text, &printed.as_slice(), &wanted.as_bytes())
}

static PRINTED: [(&str, &str); 2] = [
    (
        HI,
        "words 00200893 00000513 000105b7 02458593 00300613 00000073 00100893 00000513\nwords 00000073 000a6968\n",
    ),
    (WAIT, "words 00300893 00100513 000105b7 00100613 00000073\n"),
];

#[test]
fn programs_assemble(rt: HostRuntime) -> Result<(), Fail> {
    for row in PRINTED.iter() {
        assert_printed(rt.alloc(), row.0, row.1)?;
    }
    Ok(())
}

// How many words each of these programs has.
static COUNTS: [(&str, usize); 6] = [
    (TWO, 13),
    (WRITER, 10),
    (READER, 14),
    (FORKER, 16),
    (EARLY, 9),
    (SIG, 21),
];

fn assert_count(alloc: Global, text: &str, count: usize) -> Result<(), Fail> {
    let words = assemble(alloc, text.as_bytes())?;
    same(text, &words.len(), &count)
}

#[test]
fn longer_programs_assemble(rt: HostRuntime) -> Result<(), Fail> {
    for row in COUNTS.iter() {
        assert_count(rt.alloc(), row.0, row.1)?;
    }
    Ok(())
}

fn assert_refused(alloc: Global, text: &str, line: u64, rule: u8) -> Result<(), Fail> {
    let refused = assemble(alloc, text.as_bytes()).err();
    same(text, &refused, &Some(AsmRefused::Line { line, rule }))
}

static REFUSED: [(&str, u64, u8); 10] = [
    ("addd a0, a0, a0", 1, 2),
    ("ecall\r\n", 1, 1),
    ("ecall\n\tecall", 2, 1),
    ("li a0, 0xFFFFFFFFF", 1, 3),
    ("li a0, 99999999999", 1, 4),
    ("a:\na: ecall", 2, 5),
    ("ecall\nj nowhere", 2, 6),
    ("9x: ecall", 1, 3),
    (".ascii \"ab # c", 1, 3),
    ("end", 1, 2),
];

#[test]
fn the_first_broken_line_is_named(rt: HostRuntime) -> Result<(), Fail> {
    for row in REFUSED.iter() {
        assert_refused(rt.alloc(), row.0, row.1, row.2)?;
    }
    Ok(())
}

/// A text that begins with `first` and goes on with `line` so many times.
fn repeated(alloc: Global, first: &str, line: &str, count: u32) -> Result<String, Fail> {
    let mut text = String::from_str(alloc, first)?;
    for _ in 0..count {
        text.push_str(line)?;
    }
    Ok(text)
}

/// A branch over so many instructions.
fn branch_over(alloc: Global, count: u32) -> Result<String, Fail> {
    let mut text = repeated(alloc, "beq a0, a1, far\n", "ecall\n", count)?;
    text.push_str("far: ecall\n")?;
    Ok(text)
}

#[test]
fn far_labels_are_refused(rt: HostRuntime) -> Result<(), Fail> {
    let text = branch_over(rt.alloc(), 1023)?;
    assert_refused(rt.alloc(), text.as_str(), 1, 7)
}

#[test]
fn long_programs_are_refused(rt: HostRuntime) -> Result<(), Fail> {
    let text = repeated(rt.alloc(), "", "ecall\n", 16385)?;
    assert_refused(rt.alloc(), text.as_str(), 16385, 8)
}

fn push_label(alloc: Global, text: &mut String, n: u32) -> Result<(), Fail> {
    text.push_str(format!(in alloc; "a{n}:\n")?.as_str())?;
    Ok(())
}

/// A jump to the last of so many labels.
fn labelled(alloc: Global, count: u32) -> Result<String, Fail> {
    let mut text = String::from_str(alloc, "j a99999\n")?;
    for n in 0..count {
        push_label(alloc, &mut text, n)?;
    }
    Ok(text)
}

#[test]
fn many_labels_assemble(rt: HostRuntime) -> Result<(), Fail> {
    let text = labelled(rt.alloc(), 100_000)?;
    assert_printed(rt.alloc(), text.as_str(), "words 0040006f\n")
}

fn told(alloc: Global, refused: AsmRefused) -> Result<String, Fail> {
    Ok(format!(in alloc; "{refused}")?)
}

const TOLD: &str = "line 3 breaks rule 6: no line defines the label that it names";

#[test]
fn a_refusal_says_line_and_rule(rt: HostRuntime) -> Result<(), Fail> {
    let told = told(rt.alloc(), AsmRefused::Line { line: 3, rule: 6 })?;
    same("line 3", &told.as_bytes(), &TOLD.as_bytes())
}
