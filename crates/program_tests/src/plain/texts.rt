//! Texts of systems and of programs: printed by the words `check` and `asm`, or refused.
use program_calls::assert_answer;
use std::test::Fail;
use test_systems::{COMMENTED, CUT, HI, HI_PROGRAM, HI_WORDS, LINKED, PAIR, SAME};

static PRINTED: [(&[u8], &str, &str); 6] = [
    (b"check", HI, HI),
    (b"check", COMMENTED, HI),
    (b"check", PAIR, PAIR),
    (b"check", LINKED, LINKED),
    (b"asm", HI_PROGRAM, HI_WORDS),
    (b"asm", "", ""),
];

#[test]
fn a_text_is_printed_in_canonical_form(rt: HostRuntime) -> Result<(), Fail> {
    for (word, text, printed) in PRINTED {
        assert_answer(&rt, word, text, 0, printed)?;
    }
    Ok(())
}

static REFUSED: [(&[u8], &str, &str); 7] = [
    (b"plain", SAME, "t32: system line 9 rule 6\n"),
    (b"check", SAME, "t32: system line 9 rule 6\n"),
    (b"plain", CUT, "t32: system line 6 rule 10\n"),
    (b"check", CUT, "t32: system line 6 rule 10\n"),
    (b"plain", "", "t32: system line 1 rule 10\n"),
    (b"check", "", "t32: system line 1 rule 10\n"),
    (b"asm", "addd a0, a0, a0", "t32: asm line 1 rule 2\n"),
];

#[test]
fn a_refusal_names_the_line_and_the_rule(rt: HostRuntime) -> Result<(), Fail> {
    for (word, text, line) in REFUSED {
        assert_answer(&rt, word, text, 2, line)?;
    }
    Ok(())
}
