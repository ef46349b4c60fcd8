//! Lines, fields, numbers and names.
use std::alloc::AllocError;
use std::test::Fail;
use test_asserts::same;
use text_parts::{Names, cut_at, cut_far, first_field, first_line, number, word};

#[test]
fn lines_and_fields_are_cut_off() -> Result<(), Fail> {
    let (line, rest) = first_line(b" chan 1  2 \n\nlast");
    let lines = [line, rest, first_line(b"last").1];
    let wanted = [b" chan 1  2 ".as_slice(), b"\nlast", b""];
    same("the lines", &lines, &wanted)?;
    let fields = [first_field(line), first_field(b"  ")];
    let wanted = [Some((b"chan".as_slice(), b" 1  2 ".as_slice())), None];
    same("the fields", &fields, &wanted)
}

#[test]
fn a_text_is_cut_at_the_first_such_byte() -> Result<(), Fail> {
    let text = b"addi a0, a0, 1  # one # more".as_slice();
    let cuts = [cut_far(text, b'#'), cut_at(text, b'#'), cut_far(text, b'"')];
    let cut = (b"addi a0, a0, 1  ".as_slice(), b"# one # more".as_slice());
    same("the cuts", &cuts, &[cut, cut, (text, b"".as_slice())])
}

static NUMBERS: [(&[u8], Option<u64>); 6] = [
    (b"0000000007", Some(7)),
    (b"9999999999", Some(9_999_999_999)),
    (b"00000000007", None),
    (b"", None),
    (b"1a", None),
    (b"+1", None),
];

#[test]
fn numbers_and_words_are_read() -> Result<(), Fail> {
    for row in NUMBERS.iter() {
        same("the number", &(row.0, number(row.0)), row)?;
    }
    let words = [word(b"dEAdbeef"), word(b"0xdeadbe")];
    same("the words", &words, &[Some(0xdead_beef), None])
}

static DEFINED: [(&[u8], u64); 4] = [(b"pong", 1), (b"ping", 2), (b"pin", 3), (b"pong", 4)];

fn define_all(names: &mut Names<'static, u64>) -> Result<(), AllocError> {
    for row in DEFINED.iter() {
        names.define(row.0, row.1)?;
    }
    Ok(())
}

static VALUES: [(&[u8], Option<u64>); 4] = [
    (b"pong", Some(1)),
    (b"ping", Some(2)),
    (b"pin", Some(3)),
    (b"pi", None),
];

fn assert_values(names: &Names<'static, u64>) -> Result<(), Fail> {
    for row in VALUES.iter() {
        same("the name", &(row.0, names.value(row.0)), row)?;
    }
    Ok(())
}

#[test]
fn a_name_keeps_its_first_value(rt: HostRuntime) -> Result<(), Fail> {
    let mut names = Names::new(rt.alloc());
    define_all(&mut names)?;
    assert_values(&names)
}
