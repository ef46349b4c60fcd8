//! A line: a label, a statement and a comment.
ghost use Rattle.std.specs.Prelude.{◌≡◌};
ghost use Rattle.std.specs.List.{list_all};
ghost use Rattle.std.specs.Option.{option_copied};
ghost use Rattle.text_parts.specs.Lines.{before, from};
ghost use Rattle.rv_asm.specs.Line.{after, starts_comment, before_comment, ends_label, is_label, is_label_byte, label_of, statement_of, word_of, operands_of};

use text_parts::{cut_at, cut_far, trim, trim_start};

/// Where a byte of a line stands.
#[derive(Clone, Copy)]
pub enum Quoting {
    Outside,
    Inside,
    /// After a backslash inside quotes.
    Escaped,
}

impl Quoting {
    /// Where the byte after this one stands.
    fn after(self, byte: u8) -> Quoting
        ensures { result ≡ after self byte }
    {
        match self {
            Quoting::Outside => {
                if byte == b'"' {
                    Quoting::Inside
                } else {
                    Quoting::Outside
                }
            }
            Quoting::Inside => match byte {
                b'"' => Quoting::Outside,
                b'\\' => Quoting::Escaped,
                _ => Quoting::Inside,
            },
            Quoting::Escaped => Quoting::Inside,
        }
    }

    /// Does a comment start at this byte?
    fn starts_comment(self, byte: u8) -> bool
        ensures { result ≡ starts_comment self byte }
    {
        match self {
            Quoting::Outside => byte == b'#',
            Quoting::Inside => false,
            Quoting::Escaped => false,
        }
    }
}

/// The line before its comment.
fn without_comment(line: &[u8]) -> &[u8]
    ensures { result.now ≡ before_comment Quoting.Outside line.now }
{
    // Most lines have no number sign, or no quote before it.
    let (front, comment) = cut_far(line, b'#');
    if comment.is_empty() {
        return line;
    }
    let (_, quoted) = cut_far(front, b'"');
    if quoted.is_empty() {
        return front;
    }
    before_comment(line)
}

/// The same, byte by byte.
fn before_comment(line: &[u8]) -> &[u8]
    ensures { result.now ≡ before_comment Quoting.Outside line.now }
{
    let mut quoting = Quoting::Outside;
    for (i, b) in line.iter().enumerate() {
        if quoting.starts_comment(*b) {
            return line.split_at(i).0;
        }
        quoting = quoting.after(*b);
    }
    line
}

/// Does a label before this byte end here?
fn ends_label(byte: u8) -> bool
    ensures { result ≡ ends_label byte }
{
    byte == b' ' || byte == b':'
}

/// The code cut where a label at its front would end.
fn cut_label(code: &[u8]) -> (&[u8], &[u8])
    ensures before { result.0.now ≡ before ends_label code.now }
    ensures from { result.1.now ≡ from ends_label code.now }
{
    for (i, b) in code.iter().enumerate() {
        if ends_label(*b) {
            return code.split_at(i);
        }
    }
    (code, &[])
}

/// The parts of a line.
#[derive(Clone, Copy)]
pub struct Line<'a> {
    /// What stands before the colon.
    pub label: Option<&'a [u8]>,
    /// What stands after it.
    pub statement: &'a [u8],
}

/// A line, cut into its parts.
pub fn cut_line(line: &[u8]) -> Line<'_>
    ensures label { option_copied result.label ≡ label_of line.now }
    ensures statement { result.statement.now ≡ statement_of line.now }
{
    let code = trim_start(without_comment(line));
    let (label, rest) = cut_label(code);
    match rest {
        [b':', after @ ..] => Line {
            label: Some(label),
            statement: trim_start(after),
        },
        _ => Line {
            label: None,
            statement: code,
        },
    }
}

/// The word of a statement, and the text of its operands.
pub fn cut_statement(statement: &[u8]) -> (&[u8], &[u8])
    ensures word { result.0.now ≡ word_of statement.now }
    ensures operands { result.1.now ≡ operands_of statement.now }
{
    let (word, rest) = cut_at(statement, b' ');
    (word, trim(rest))
}

fn is_label_byte(byte: u8) -> bool
    ensures { result ≡ is_label_byte byte }
{
    byte.is_ascii_lowercase() || byte.is_ascii_digit() || byte == b'_'
}

fn are_label_bytes(bytes: &[u8]) -> bool
    ensures { result ≡ list_all is_label_byte bytes.now }
{
    bytes.iter().all(|b| is_label_byte(*b))
}

/// Is the name one that a label may have?
pub fn is_label(name: &[u8]) -> bool
    ensures { result ≡ is_label name.now }
{
    match name {
        [] => false,
        [first, others @ ..] => first.is_ascii_lowercase() && are_label_bytes(others),
    }
}
