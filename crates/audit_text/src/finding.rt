//! What an audit finds against a section.
ghost use Rattle.std.specs.Prelude.{◌≡◌, IfOk};
ghost use Rattle.audit_text.specs.Finding.{line_of, words_of};

use std::alloc::Global;
use t32_base::lists::{Bytes, Text};
use t32_base::streams::NoMemory;

/// The line where nothing is found against a section.
pub const SOUND: &[u8] = b"audit ok\n";

/// The status where something is found against a section.
pub const STATUS: u8 = 9;

/// What is found against a section. What stands first is looked for first.
#[derive(Clone, Copy, PartialEq, Eq, Debug)]
pub enum Finding {
    /// The section is not of the form of a report with its log.
    Form,
    /// No entry with the line of this index, counted from 0, may follow the entries before it.
    Entry { index: u64 },
    /// Neither `done` stands last nor a loss that was not covered.
    Unended,
    /// The section is not what is printed of the log.
    Report,
}

impl Finding {
    /// The line that is written, with its end.
    pub fn line(self, alloc: Global) -> Result<Text, NoMemory>
        ensures { IfOk result (λ text. text ≡ line_of self) }
    {
        match self {
            Finding::Form => Bytes::copy_of(alloc, b"t32: audit form\n"),
            Finding::Entry { index } => entry_line(alloc, index),
            Finding::Unended => Bytes::copy_of(alloc, b"t32: audit unended\n"),
            Finding::Report => Bytes::copy_of(alloc, b"t32: audit report\n"),
        }
    }

    /// The same in plain words, as a line with its end.
    pub fn words(self, alloc: Global) -> Result<Text, NoMemory>
        ensures { IfOk result (λ text. text ≡ words_of self) }
    {
        match self {
            Finding::Form => Bytes::copy_of(
                alloc,
                b"t32: what stands behind the system text is no report with its log: a line is malformed, missing or one too many\n",
            ),
            Finding::Entry { index } => entry_words(alloc, index),
            Finding::Unended => Bytes::copy_of(
                alloc,
                b"t32: the log ends neither with done nor with a loss that was not covered\n",
            ),
            Finding::Report => Bytes::copy_of(
                alloc,
                b"t32: the entries of the log may stand there, and the report in front of them is not what is printed of them\n",
            ),
        }
    }
}

fn entry_line(alloc: Global, index: u64) -> Result<Text, NoMemory>
    ensures { IfOk result (λ text. text ≡ line_of (Finding.Entry index)) }
{
    let line = format!(in alloc; "t32: audit entry {index}\n")?;
    Bytes::copy_of(alloc, line.as_bytes())
}

fn entry_words(alloc: Global, index: u64) -> Result<Text, NoMemory>
    ensures { IfOk result (λ text. text ≡ words_of (Finding.Entry index)) }
{
    let line = format!(in alloc;
        "t32: entry {index} of the log may not stand there: no entry with this line may follow those before it\n"
    )?;
    Bytes::copy_of(alloc, line.as_bytes())
}
