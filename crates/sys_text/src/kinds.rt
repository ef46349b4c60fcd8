//! The first fields of the lines of a system text, and its modes, by their names.
ghost use Rattle.std.specs.Prelude.{◌≡◌};
ghost use Rattle.text_parts.specs.Table.{lookup as lookup_in};
ghost use Rattle.sys_text.specs.Kinds.{keywords_by_name, mode_named as mode_named_in};

use crate::stage::Keyword;
use t32_base::process::Mode;
use text_parts::lookup;

const KEYWORDS: [(&[u8], Keyword); 11] = [
    (b"clusters", Keyword::Clusters),
    (b"pager", Keyword::Pager),
    (b"syncreads", Keyword::Syncreads),
    (b"syncsteps", Keyword::Syncsteps),
    (b"image", Keyword::Image),
    (b"asm", Keyword::Asm),
    (b"elf", Keyword::Elf),
    (b"words", Keyword::Words),
    (b"end", Keyword::End),
    (b"root", Keyword::Root),
    (b"chan", Keyword::Chan),
];

const MODES: [(&[u8], Mode); 3] = [
    (b"quarter", Mode::Quarter),
    (b"half", Mode::Half),
    (b"full", Mode::Full),
];

/// The keyword that a first field of a line is, wherever the line stands; `None` where it is none.
pub fn keyword_named(field: &[u8]) -> Option<Keyword>
    ensures { result ≡ lookup_in keywords_by_name field.now }
{
    lookup(&KEYWORDS, field)
}

/// The mode that a field names; `None` where it names none.
pub fn mode_named(field: &[u8]) -> Option<Mode>
    ensures { result ≡ mode_named_in field.now }
{
    lookup(&MODES, field)
}
