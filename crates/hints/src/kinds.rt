//! The lines of a system text by their first fields, and what the fields behind these are.
ghost use Rattle.std.specs.Prelude.{◌≡◌, if◌then◌else◌, ◌==◌, None, Some};
ghost use Rattle.hints.specs.Kinds.{field_at as field_of_keyword, first_or_second as first_or_second_of, header_field as header_field_of, is_outside as stands_outside, limits as limits_of, name_of, root_field as root_field_at, wanted as wanted_of};

use sys_text::Keyword;

/// A field behind the first, by the name that the formats give it.
#[derive(Clone, Copy, PartialEq, Eq, Debug)]
pub enum Field {
    Clusters,
    First,
    Second,
    Reads,
    Steps,
    Name,
    Pages,
    Entry,
    Len,
    Word,
    Home,
    Backup,
    Mode,
    Limit,
    Births,
    Tty,
    RootA,
    RootB,
}

/// What a field has to be: a number, a name, a word or a mode.
#[derive(Clone, Copy, PartialEq, Eq, Debug)]
pub enum Wanted {
    Number,
    Name,
    Word,
    Mode,
}

/// Does such a line stand outside blocks alone?
pub fn is_outside(keyword: Keyword) -> bool
    ensures { result ≡ stands_outside keyword }
{
    !matches!(keyword, Keyword::Words | Keyword::End)
}

/// The field after so many others behind the first.
pub fn field_at(keyword: Keyword, index: u64) -> Option<Field>
    ensures { result ≡ field_of_keyword keyword index }
{
    match keyword {
        Keyword::Clusters => first_or_second(index, Some(Field::Clusters), None),
        Keyword::Pager => first_or_second(index, Some(Field::First), Some(Field::Second)),
        Keyword::Syncreads => first_or_second(index, Some(Field::Reads), None),
        Keyword::Syncsteps => first_or_second(index, Some(Field::Steps), None),
        Keyword::Image => header_field(index, Some(Field::Entry)),
        Keyword::Asm => header_field(index, None),
        Keyword::Elf => header_field(index, Some(Field::Len)),
        Keyword::Words => Some(Field::Word),
        Keyword::End => None,
        Keyword::Root => root_field(index),
        Keyword::Chan => first_or_second(index, Some(Field::RootA), Some(Field::RootB)),
    }
}

fn first_or_second(index: u64, first: Option<Field>, second: Option<Field>) -> Option<Field>
    ensures { result ≡ first_or_second_of index first second }
{
    match index {
        0 => first,
        1 => second,
        _ => None,
    }
}

// Of a line that opens a block.
fn header_field(index: u64, third: Option<Field>) -> Option<Field>
    ensures { result ≡ header_field_of index third }
{
    match index {
        0 => Some(Field::Name),
        1 => Some(Field::Pages),
        2 => third,
        _ => None,
    }
}

fn root_field(index: u64) -> Option<Field>
    ensures { result ≡ root_field_at index }
{
    match index {
        0 => Some(Field::Home),
        1 => Some(Field::Backup),
        2 => Some(Field::Mode),
        3 => Some(Field::Name),
        4 => Some(Field::Limit),
        5 => Some(Field::Births),
        6 => Some(Field::Tty),
        _ => None,
    }
}

impl Field {
    pub fn name(self) -> &'static str
        ensures { result.now ≡ name_of self }
    {
        match self {
            Field::Clusters | Field::Reads | Field::Steps => "N",
            Field::First | Field::RootA => "A",
            Field::Second | Field::RootB => "B",
            Field::Name => "NAME",
            Field::Pages => "PAGES",
            Field::Entry => "ENTRY",
            Field::Len => "LEN",
            Field::Word => "W",
            Field::Home => "HOME",
            Field::Backup => "BACKUP",
            Field::Mode => "MODE",
            Field::Limit => "LIMIT",
            Field::Births => "BIRTHS",
            Field::Tty => "TTY",
        }
    }

    pub fn wanted(self) -> Wanted
        ensures { result ≡ wanted_of self }
    {
        match self {
            Field::Name => Wanted::Name,
            Field::Word => Wanted::Word,
            Field::Mode => Wanted::Mode,
            _ => Wanted::Number,
        }
    }

    /// The limits of a number, where there are so many clusters; `None` where it has none.
    pub fn limits(self, clusters: u64) -> Option<(u64, u64)>
        ensures { result ≡ limits_of clusters self }
    {
        match self {
            Field::Clusters => Some((2, 16)),
            Field::First | Field::Second | Field::Home | Field::Backup => {
                Some((0, clusters.saturating_sub(1)))
            }
            Field::Reads => Some((1, 1000)),
            Field::Steps => Some((64, 100_000)),
            Field::Pages => Some((1, 256)),
            // So it may be in the most pages; where it may be in fewer is not told here.
            Field::Entry => Some((65_536, 131_068)),
            Field::Len => Some((1, 65_536)),
            Field::Limit => Some((1, 100_000)),
            Field::Births => Some((0, 31)),
            Field::Tty => Some((0, 15)),
            Field::Name | Field::Word | Field::Mode | Field::RootA | Field::RootB => None,
        }
    }
}
