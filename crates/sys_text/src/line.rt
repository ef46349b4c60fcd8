//! What a line says: its fields, each read once as what it is to be.
ghost use Rattle.std.specs.Prelude.{◌≡◌, ◌∷◌, [], Some, None, Ok, Err, MatchOption, MatchResult};
ghost use Rattle.text_parts.specs.Lines.{fields_of};
ghost use Rattle.text_parts.specs.Numbers.{number_of};
ghost use Rattle.sys_text.specs.declared.stage.Keyword.TheVariants.{Words as WordsOf};
ghost use Rattle.sys_text.specs.declared.refusal.Rule.TheVariants.{FieldCount};
ghost use Rattle.sys_text.specs.Line.{name_of, both_of, all_of, default_entry, root_with, one_number, two_numbers, name_and_pages, image_header, file_header, no_field, root_fields, line_of, said_or_rule};
ghost use Rattle.sys_text.specs.Kinds.{mode_named};

use crate::kinds::mode_named;
use crate::refusal::Rule;
use crate::stage::Keyword;
use crate::valid::is_name;
use t32_base::process::Mode;
use text_parts::{first_field, number};

/// The fields of a root, but for the name of its image.
#[derive(Clone, Copy)]
pub struct RootFields {
    pub home: u64,
    pub backup: u64,
    pub mode: Mode,
    pub limit: u64,
    pub births: u64,
    pub tty: u64,
}

/// A line with its numbers, names and modes. Lines of words are read as they are added, so they have no value here.
#[derive(Clone, Copy)]
pub enum Line<'a> {
    Clusters(u64),
    Pager(u64, u64),
    Syncreads(u64),
    Syncsteps(u64),
    /// The name of an image, its pages and its entry.
    Image(&'a [u8], u64, u64),
    /// The name of an image, and its pages.
    Asm(&'a [u8], u64),
    /// The name of an image, its pages, and how many bytes its file has.
    Elf(&'a [u8], u64, u64),
    End,
    /// A root, and the name of its image.
    Root(RootFields, &'a [u8]),
    Chan(u64, u64),
}

/// The next field, and what stands after it.
fn next_field(text: &[u8]) -> Result<(&[u8], &[u8]), Rule>
    ensures { MatchResult result (λ x. fields_of text.now ≡ x.0.now ∷ fields_of x.1.now) (λ rule. (rule ≡ FieldCount) × (fields_of text.now ≡ [])) }
{
    match first_field(text) {
        Some(field) => Ok(field),
        None => Err(Rule::FieldCount),
    }
}

/// Is no field left?
fn no_field(text: &[u8]) -> Result<(), Rule>
    ensures { result ≡ no_field (fields_of text.now) }
{
    match first_field(text) {
        Some(_) => Err(Rule::FieldCount),
        None => Ok(()),
    }
}

fn one_number(text: &[u8]) -> Result<u64, Rule>
    ensures { result ≡ one_number (fields_of text.now) }
{
    let (field, rest) = next_field(text)?;
    no_field(rest)?;
    match number(field) {
        Some(number) => Ok(number),
        None => Err(Rule::FieldKind),
    }
}

fn both_numbers(first: &[u8], second: &[u8]) -> Option<(u64, u64)>
    ensures { result ≡ both_of (number_of first.now) (number_of second.now) }
{
    let first = number(first)?;
    let second = number(second)?;
    Some((first, second))
}

fn two_numbers(text: &[u8]) -> Result<(u64, u64), Rule>
    ensures { result ≡ two_numbers (fields_of text.now) }
{
    let (first, rest) = next_field(text)?;
    let (second, rest) = next_field(rest)?;
    no_field(rest)?;
    match both_numbers(first, second) {
        Some(numbers) => Ok(numbers),
        None => Err(Rule::FieldKind),
    }
}

/// The name that a field is.
fn name_of(field: &[u8]) -> Option<&[u8]>
    ensures { MatchOption result (name_of field.now ≡ None) (λ name. name_of field.now ≡ Some name.now) }
{
    if is_name(field) { Some(field) } else { None }
}

fn name_with_number<'a>(name: &'a [u8], pages: &[u8]) -> Option<(&'a [u8], u64)>
    ensures { MatchOption result (both_of (name_of name.now) (number_of pages.now) ≡ None) (λ x. both_of (name_of name.now) (number_of pages.now) ≡ Some (x.0.now, x.1)) }
{
    let name = name_of(name)?;
    let pages = number(pages)?;
    Some((name, pages))
}

/// The name of an image, and its pages.
fn name_and_pages(text: &[u8]) -> Result<(&[u8], u64), Rule>
    ensures { MatchResult result (λ x. name_and_pages (fields_of text.now) ≡ Ok (x.0.now, x.1)) (λ rule. name_and_pages (fields_of text.now) ≡ Err rule) }
{
    let (name, rest) = next_field(text)?;
    let (pages, rest) = next_field(rest)?;
    no_field(rest)?;
    match name_with_number(name, pages) {
        Some(header) => Ok(header),
        None => Err(Rule::FieldKind),
    }
}

fn name_with_numbers<'a>(name: &'a [u8], pages: &[u8], last: &[u8]) -> Option<(&'a [u8], u64, u64)>
    ensures { MatchOption result (all_of (name_of name.now) (number_of pages.now) (number_of last.now) ≡ None) (λ x. all_of (name_of name.now) (number_of pages.now) (number_of last.now) ≡ Some (x.0.now, x.1, x.2)) }
{
    let name = name_of(name)?;
    let pages = number(pages)?;
    let last = number(last)?;
    Some((name, pages, last))
}

/// The entry of an image whose text does not say it.
const DEFAULT_ENTRY: u64 = 0x10000;

fn with_default_entry<'a>(name: &'a [u8], pages: &[u8]) -> Option<(&'a [u8], u64, u64)>
    ensures { MatchOption result (all_of (name_of name.now) (number_of pages.now) (Some default_entry) ≡ None) (λ x. all_of (name_of name.now) (number_of pages.now) (Some default_entry) ≡ Some (x.0.now, x.1, x.2)) }
{
    let name = name_of(name)?;
    let pages = number(pages)?;
    Some((name, pages, DEFAULT_ENTRY))
}

/// The name of an image, its pages and, where a third field says it, its entry.
fn image_header(text: &[u8]) -> Result<(&[u8], u64, u64), Rule>
    ensures { MatchResult result (λ x. image_header (fields_of text.now) ≡ Ok (x.0.now, x.1, x.2)) (λ rule. image_header (fields_of text.now) ≡ Err rule) }
{
    let (name, rest) = next_field(text)?;
    let (pages, rest) = next_field(rest)?;
    let header = match first_field(rest) {
        None => with_default_entry(name, pages),
        Some((entry, rest)) => {
            no_field(rest)?;
            name_with_numbers(name, pages, entry)
        }
    };
    match header {
        Some(header) => Ok(header),
        None => Err(Rule::FieldKind),
    }
}

/// The name of an image, its pages, and how many bytes its file has.
fn file_header(text: &[u8]) -> Result<(&[u8], u64, u64), Rule>
    ensures { MatchResult result (λ x. file_header (fields_of text.now) ≡ Ok (x.0.now, x.1, x.2)) (λ rule. file_header (fields_of text.now) ≡ Err rule) }
{
    let (name, rest) = next_field(text)?;
    let (pages, rest) = next_field(rest)?;
    let (size, rest) = next_field(rest)?;
    match no_field(rest) {
        Err(rule) => Err(rule),
        Ok(()) => match name_with_numbers(name, pages, size) {
            Some(header) => Ok(header),
            None => Err(Rule::FieldKind),
        },
    }
}

fn root_with<'a>(
    home: &[u8],
    backup: &[u8],
    mode: &[u8],
    image: &'a [u8],
    limit: &[u8],
    births: &[u8],
    tty: &[u8],
) -> Option<(RootFields, &'a [u8])>
    ensures { MatchOption result (root_with (number_of home.now) (number_of backup.now) (mode_named mode.now) (name_of image.now) (number_of limit.now) (number_of births.now) (number_of tty.now) ≡ None) (λ x. root_with (number_of home.now) (number_of backup.now) (mode_named mode.now) (name_of image.now) (number_of limit.now) (number_of births.now) (number_of tty.now) ≡ Some (x.0, x.1.now)) }
{
    let home = number(home)?;
    let backup = number(backup)?;
    let mode = mode_named(mode)?;
    let image = name_of(image)?;
    let limit = number(limit)?;
    let births = number(births)?;
    let tty = number(tty)?;
    let root = RootFields {
        home,
        backup,
        mode,
        limit,
        births,
        tty,
    };
    Some((root, image))
}

/// A root, and the name of its image.
fn root_fields(text: &[u8]) -> Result<(RootFields, &[u8]), Rule>
    ensures { MatchResult result (λ x. root_fields (fields_of text.now) ≡ Ok (x.0, x.1.now)) (λ rule. root_fields (fields_of text.now) ≡ Err rule) }
{
    let (home, rest) = next_field(text)?;
    let (backup, rest) = next_field(rest)?;
    let (mode, rest) = next_field(rest)?;
    let (image, rest) = next_field(rest)?;
    let (limit, rest) = next_field(rest)?;
    let (births, rest) = next_field(rest)?;
    let (tty, rest) = next_field(rest)?;
    match no_field(rest) {
        Err(rule) => Err(rule),
        Ok(()) => match root_with(home, backup, mode, image, limit, births, tty) {
            Some(root) => Ok(root),
            None => Err(Rule::FieldKind),
        },
    }
}

/// The line with this keyword and this text after it, or the lower of the rules 3 and 4 that it breaks.
pub fn line_of(keyword: Keyword, text: &[u8]) -> Result<Line<'_>, Rule>
    requires { keyword ≡ WordsOf → ⊥ }
    ensures { said_or_rule result ≡ line_of keyword (fields_of text.now) }
{
    match keyword {
        Keyword::Clusters => Ok(Line::Clusters(one_number(text)?)),
        Keyword::Pager => {
            let (first, second) = two_numbers(text)?;
            Ok(Line::Pager(first, second))
        }
        Keyword::Syncreads => Ok(Line::Syncreads(one_number(text)?)),
        Keyword::Syncsteps => Ok(Line::Syncsteps(one_number(text)?)),
        Keyword::Image => {
            let (name, pages, entry) = image_header(text)?;
            Ok(Line::Image(name, pages, entry))
        }
        Keyword::Asm => {
            let (name, pages) = name_and_pages(text)?;
            Ok(Line::Asm(name, pages))
        }
        Keyword::Elf => {
            let (name, pages, size) = file_header(text)?;
            Ok(Line::Elf(name, pages, size))
        }
        Keyword::Words => unreachable!(),
        Keyword::End => {
            no_field(text)?;
            Ok(Line::End)
        }
        Keyword::Root => {
            let (root, image) = root_fields(text)?;
            Ok(Line::Root(root, image))
        }
        Keyword::Chan => {
            let (first, second) = two_numbers(text)?;
            Ok(Line::Chan(first, second))
        }
    }
}
