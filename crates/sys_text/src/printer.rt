//! Prints a system as its canonical text.
ghost use Rattle.std.specs.Prelude.{◌≡◌, ◌+◌, ◌/◌, ◌*◌, ◌%◌, ◌++◌, ◌∷◌, [], OnOk, IfOk, codes, map, take, drop};
ghost use Rattle.std.specs.List.{flat_map};
ghost use Rattle.std.specs.Fmt.{decimal};
ghost use Rattle.sys_text.specs.Text.{hex_digit, word_text, words_line, words_lines, line_text, lines_text, header_lines, entry_fields, image_line, image_lines, root_line, image_name, mode_text, chan_line, system_text as system_text_of};

use crate::system::{Image, Root, System};
use std::alloc::Global;
use t32_base::lists::{Bytes, Text};
use t32_base::process::Mode;
use t32_base::streams::NoMemory;
use text_parts::push_words;

/// The canonical text of a system: one space between fields, numbers without leading zeros, words in lower
/// case and eight in a line, each line ended. The only error is that memory was refused.
pub fn system_text(alloc: Global, system: &System) -> Result<Text, NoMemory>
    ensures { IfOk result (λ text. text ≡ system_text_of system.now) }
{
    let mut text = Bytes::new(alloc);
    put_header(alloc, &mut text, system)?;
    put_images(alloc, &mut text, system.images.as_slice())?;
    put_roots(
        alloc,
        &mut text,
        system.images.as_slice(),
        system.roots.as_slice(),
    )?;
    put_chans(alloc, &mut text, system.chans.as_slice())?;
    Ok(text)
}

fn put_header(alloc: Global, text: &mut Text, system: &System) -> Result<(), NoMemory>
    ensures { OnOk result (text.new ≡ text.old ++ lines_text (header_lines system.now)) }
{
    put_number(alloc, text, "clusters", u32::from(system.clusters))?;
    put_pager(alloc, text, system.pager.0.0, system.pager.1.0)?;
    put_number(alloc, text, "syncreads", system.syncreads)?;
    put_number(alloc, text, "syncsteps", system.syncsteps)
}

fn put_number(alloc: Global, text: &mut Text, name: &str, number: u32) -> Result<(), NoMemory>
    ensures { OnOk result (text.new ≡ text.old ++ line_text (name.now ∷ decimal number ∷ [])) }
{
    let line = format!(in alloc; "{name} {number}\n")?;
    text.extend(line.as_bytes())
}

fn put_pager(alloc: Global, text: &mut Text, first: u8, second: u8) -> Result<(), NoMemory>
    ensures { OnOk result (text.new ≡ text.old ++ line_text (codes "pager" ∷ decimal first ∷ decimal second ∷ [])) }
{
    let line = format!(in alloc; "pager {first} {second}\n")?;
    text.extend(line.as_bytes())
}

fn put_images(alloc: Global, text: &mut Text, images: &[Image]) -> Result<(), NoMemory>
    ensures { OnOk result (text.new ≡ text.old ++ lines_text (flat_map image_lines images.now)) }
{
    for image in images {
        put_image(alloc, text, image)?;
    }
    Ok(())
}

fn put_image(alloc: Global, text: &mut Text, image: &Image) -> Result<(), NoMemory>
    ensures { OnOk result (text.new ≡ text.old ++ lines_text (image_lines image.now)) }
{
    put_image_line(alloc, text, image)?;
    put_words(text, image.words.as_slice())?;
    text.extend(b"end\n")?;
    Ok(())
}

fn put_image_line(alloc: Global, text: &mut Text, image: &Image) -> Result<(), NoMemory>
    ensures { OnOk result (text.new ≡ text.old ++ line_text (image_line image.now)) }
{
    text.extend(b"image ")?;
    text.extend(image.name.as_slice())?;
    put_pages(alloc, text, image.pages, image.entry)
}

/// The pages of an image and, where it is to be said, its entry.
fn put_pages(alloc: Global, text: &mut Text, pages: u16, entry: u32) -> Result<(), NoMemory>
    ensures { OnOk result (text.new ≡ text.old ++ 32 ∷ line_text (decimal pages ∷ entry_fields entry)) }
{
    if entry == DEFAULT_ENTRY {
        let line = format!(in alloc; " {pages}\n")?;
        text.extend(line.as_bytes())
    } else {
        let line = format!(in alloc; " {pages} {entry}\n")?;
        text.extend(line.as_bytes())
    }
}

/// The entry of an image whose text does not say it.
const DEFAULT_ENTRY: u32 = 0x10000;

fn put_words(text: &mut Text, words: &[u32]) -> Result<(), NoMemory>
    ensures { OnOk result (text.new ≡ text.old ++ lines_text (words_lines words.now)) }
{
    let mut rest = words;
    'lines: while rest.len() > 0 {
        let (line, after) = split_eight(rest);
        put_words_line(text, line)?;
        rest = after;
    }
    Ok(())
}

fn split_eight(words: &[u32]) -> (&[u32], &[u32])
    ensures line { result.0.now ≡ take 8 words.now }
    ensures after { result.1.now ≡ drop 8 words.now }
{
    if words.len() <= 8 {
        (words, &[])
    } else {
        words.split_at(8)
    }
}

fn put_words_line(text: &mut Text, words: &[u32]) -> Result<(), NoMemory>
    ensures { OnOk result (text.new ≡ text.old ++ line_text (words_line words.now)) }
{
    text.extend(b"words")?;
    put_fields(text, words)?;
    text.extend(b"\n")?;
    Ok(())
}

// Puts each word after a space.
fn put_fields(text: &mut Text, words: &[u32]) -> Result<(), NoMemory>
    ensures { OnOk result (text.new ≡ text.old ++ flat_map (λ w. 32 ∷ word_text w) words.now) }
{
    push_words(text, words)
}

fn put_roots(
    alloc: Global,
    text: &mut Text,
    images: &[Image],
    roots: &[Root],
) -> Result<(), NoMemory>
    ensures { OnOk result (text.new ≡ text.old ++ lines_text (map (root_line images.now) roots.now)) }
{
    for root in roots {
        put_root(alloc, text, images, *root)?;
    }
    Ok(())
}

fn put_root(alloc: Global, text: &mut Text, images: &[Image], root: Root) -> Result<(), NoMemory>
    ensures { OnOk result (text.new ≡ text.old ++ line_text (root_line images.now root)) }
{
    put_clusters(alloc, text, root.home.0, root.backup.0)?;
    put_program(text, images, root.mode, root.image)?;
    put_numbers(alloc, text, root.limit, root.births, root.tty)
}

/// The front of the line of a root, with its two clusters.
fn put_clusters(alloc: Global, text: &mut Text, home: u8, backup: u8) -> Result<(), NoMemory>
    ensures { OnOk result (text.new ≡ text.old ++ (codes "root" ++ 32 ∷ (decimal home ++ 32 ∷ (decimal backup ++ 32 ∷ [])))) }
{
    let front = format!(in alloc; "root {home} {backup} ")?;
    text.extend(front.as_bytes())
}

/// The mode of a root, and the name of its image.
fn put_program(text: &mut Text, images: &[Image], mode: Mode, image: u64) -> Result<(), NoMemory>
    ensures { OnOk result (text.new ≡ text.old ++ (mode_text mode ++ 32 ∷ image_name images.now image)) }
{
    put_mode(text, mode)?;
    text.extend(b" ")?;
    put_name(text, images, image)
}

/// The numbers at the end of the line of a root.
fn put_numbers(
    alloc: Global,
    text: &mut Text,
    limit: u32,
    births: u8,
    tty: u8,
) -> Result<(), NoMemory>
    ensures { OnOk result (text.new ≡ text.old ++ 32 ∷ line_text (decimal limit ∷ decimal births ∷ decimal tty ∷ [])) }
{
    let numbers = format!(in alloc; " {limit} {births} {tty}\n")?;
    text.extend(numbers.as_bytes())
}

fn put_mode(text: &mut Text, mode: Mode) -> Result<(), NoMemory>
    ensures { OnOk result (text.new ≡ text.old ++ mode_text mode) }
{
    match mode {
        Mode::Quarter => text.extend(b"quarter"),
        Mode::Half => text.extend(b"half"),
        Mode::Full => text.extend(b"full"),
    }
}

fn put_name(text: &mut Text, images: &[Image], i: u64) -> Result<(), NoMemory>
    ensures { OnOk result (text.new ≡ text.old ++ image_name images.now i) }
{
    match images.get(i as usize) {
        Some(image) => text.extend(image.name.as_slice()),
        None => Ok(()),
    }
}

fn put_chans(alloc: Global, text: &mut Text, chans: &[(u8, u8)]) -> Result<(), NoMemory>
    ensures { OnOk result (text.new ≡ text.old ++ lines_text (map chan_line chans.now)) }
{
    for chan in chans {
        put_chan(alloc, text, *chan)?;
    }
    Ok(())
}

fn put_chan(alloc: Global, text: &mut Text, chan: (u8, u8)) -> Result<(), NoMemory>
    ensures { OnOk result (text.new ≡ text.old ++ line_text (chan_line chan)) }
{
    let first = chan.0;
    let second = chan.1;
    let line = format!(in alloc; "chan {first} {second}\n")?;
    text.extend(line.as_bytes())
}
