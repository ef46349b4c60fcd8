//! Whether a system keeps the rules.
ghost use Rattle.std.specs.Prelude.{◌≡◌, ◌≤◌, ◌+◌, ◌*◌, ◌&&◌, nat_le, length, take};
ghost use Rattle.std.specs.List.{list_all, range_with_len};
ghost use Rattle.sys_text.specs.Valid.{is_system as is_system_of, is_header as is_header_of, is_pair as is_pair_of, is_image as is_image_of, are_images as are_images_of, is_named_once as is_named_once_of, is_word, is_entry as is_entry_of, is_name as is_name_of, is_name_byte as is_name_byte_of, is_letter as is_letter_of, is_root as is_root_of, are_roots as are_roots_of, births_of, are_chans as are_chans_of, is_chan as is_chan_of, links as links_of};

use crate::system::{Image, Root, System};
use t32_base::process::ClusterNo;

/// Whether a system keeps the rules, so that some text has it. Takes no memory.
pub fn is_system(system: &System) -> bool
    ensures { result ≡ is_system_of system.now }
{
    let images = system.images.as_slice();
    let roots = system.roots.as_slice();
    let chans = system.chans.as_slice();
    is_header(system)
        && are_images(images)
        && are_roots(system.clusters, images, roots)
        && are_chans(roots, chans)
}

fn is_header(system: &System) -> bool
    ensures { result ≡ is_header_of system.now }
{
    2 <= system.clusters
        && system.clusters <= 16
        && is_pair(system.clusters, system.pager.0, system.pager.1)
        && 1 <= system.syncreads
        && system.syncreads <= 1000
        && 64 <= system.syncsteps
        && system.syncsteps <= 100000
}

/// Two clusters of the system that differ.
fn is_pair(clusters: u8, a: ClusterNo, b: ClusterNo) -> bool
    ensures { result ≡ is_pair_of clusters a b }
{
    a.0 < clusters && b.0 < clusters && a.0 != b.0
}

fn are_images(images: &[Image]) -> bool
    ensures { result ≡ are_images_of images.now }
{
    are_each_images(images) && are_named_once(images)
}

fn are_each_images(images: &[Image]) -> bool
    ensures { result ≡ list_all is_image_of images.now }
{
    images.iter().all(|image| is_image(image))
}

fn are_named_once(images: &[Image]) -> bool
    ensures { result ≡ list_all (λ image. is_named_once_of images.now image.name) images.now }
{
    images
        .iter()
        .all(|image| is_named_once(images, image.name.as_slice()))
}

fn is_named_once(images: &[Image], name: &[u8]) -> bool
    ensures { result ≡ is_named_once_of images.now name.now }
{
    let mut count = 0usize;
    for image in images {
        if image.name.as_slice() == name {
            count += 1;
        }
    }
    count == 1
}

fn is_image(image: &Image) -> bool
    ensures { result ≡ is_image_of image.now }
{
    is_name(image.name.as_slice())
        && 1 <= image.pages
        && image.pages <= 256
        && is_entry(image.pages, image.entry)
        && fit(image.words.as_slice(), image.pages)
}

/// Whether an instruction may stand at this address, in so many pages.
fn is_entry(pages: u16, entry: u32) -> bool
    requires { pages ≤ 256 }
    ensures { result ≡ is_entry_of pages entry }
{
    entry % 4 == 0
        && BASE <= entry
        && u64::from(entry) + 4 <= u64::from(BASE) + 256 * u64::from(pages)
}

/// The address of the first byte of every memory.
const BASE: u32 = 0x10000;

/// Whether the words fit the pages. Each has 32 bits by its type.
fn fit(words: &[u32], pages: u16) -> bool
    ensures { result ≡ (nat_le (4 * length words.now) (256 * pages) && list_all is_word words.now) }
{
    words.len() <= 64 * usize::from(pages)
}

/// May an image have this name: a letter a to z, and up to 15 letters a to z or digits?
pub fn is_name(name: &[u8]) -> bool
    ensures { result ≡ is_name_of name.now }
{
    let size = name.len();
    1 <= size && size <= 16 && begins_with_letter(name) && are_name_bytes(name)
}

fn begins_with_letter(name: &[u8]) -> bool
    ensures { result ≡ list_all is_letter_of (take 1 name.now) }
{
    match name {
        [] => true,
        [first, ..] => is_letter(*first),
    }
}

fn are_name_bytes(name: &[u8]) -> bool
    ensures { result ≡ list_all is_name_byte_of name.now }
{
    name.iter().all(|c| is_name_byte(*c))
}

fn is_letter(c: u8) -> bool
    ensures { result ≡ is_letter_of c }
{
    97 <= c && c <= 122
}

fn is_name_byte(c: u8) -> bool
    ensures { result ≡ is_name_byte_of c }
{
    is_letter(c) || (48 <= c && c <= 57)
}

fn are_roots(clusters: u8, images: &[Image], roots: &[Root]) -> bool
    ensures { result ≡ are_roots_of clusters (length images.now) roots.now }
{
    1 <= roots.len() && are_few(roots) && are_each_roots(clusters, images.len() as u64, roots)
}

fn are_each_roots(clusters: u8, images: u64, roots: &[Root]) -> bool
    ensures { result ≡ list_all (is_root_of clusters images) roots.now }
{
    roots.iter().all(|root| is_root(clusters, images, *root))
}

fn is_root(clusters: u8, images: u64, root: Root) -> bool
    ensures { result ≡ is_root_of clusters images root }
{
    is_pair(clusters, root.home, root.backup)
        && root.image < images
        && 1 <= root.limit
        && root.limit <= 100000
        && root.births <= 31
        && root.tty <= 15
}

/// Whether the roots and their births are 32 at most.
fn are_few(roots: &[Root]) -> bool
    ensures { result ≡ nat_le (length roots.now + births_of roots.now) 32 }
{
    roots.len() <= 32 && roots.len() + births(roots) <= 32
}

pub(crate) fn births(roots: &[Root]) -> usize
    requires { length roots.now ≤ 32 }
    ensures sum { result ≡ births_of roots.now }
    ensures few { result ≤ 256 * 32 }
{
    let mut total = 0;
    for root in roots {
        total += usize::from(root.births);
    }
    total
}

fn are_chans(roots: &[Root], chans: &[(u8, u8)]) -> bool
    ensures { result ≡ are_chans_of (length roots.now) chans.now }
{
    are_each_chans(roots.len(), chans) && are_linked(roots, chans)
}

fn are_each_chans(roots: usize, chans: &[(u8, u8)]) -> bool
    ensures { result ≡ list_all (is_chan_of roots) chans.now }
{
    chans.iter().all(|chan| is_chan(roots, *chan))
}

fn is_chan(roots: usize, chan: (u8, u8)) -> bool
    ensures { result ≡ is_chan_of roots chan }
{
    let first = usize::from(chan.0);
    let second = usize::from(chan.1);
    1 <= first && first <= roots && 1 <= second && second <= roots && first != second
}

/// Whether each root has ends enough for its channels.
fn are_linked(roots: &[Root], chans: &[(u8, u8)]) -> bool
    ensures { result ≡ list_all (λ root. nat_le (links_of chans.now root) 31) (range_with_len 1 (length roots.now)) }
{
    (1..roots.len() + 1).all(|root| links(chans, root) <= 31)
}

pub(crate) fn links(chans: &[(u8, u8)], root: usize) -> usize
    ensures { result ≡ links_of chans.now root }
{
    let mut count = 0;
    for chan in chans {
        if usize::from(chan.0) == root || usize::from(chan.1) == root {
            count += 1;
        }
    }
    count
}
