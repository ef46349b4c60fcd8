//! The ring: its images, its roots and the channels between them.
ghost use Rattle.std.specs.Prelude.{◌≡◌, ◌≤◌, ◌+◌, IfOk, map, true};
ghost use Rattle.std.specs.List.{range_with_len};
ghost use Rattle.sys_text.specs.Valid.{is_system};
ghost use Rattle.workload.specs.Ring.{chan as chan_of, images as images_of, is_size, root as root_of, workload as workload_of};

use crate::programs::{head_words, link_words};
use std::alloc::Global;
use sys_text::system::{Image, Root, System};
use t32_base::lists::{Bytes, List};
use t32_base::process::{ClusterNo, Mode};
use t32_base::streams::NoMemory;

const ROOTS: u8 = 16;

/// The system of the workload of a size, 1 to 1000: how often the token goes round.
pub fn workload(alloc: Global, size: u32) -> Result<System, NoMemory>
    requires { is_size size ≡ true }
    ensures exact { IfOk result (λ system. system ≡ workload_of size) }
    ensures valid { IfOk result (λ system. is_system system ≡ true) }
{
    Ok(System {
        clusters: 4,
        pager: (ClusterNo(0), ClusterNo(1)),
        syncreads: 32,
        syncsteps: 4096,
        images: images(alloc, size)?,
        roots: roots(alloc)?,
        chans: chans(alloc)?,
    })
}

fn images(alloc: Global, size: u32) -> Result<List<Image>, NoMemory>
    requires { is_size size ≡ true }
    ensures { IfOk result (λ images. images ≡ images_of size) }
{
    let head = Image {
        name: Bytes::copy_of(alloc, b"head")?,
        pages: 1,
        entry: 0x10000,
        words: head_words(alloc, size)?,
    };
    let link = Image {
        name: Bytes::copy_of(alloc, b"link")?,
        pages: 1,
        entry: 0x10000,
        words: link_words(alloc)?,
    };
    let mut images = List::new(alloc);
    images.push(head)?;
    images.push(link)?;
    Ok(images)
}

fn roots(alloc: Global) -> Result<List<Root>, NoMemory>
    ensures { IfOk result (λ roots. roots ≡ map root_of (range_with_len 1 16)) }
{
    let mut roots = List::new(alloc);
    for i in 0..ROOTS {
        roots.push(root(i + 1))?;
    }
    Ok(roots)
}

fn root(i: u8) -> Root
    requires first { 1 ≤ i }
    requires last { i ≤ 16 }
    ensures { result ≡ root_of i }
{
    let is_link = u8::from(i != 1);
    Root {
        home: ClusterNo((i - 1) % 4),
        backup: ClusterNo(i % 4),
        mode: Mode::Quarter,
        image: u64::from(is_link),
        limit: 100000,
        births: is_link,
        tty: 0,
    }
}

fn chans(alloc: Global) -> Result<List<(u8, u8)>, NoMemory>
    ensures { IfOk result (λ chans. chans ≡ map chan_of (range_with_len 1 16)) }
{
    let mut chans = List::new(alloc);
    for i in 0..ROOTS {
        chans.push(chan(i + 1))?;
    }
    Ok(chans)
}

fn chan(i: u8) -> (u8, u8)
    requires { i ≤ 16 }
    ensures { result ≡ chan_of i }
{
    (i, i % ROOTS + 1)
}
