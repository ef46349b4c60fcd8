//! What the clauses leave to a reader: that a text looks as the format says, and which texts are read.
use std::alloc::Global;
use std::test::Fail;
use sys_text::printer::system_text;
use sys_text::system::{Image, Root, System};
use sys_text::valid::is_system;
use t32_base::lists::{Bytes, List, Text};
use t32_base::process::{ClusterNo, Mode};
use t32_base::streams::NoMemory;
use test_asserts::same;

const PAIR: &str =
    "clusters 4\npager 2 3\nsyncreads 1\nsyncsteps 64\nimage ping 1\nwords 00000000 ffffffff 0000006f deadbeef 00000001 0000000a 00100073 00000010\nwords 0abcdef1\nend\nimage b2 256\nend\nroot 0 1 quarter ping 100000 0 15\nroot 1 0 half b2 1 2 0\nroot 3 2 full ping 10 0 1\nchan 1 2\nchan 3 1\n";

fn root(home: u8, backup: u8, mode: Mode, image: u64, numbers: (u32, u8, u8)) -> Root {
    Root {
        home: ClusterNo(home),
        backup: ClusterNo(backup),
        mode,
        image,
        limit: numbers.0,
        births: numbers.1,
        tty: numbers.2,
    }
}

fn image(alloc: Global, name: &str, pages: u16, words: &[u32]) -> Result<Image, NoMemory> {
    Ok(Image {
        name: Bytes::copy_of(alloc, name.as_bytes())?,
        pages,
        entry: 0x10000,
        words: List::from_vec(words.to_vec(alloc)?),
    })
}

static WORDS: [u32; 9] = [
    0, 0xffffffff, 0x6f, 0xdeadbeef, 1, 10, 0x100073, 16, 0xabcdef1,
];

fn images(alloc: Global) -> Result<Vec<Image>, NoMemory> {
    let mut images = Vec::new(alloc);
    images.push(image(alloc, "ping", 1, &WORDS)?)?;
    images.push(image(alloc, "b2", 256, &[])?)?;
    Ok(images)
}

fn roots(alloc: Global) -> Result<Vec<Root>, NoMemory> {
    Ok(vec![in alloc;
        root(0, 1, Mode::Quarter, 0, (100000, 0, 15)),
        root(1, 0, Mode::Half, 1, (1, 2, 0)),
        root(3, 2, Mode::Full, 0, (10, 0, 1)),
    ]?)
}

fn pair(alloc: Global) -> Result<System, NoMemory> {
    let images = images(alloc)?;
    let roots = roots(alloc)?;
    let chans = vec![in alloc; (1u8, 2u8), (3u8, 1u8)]?;
    Ok(System {
        clusters: 4,
        pager: (ClusterNo(2), ClusterNo(3)),
        syncreads: 1,
        syncsteps: 64,
        images: List::from_vec(images),
        roots: List::from_vec(roots),
        chans: List::from_vec(chans),
    })
}

// Whether it is a system by the rules, and its text.
fn printed(alloc: Global) -> Result<(bool, Text), NoMemory> {
    let system = pair(alloc)?;
    Ok((is_system(&system), system_text(alloc, &system)?))
}

#[test]
fn a_system_is_printed_in_its_canonical_form(rt: HostRuntime) -> Result<(), Fail> {
    let (is_system, text) = printed(rt.alloc())?;
    let shown = (is_system, text.as_slice());
    same("the pair", &shown, &(true, PAIR.as_bytes()))
}
