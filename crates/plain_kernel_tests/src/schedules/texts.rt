//! Schedules as a text, and read back.
use cert_sched::{ItemsRefused, items_text, read_items};
use plain_kernel::item::Item;
use std::alloc::{AllocError, Global};
use std::test::Fail;
use t32_base::lists::List;
use t32_base::process::Pid;
use test_asserts::same;

fn assert_read(alloc: Global, text: &[u8], wanted: &[Item]) -> Result<(), Fail> {
    let items = read_items(alloc, text)?;
    same("the items", &items.as_slice(), &wanted)
}

// The items make this text, and it is read back.
fn assert_text(alloc: Global, items: &[Item], wanted: &[u8]) -> Result<(), Fail> {
    let text = items_text(alloc, items)?;
    same("the text", &text.as_slice(), &wanted)?;
    assert_read(alloc, text.as_slice(), items)
}

static ITEMS: [Item; 5] = [
    Item::Run(Pid(16), 1),
    Item::Fork(Pid(16), Pid(32)),
    Item::Run(Pid(32), 4294967295),
    Item::Take(Pid(4294967295)),
    Item::Run(Pid(0), 10),
];

#[test]
fn items_are_printed_and_read_back(rt: HostRuntime) -> Result<(), Fail> {
    assert_text(
        rt.alloc(),
        &ITEMS,
        b"schedule 5\nrun 16 1\nfork 16 32\nrun 32 4294967295\ntake 4294967295\nrun 0 10\n",
    )?;
    assert_text(rt.alloc(), &[], b"schedule 0\n")
}

#[test]
fn a_loose_text_is_read(rt: HostRuntime) -> Result<(), Fail> {
    assert_read(
        rt.alloc(),
        b"\n# \xff\n  schedule 02 \nrun  16 0004\n \n#\ntake 16",
        &[Item::Run(Pid(16), 4), Item::Take(Pid(16))],
    )
}

static UNREADABLE: [(&[u8], u64); 28] = [
    (b"", 0),
    (b"# schedule 0\n", 0),
    (b"items 0\n", 0),
    (b"schedule\n", 0),
    (b"schedule 1 1\nrun 16 4\n", 0),
    (b"schedule one\n", 0),
    (b"schedule -1\n", 0),
    (b"schedule 4294967296\n", 0),
    (b"schedule 2\n", 0),
    (b"schedule 2\nrun 16 4\n", 1),
    (b"schedule 2\nrun 16 4\n#\n\n", 1),
    (b"schedule 4294967295\nrun 16 4\n", 1),
    (b"schedule 0\ntake 16", 0),
    (b"schedule 1\nrun 16 4\nrun 16 1\n", 1),
    (b"schedule 2\nrun 16 4\nrun 16\nrun 16 1\n", 1),
    (b"schedule 2\nrun 16 4\ngive 16 1\n", 1),
    (b"schedule 2\nrun 16 4\nrun 16 0\n", 1),
    (b"schedule 2\nrun 16 4\nrun 16 +1\n", 1),
    (b"schedule 2\nrun 16 4\nrun 16 4294967296\n", 1),
    (b"schedule 2\nrun 16 4\nrun 4294967296 4\n", 1),
    (b"schedule 2\nrun 16 4\nrun 00000000016 4\n", 1),
    (b"schedule 2\nrun 16 4\nrun 16 4 # four\n", 1),
    (b"schedule 2\nrun 16 4\nrun\t16 4\n", 1),
    (b"schedule 2\nrun 16 4\nrun 16 4\r\n", 1),
    (b"schedule 2\nrun 16 4\nfork 16\n", 1),
    (b"schedule 2\nrun 16 4\nfork 16 32 48\n", 1),
    (b"schedule 2\nrun 16 4\ntake\n", 1),
    (b"schedule 2\nrun 16 4\ntake 16 32\n", 1),
];

fn assert_unreadable(alloc: Global, text: &[u8], index: u64) -> Result<(), Fail> {
    let refused = read_items(alloc, text).err();
    same(
        "the item",
        &(text, refused),
        &(text, Some(ItemsRefused::BadItem { index })),
    )
}

#[test]
fn unreadable_items_are_named(rt: HostRuntime) -> Result<(), Fail> {
    for row in UNREADABLE.iter() {
        assert_unreadable(rt.alloc(), row.0, row.1)?;
    }
    Ok(())
}

fn item(i: u32) -> Item {
    match i % 3 {
        0 => Item::Run(Pid(i), u64::from(i) + 1),
        1 => Item::Fork(Pid(i), Pid(i / 2)),
        _ => Item::Take(Pid(4294967295 - i)),
    }
}

/// Runs, forks and takes with greater and greater numbers.
fn long_schedule(alloc: Global, count: u32) -> Result<List<Item>, AllocError> {
    let mut items = List::new(alloc);
    for i in 0..count {
        items.push(item(i))?;
    }
    Ok(items)
}

fn assert_long(alloc: Global, items: &[Item]) -> Result<(), Fail> {
    let text = items_text(alloc, items)?;
    same("the length", &text.len(), &1614832)?;
    assert_read(alloc, text.as_slice(), items)
}

#[test]
fn a_long_schedule_is_read_back(rt: HostRuntime) -> Result<(), Fail> {
    let items = long_schedule(rt.alloc(), 100_000)?;
    assert_long(rt.alloc(), items.as_slice())
}
