//! A process that waits for its pages, on ample memory: they are asked for in order and come in another. A child without a state waits for none.
ghost use Rattle.std.specs.Prelude.{◌≡◌, ◌∷◌, [], IfOk, IsTrue, Some, replicate};
ghost use Rattle.t32_base.specs.declared.letter.Body.TheVariants.{Said};
ghost use Rattle.t32_base.specs.declared.letter.To.TheVariants.{Tty};
ghost use Rattle.page_waits.specs.Waiting.{CanGoOn};

use backup_queue::record::Record;
use page_waits::waiting::Waiting;
use proc_state::process::Process;
use roll_forward::rolling::Rolling;
use rv_mem::{BASE, BadAddr};
use std::alloc::Global;
use std::test::Fail;
use t32_base::letter::{Body, Letter, To};
use t32_base::process::{Pid, Small};
use t32_base::shared_bytes::SharedBytes;
use t32_base::streams::NoMemory;
use test_asserts::same;
use write_count::total;

// li a7, 2 / li a0, 0 / la a1, m / li a2, 2 / ecall / addi a1, a1, 2 / li a0, 0 / ecall / li a7, 1 / li a0, 0 /
// ecall / m: .ascii "a\nb\n"
const TWO: [u8; 52] = [
    147, 8, 32, 0, 19, 5, 0, 0, 183, 5, 1, 0, 147, 133, 5, 3, 19, 6, 32, 0, 115, 0, 0, 0, 147, 133,
    37, 0, 19, 5, 0, 0, 115, 0, 0, 0, 147, 8, 16, 0, 19, 5, 0, 0, 115, 0, 0, 0, 97, 10, 98, 10,
];

// A process of three pages that sent nothing.
fn three_pages(alloc: Global) -> Result<Waiting, NoMemory> {
    let process = Process::root(alloc, Pid(16), 0x10000, 3, &[], 1000, 0, 0)?;
    let Process { small, .. } = process;
    Waiting::begin(alloc, Record::new(alloc, Pid(16), Some(small)))
}

// Asks for the lowest page that was not asked for, if there is one.
fn asks(waiting: &mut Waiting) -> Option<u16> {
    waiting.lacks()?;
    Some(waiting.ask())
}

fn four_asks(waiting: &mut Waiting) -> [Option<u16>; 4] {
    let mut pages = [None; 4];
    for page in pages.iter_mut() {
        *page = asks(waiting);
    }
    pages
}

// A page comes, filled with one byte: whether all have come then.
fn comes(waiting: &mut Waiting, index: u16, byte: u8) -> bool {
    if index < waiting.pages() {
        waiting.come(index, &[byte; 256]);
    }
    waiting.is_whole()
}

// The last page comes twice.
fn four_come(waiting: &mut Waiting) -> [bool; 4] {
    let last = comes(waiting, 2, 9);
    let first = comes(waiting, 0, 7);
    let again = comes(waiting, 2, 5);
    [last, first, again, comes(waiting, 1, 6)]
}

#[test]
fn pages_are_asked_for_in_order_and_come_in_another(rt: HostRuntime) -> Result<(), Fail> {
    let mut waiting = three_pages(rt.alloc())?;
    let asked = four_asks(&mut waiting);
    let whole = four_come(&mut waiting);
    same(
        "what was asked for, and whether all had come",
        &(asked, whole),
        &(
            [Some(0), Some(1), Some(2), None],
            [false, false, false, true],
        ),
    )
}

// A signal of the process to itself comes.
fn signal_comes(waiting: &mut Waiting, signal: u8) -> Result<(), NoMemory> {
    if waiting.kept().next() < 9 {
        waiting.deliver(Letter {
            from: waiting.pid(),
            out: 0,
            to: To::Proc(waiting.pid(), 0),
            body: Body::Signal(signal),
        })?;
    }
    Ok(())
}

// Whether it had sent nothing since it was synchronised.
fn sent_nothing(waiting: &Waiting) -> bool
    ensures { IsTrue result → CanGoOn waiting.now }
{
    let kept = waiting.kept();
    kept.state().is_some() && total(kept.counts()) == 0 && kept.births().is_empty()
}

// It rolls forward, where all its pages have come.
fn rolls(alloc: Global, waiting: Waiting) -> Option<Rolling> {
    if waiting.is_whole() && sent_nothing(&waiting) {
        Some(waiting.into_rolling(alloc))
    } else {
        None
    }
}

// The first bytes of its three pages.
fn first_bytes(rolling: &Rolling) -> Result<[u32; 3], BadAddr> {
    let ram = &rolling.process().ram;
    Ok([
        ram.load(BASE, 1)?,
        ram.load(BASE + 256, 1)?,
        ram.load(BASE + 512, 1)?,
    ])
}

// How many letters wait, and the number of the next.
fn letters(rolling: &Rolling) -> (usize, u64) {
    let mail = &rolling.process().mail;
    (mail.len(), mail.next())
}

// It gets its pages, and a signal before and after them.
fn get_all(waiting: &mut Waiting) -> Result<(), NoMemory> {
    signal_comes(waiting, 10)?;
    four_come(waiting);
    signal_comes(waiting, 11)
}

fn got_all(alloc: Global) -> Result<Option<Rolling>, NoMemory> {
    let mut waiting = three_pages(alloc)?;
    get_all(&mut waiting)?;
    Ok(rolls(alloc, waiting))
}

fn assert_whole(rolling: &Rolling) -> Result<(), Fail> {
    same("the pages", &first_bytes(rolling)?, &[7, 6, 5])?;
    same("the letters", &letters(rolling), &(2, 2))
}

#[test]
fn it_has_its_pages_and_the_letters_that_came_meanwhile(rt: HostRuntime) -> Result<(), Fail> {
    match got_all(rt.alloc())? {
        Some(rolling) => assert_whole(&rolling),
        None => Err("not all pages came".into()),
    }
}

// A line that process 16 wrote to its terminal.
fn line(alloc: Global) -> Result<Letter, NoMemory>
    ensures { IfOk result (λ l. l ≡ record { from = record { 0 = 16 }; out = 0; to = Tty 0; body = Said (97 ∷ 10 ∷ []) }) }
{
    Ok(Letter {
        from: Pid(16),
        out: 0,
        to: To::Tty(0),
        body: Body::Said(SharedBytes::copy_of(alloc, b"a\n")?),
    })
}

// The record of process 16 that wrote one line since its last synchronisation.
fn line_recorded(alloc: Global, state: Small) -> Result<Record, NoMemory>
    ensures { IfOk result (λ r. r ≡ record {
      pid = record { 0 = 16 };
      state = Some state;
      saved = [];
      next = 0;
      counts = record { ends = 1 ∷ replicate 31 0; signals = 0 };
      births = [];
    }) }
{
    let sent = line(alloc)?;
    let mut kept = Record::new(alloc, Pid(16), Some(state));
    kept.count(&sent);
    Ok(kept)
}

// A process that wrote a line, which is its sixth step, and then was moved with its page.
fn two_moved(alloc: Global) -> Result<Rolling, NoMemory> {
    let two = Process::root(alloc, Pid(16), 0x10000, 1, &TWO, 1000, 0, 0)?;
    let Process { small, ram, .. } = two;
    let mut waiting = Waiting::begin(alloc, line_recorded(alloc, small)?)?;
    waiting.come(0, &ram.page(0));
    Ok(waiting.into_rolling(alloc))
}

// The steps that it makes until nothing is left, and what it withheld.
fn caught_up(rolling: &mut Rolling) -> Result<(u32, bool, u64), NoMemory> {
    let made = rolling.run(64)?;
    Ok((made, rolling.caught_up(), rolling.withheld()))
}

#[test]
fn it_does_again_what_its_record_counts(rt: HostRuntime) -> Result<(), Fail> {
    let mut rolling = two_moved(rt.alloc())?;
    same("the steps", &caught_up(&mut rolling)?, &(6, true, 1))
}

// A child that never synchronised, to which a signal has come.
fn child_moved(alloc: Global) -> Result<Waiting, NoMemory> {
    let mut waiting = Waiting::for_fork(alloc, Record::new(alloc, Pid(48), None));
    signal_comes(&mut waiting, 10)?;
    Ok(waiting)
}

#[test]
fn a_child_without_a_state_waits_for_no_page(rt: HostRuntime) -> Result<(), Fail> {
    let waiting = child_moved(rt.alloc())?;
    same(
        "its pages, what it lacks, and whether all have come",
        &(waiting.pages(), waiting.lacks(), waiting.is_whole()),
        &(0, None, true),
    )
}

#[test]
fn its_record_has_the_letter_that_came_meanwhile(rt: HostRuntime) -> Result<(), Fail> {
    let kept = child_moved(rt.alloc())?.into_record();
    same(
        "the pid and the next number",
        &(kept.pid().0, kept.next()),
        &(48, 1),
    )
}
