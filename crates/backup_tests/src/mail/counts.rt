//! Counts and answers that were worked by hand.
use std::alloc::Global;
use std::test::Fail;
use t32_base::letter::{Body, Letter, To};
use t32_base::process::{Counts, Pid};
use t32_base::shared_bytes::SharedBytes;
use t32_base::streams::NoMemory;
use test_asserts::same;
use write_count::{count, is_zero, total, withhold};

const NONE: Counts = Counts {
    ends: [0; 32],
    signals: 0,
};

// Counting and withholding, where they may be called; the counts of a test stay small.
fn count_small(counts: &mut Counts, letter: &Letter) {
    match letter.body {
        Body::Signal(_) => {
            if letter.out < 32 && counts.signals < 9 {
                count(counts, letter);
            }
        }
        _ => {
            if letter.out < 32 && counts.ends[usize::from(letter.out)] < 9 {
                count(counts, letter);
            }
        }
    }
}

fn withholds(counts: &mut Counts, letter: &Letter) -> bool {
    letter.out < 32 && withhold(counts, letter)
}

// The text of a line by its number.
fn text_of(number: u8) -> &'static [u8] {
    match number {
        0 => b"a\n",
        1 => b"b\n",
        _ => b"c\n",
    }
}

// A line that the process 16 writes to its terminal.
fn line(alloc: Global, number: u8) -> Result<Letter, NoMemory> {
    Ok(Letter {
        from: Pid(16),
        out: 0,
        to: To::Tty(0),
        body: Body::Said(SharedBytes::copy_of(alloc, text_of(number))?),
    })
}

fn count_line(alloc: Global, left: &mut Counts, number: u8) -> Result<(), NoMemory> {
    let sent = line(alloc, number)?;
    count_small(left, &sent);
    Ok(())
}

// Whether nothing is left to withhold before a line, and whether the line is withheld.
type Line = (bool, bool);

fn line_again(alloc: Global, left: &mut Counts, number: u8) -> Result<Line, NoMemory> {
    let none_left = is_zero(left);
    let again = line(alloc, number)?;
    Ok((none_left, withholds(left, &again)))
}

fn count_lines(alloc: Global, left: &mut Counts, written: u8) -> Result<(), NoMemory> {
    for number in 0..written {
        count_line(alloc, left, number)?;
    }
    Ok(())
}

type Lines = (Line, Line, Line);

fn lines_again(alloc: Global, left: &mut Counts) -> Result<Lines, NoMemory> {
    Ok((
        line_again(alloc, left, 0)?,
        line_again(alloc, left, 1)?,
        line_again(alloc, left, 2)?,
    ))
}

const WITHHELD: Line = (false, true);

const NEW: Line = (true, false);

// How many lines were written and are counted, and what each of the three is when it comes again.
static AGAIN: [(u8, u64, Lines); 3] = [
    (0, 0, (NEW, NEW, NEW)),
    (1, 1, (WITHHELD, NEW, NEW)),
    (2, 2, (WITHHELD, WITHHELD, NEW)),
];

fn assert_again(alloc: Global, written: u8, counted: u64, wanted: &Lines) -> Result<(), Fail> {
    let mut left = NONE;
    count_lines(alloc, &mut left, written)?;
    same("how many are counted", &total(&left), &counted)?;
    same("the lines", &lines_again(alloc, &mut left)?, wanted)?;
    same("whether nothing is left", &is_zero(&left), &true)
}

#[test]
fn two_lines_that_were_written_are_withheld_and_the_next_is_not(
    rt: HostRuntime,
) -> Result<(), Fail> {
    for row in &AGAIN {
        assert_again(rt.alloc(), row.0, row.1, &row.2)?;
    }
    Ok(())
}

// The last letter of an end.
fn shut(out: u8) -> Letter {
    Letter {
        from: Pid(16),
        out,
        to: To::Proc(Pid(32), 1),
        body: Body::EndOf,
    }
}

fn signal() -> Letter {
    Letter {
        from: Pid(16),
        out: 0,
        to: To::Proc(Pid(32), 0),
        body: Body::Signal(11),
    }
}

// A signal and two letters of end 31 are counted.
fn three_counted() -> Counts {
    let mut left = NONE;
    count_small(&mut left, &signal());
    let last = shut(31);
    count_small(&mut left, &last);
    count_small(&mut left, &last);
    left
}

// The count of signals, that of end 31, and all together.
fn numbers(left: &Counts) -> (u32, u32, u64) {
    (left.signals, left.ends[31], total(left))
}

fn withholds_shut(left: &mut Counts, out: u8) -> bool {
    withholds(left, &shut(out))
}

fn withholds_signal(left: &mut Counts) -> bool {
    withholds(left, &signal())
}

// Whether letters of the ends 0, 30 and 31 and two signals are withheld, and whether nothing is left then.
fn five_again(left: &mut Counts) -> ([bool; 5], bool) {
    let again = [
        withholds_shut(left, 0),
        withholds_shut(left, 30),
        withholds_shut(left, 31),
        withholds_signal(left),
        withholds_signal(left),
    ];
    (again, is_zero(left))
}

// Whether one more letter of end 31 is withheld, and whether nothing is left then.
fn last_again(left: &mut Counts) -> (bool, bool) {
    (withholds_shut(left, 31), is_zero(left))
}

#[test]
fn a_signal_and_each_end_have_a_count_of_their_own(_rt: HostRuntime) -> Result<(), Fail> {
    let mut left = three_counted();
    let counted = numbers(&left);
    let five = five_again(&mut left);
    same(
        "what is counted, and what is withheld",
        &(counted, five, last_again(&mut left)),
        &(
            (1, 2, 3),
            ([false, false, true, true, false], false),
            (true, true),
        ),
    )
}
