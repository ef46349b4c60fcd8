//! A system of sixteen clusters by the word `sim`: the order in which they go.
ghost use Rattle.std.specs.Prelude.{◌<◌};

use program_calls::assert_answer;
use std::alloc::{AllocError, Global};
use std::test::Fail;

// How many clusters the system has in which each has a root.
const MANY: u32 = 16;

// The text of that system: each root writes three bytes to its own terminal and exits.
fn many_roots(alloc: Global) -> Result<String, AllocError> {
    let mut text = String::from_str(
        alloc,
        "clusters 16\npager 0 1\nsyncreads 32\nsyncsteps 4096\nimage hi 1\nwords 00200893 00000513 000105b7 02458593 00300613 00000073 00100893 00000513\nwords 00000073 000a6968\nend\n",
    )?;
    for home in 0..MANY {
        let backup = (home + 1) % MANY;
        let line = format!(in alloc; "root {home} {backup} quarter hi 1000 0 {home}\n")?;
        text.push_str(line.as_str())?;
    }
    Ok(text)
}

// What `plain` prints of it.
fn many_ends(alloc: Global) -> Result<String, AllocError> {
    let mut text = String::new(alloc);
    for tty in 0..MANY {
        let part = format!(in alloc; "tty {tty} 3\nhi\n\n")?;
        text.push_str(part.as_str())?;
    }
    for home in 0..MANY {
        let pid = MANY + home;
        let line = format!(in alloc; "pid {pid} exit 0\n")?;
        text.push_str(line.as_str())?;
    }
    Ok(text)
}

// The items of one round in which each cluster sends: each runs so many steps, from this cluster on.
fn round_items(alloc: Global, first: u32, steps: u32) -> Result<String, AllocError>
    requires { first < 16 }
{
    let mut text = String::new(alloc);
    for turn in 0..MANY {
        let pid = MANY + (first + turn) % MANY;
        let line = format!(in alloc; "run {pid} {steps}\n")?;
        text.push_str(line.as_str())?;
    }
    Ok(text)
}

// The schedule of the run whose rounds begin at these clusters: in the first round each cluster sends its letter, in
// the second its exit.
fn schedule(alloc: Global, first: u32, second: u32) -> Result<String, AllocError> {
    let letters = round_items(alloc, first % MANY, 6)?;
    let exits = round_items(alloc, second % MANY, 4)?;
    let letters = letters.as_str();
    let exits = exits.as_str();
    format!(in alloc; "schedule 32\n{letters}{exits}")
}

// What `sim` prints of the run with this schedule.
fn report(alloc: Global, items: &str) -> Result<String, AllocError> {
    let ends = many_ends(alloc)?;
    let ends = ends.as_str();
    format!(in alloc; "{ends}crash none\nbus 33 syncs 0 withheld 0\n{items}")
}

// A pick p other than 0 begins round r at the cluster x_r mod 16, where x_0 = p and
// x_(r+1) = (1103515245 * x_r + 12345) mod 2^31.
static PICKS: [(&[u8], u32, u32); 6] = [
    (b"sim", 0, 0),
    (b"sim --pick 0", 0, 0),
    (b"sim --pick 1", 1, 6),
    (b"sim --pick 7", 7, 4),
    (b"sim --pick=7", 7, 4),
    (b"sim --pick 2147483647", 15, 12),
];

#[test]
fn a_pick_says_where_each_round_begins(rt: HostRuntime) -> Result<(), Fail> {
    let alloc = rt.alloc();
    let text = many_roots(alloc)?;
    for (line, first, second) in PICKS {
        let items = schedule(alloc, first, second)?;
        let report = report(alloc, items.as_str())?;
        assert_answer(&rt, line, text.as_str(), 0, report.as_str())?;
    }
    Ok(())
}

#[test]
fn the_kernel_without_failures_makes_the_same_of_the_schedule(rt: HostRuntime) -> Result<(), Fail> {
    let alloc = rt.alloc();
    let ends = many_ends(alloc)?;
    for (_, first, second) in PICKS {
        let mut text = many_roots(alloc)?;
        let items = schedule(alloc, first, second)?;
        text.push_str(items.as_str())?;
        assert_answer(&rt, b"plain", text.as_str(), 0, ends.as_str())?;
    }
    Ok(())
}
