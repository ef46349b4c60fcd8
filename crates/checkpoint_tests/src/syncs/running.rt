//! A process that reads a letter by its sixth step and another by its eighth, and waits for a third after its tenth.
use crate::syncs::reader::begun;
use quanta::limits::Limits;
use quanta::quantum::{Ran, run_rest};
use std::alloc::Global;
use std::test::Fail;
use t32_base::streams::NoMemory;
use test_asserts::same;

// Whether it moved, its steps, and how many letters it read.
type Made = (bool, u64, usize);

// What a process made in a quantum, where it was not due and could take no signal.
fn made(alloc: Global, limits: Limits) -> Result<Option<Made>, NoMemory> {
    let mut p = begun(alloc)?;
    if limits.ask(&p) {
        return Ok(None);
    }
    let ran = run_rest(alloc, &mut p, limits, 0)?;
    Ok(Some((matches!(ran, Ran::Moved), p.small.steps, p.read.len())))
}

// By steps, by reads, by neither.
static MADE: [(Limits, Option<Made>); 3] = [
    (Limits { reads: 9, steps: 3 }, Some((true, 3, 0))),
    (
        Limits {
            reads: 1,
            steps: 99,
        },
        Some((true, 6, 1)),
    ),
    (
        Limits {
            reads: 9,
            steps: 99,
        },
        Some((true, 10, 2)),
    ),
];

#[test]
fn a_quantum_ends_where_its_process_is_due(rt: HostRuntime) -> Result<(), Fail> {
    for (limits, wanted) in &MADE {
        same("a quantum", &made(rt.alloc(), *limits)?, wanted)?;
    }
    Ok(())
}
