//! What is written of an audit. The expected lines come from the table of the formats.
use audit_text::{Finding, SOUND, STATUS};
use std::alloc::Global;
use std::test::Fail;
use t32_base::streams::NoMemory;
use test_asserts::same;

// Whether the line of a finding is this, and its words begin so.
fn written(
    alloc: Global,
    finding: Finding,
    line: &[u8],
    part: &[u8],
) -> Result<(bool, bool), NoMemory> {
    let is_line = finding.line(alloc)?.as_slice() == line;
    let words = finding.words(alloc)?;
    Ok((is_line, words.as_slice().starts_with(part)))
}

// The line of a finding, and how its words begin.
static FINDINGS: [(Finding, &[u8], &[u8]); 5] = [
    (
        Finding::Form,
        b"t32: audit form\n",
        b"t32: what stands behind",
    ),
    (
        Finding::Entry { index: 4 },
        b"t32: audit entry 4\n",
        b"t32: entry 4 of the log ",
    ),
    (
        Finding::Entry { index: u64::MAX },
        b"t32: audit entry 18446744073709551615\n",
        b"t32: entry 18446744073709551615 of the log ",
    ),
    (
        Finding::Unended,
        b"t32: audit unended\n",
        b"t32: the log ends neither ",
    ),
    (
        Finding::Report,
        b"t32: audit report\n",
        b"t32: the entries of the log ",
    ),
];

#[test]
fn findings_are_written(rt: HostRuntime) -> Result<(), Fail> {
    for (finding, line, part) in &FINDINGS {
        let found = written(rt.alloc(), *finding, line, part)?;
        same(
            "the line and words",
            &(*finding, found),
            &(*finding, (true, true)),
        )?;
    }
    same("none", &(SOUND, STATUS), &(b"audit ok\n".as_slice(), 9))
}
