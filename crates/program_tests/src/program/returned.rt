//! Clusters of `run` and `load` that were lost come back: terminals and processes are those of the system without failures, in whatever
//! order the clusters send.
use program_calls::answer;
use std::test::Fail;
use test_asserts::same;
use test_systems::HI;

// The words, the text, and what stands at the head of the report.
static RETURNED: [(&[u8], &str, &str); 2] = [
    (
        b"run crash:0@bus:0 return:0@bus:3",
        HI,
        "tty 0 3\nhi\n\npid 16 exit 0\n",
    ),
    (
        b"load 7 crash:2@bus:100 return:2@bus:110",
        "",
        "load 7 tty 7 exits 31 other 0\n",
    ),
];

#[test]
fn clusters_on_threads_come_back(rt: HostRuntime) -> Result<(), Fail> {
    for (line, text, head) in RETURNED {
        let (status, written) = answer(&rt, line, text.as_bytes())?;
        let shown = (line, status, written.starts_with(head.as_bytes()));
        same("the answer", &shown, &(line, 0, true))?;
    }
    Ok(())
}
