//! The parts of a report with a log, from its first byte on.

/// The terminals and the processes; the lines that tell of losses and returns, up to the one that counts the entries; the schedule; and the
/// entries of the log.
#[derive(Clone, Copy)]
pub struct Parts<'a> {
    pub head: &'a [u8],
    pub turns: &'a [u8],
    pub schedule: &'a [u8],
    pub log: &'a [u8],
}

/// Where these bytes first stand in a text.
pub fn place_of(text: &[u8], mark: &[u8]) -> Option<usize> {
    text.windows(mark.len().max(1))
        .position(|part| part == mark)
}

// The text up to and with the first byte of a mark, and what stands behind that.
fn cut<'a>(text: &'a [u8], mark: &[u8]) -> (&'a [u8], &'a [u8]) {
    match place_of(text, mark) {
        Some(at) => (
            text.get(..=at).unwrap_or(b""),
            text.get(at.saturating_add(1)..).unwrap_or(b""),
        ),
        None => (text, b""),
    }
}

/// Each part is looked for behind the one before, since a log is long.
pub fn parts_of(report: &[u8]) -> Parts {
    let (head, rest) = cut(report, b"\ncrash ");
    let (turns, rest) = cut(rest, b"\nschedule ");
    let (schedule, rest) = cut(rest, b"\nlog ");
    let (_, log) = cut(rest, b"\n");
    Parts {
        head,
        turns,
        schedule,
        log,
    }
}
