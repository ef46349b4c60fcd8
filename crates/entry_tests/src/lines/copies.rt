//! What no line shows of entries.
use bus_msg::entry::What;
use t32_base::letter::BackRec;
use t32_base::process::{Pid, Small};

// The handler, the numbers of the letters read and the signal taken.
fn of_sync(small: &Small, read: &[u64], took: Option<u8>) -> Option<[u64; 4]> {
    match read {
        [first, second] => Some([u64::from(small.handler), *first, *second, u64::from(took?)]),
        _ => None,
    }
}

// The two that have not ended, and their steps.
fn of_rests(rests: &[(Pid, u64)]) -> Option<[u64; 4]> {
    match rests {
        [(first, at), (second, then)] => Some([
            u64::from(first.0),
            *at,
            u64::from(second.0),
            *then,
        ]),
        _ => None,
    }
}

// The number of the next letter, the signals counted, how many letters are saved, and the one birth.
fn of_record(record: &BackRec) -> Option<[u64; 4]> {
    let saved = record.saved.len() as u64;
    match record.births.as_slice() {
        [birth] => Some([
            record.next,
            u64::from(record.counts.signals),
            saved,
            u64::from(birth.0),
        ]),
        _ => None,
    }
}

// The first two bytes and the last two.
fn of_page(bytes: &[u8; 256]) -> [u64; 4] {
    [
        u64::from(bytes[0]),
        u64::from(bytes[1]),
        u64::from(bytes[254]),
        u64::from(bytes[255]),
    ]
}

/// What no line shows of an entry, in numbers: of a new backup, of each of its two records.
pub type Hidden = Option<([u64; 4], [u64; 4])>;

fn of_records(records: &[BackRec]) -> Hidden {
    match records {
        [first, second] => Some((of_record(first)?, of_record(second)?)),
        _ => None,
    }
}

pub fn hidden(what: &What) -> Hidden {
    match what {
        What::Sync {
            small,
            read,
            took,
            ..
        } => Some((of_sync(small.get(), read.as_slice(), *took)?, [0; 4])),
        What::Done { rests } => Some((of_rests(rests.as_slice())?, [0; 4])),
        What::Rebackup { recs, .. } => of_records(recs.get().as_slice()),
        What::PageIs { bytes, .. } => Some((of_page(bytes.get()), [0; 4])),
        _ => None,
    }
}
