//! Which losses of a printed log were covered, by the lines of the log and the placement of the roots alone: a loss is covered where each
//! process of the lost cluster that has not ended has a backup that lives, and a page server lives after it.
use std::alloc::{AllocError, Global};

// Where a process is at home and where its backup stands, until it ends.
#[derive(Clone, Copy)]
struct Place {
    pid: u32,
    home: Option<u32>,
    backup: Option<u32>,
}

/// Where all processes are, and which page servers live. One that comes back is none again.
#[derive(Drop)]
pub struct Placement {
    places: Vec<Place>,
    servers: [Option<u32>; 2],
}

// A field of a line, which single spaces part, or nothing.
fn field(line: &[u8], index: usize) -> &[u8] {
    line.split(|b| *b == b' ').nth(index).unwrap_or(b"")
}

// The number that a field says, if it says one.
fn number(field: &[u8]) -> Option<u32> {
    let mut number: u32 = 0;
    for digit in field {
        if !digit.is_ascii_digit() {
            return None;
        }
        number = number
            .wrapping_mul(10)
            .wrapping_add(u32::from(digit.wrapping_sub(b'0')));
    }
    Some(number)
}

impl Placement {
    /// So many roots, the first in cluster 0 and each next one in the next cluster, with its backup in the cluster behind that.
    pub fn at_start(
        alloc: Global,
        roots: u32,
        clusters: u32,
        servers: [u32; 2],
    ) -> Result<Placement, AllocError> {
        let mut places = Vec::new(alloc);
        for home in 0..roots.min(16) {
            let next = home + 1;
            places.push(Place {
                pid: home + 16,
                home: Some(home),
                backup: Some(if next < clusters { next } else { 0 }),
            })?;
        }
        let [first, second] = servers;
        Ok(Placement {
            places,
            servers: [Some(first), Some(second)],
        })
    }

    /// Takes the next line of the log in: false where that is a loss which is not covered.
    pub fn follow(&mut self, line: &[u8]) -> Result<bool, AllocError> {
        let what = field(line, 2);
        let named = number(field(line, 3));
        if what == b"crash".as_slice() {
            return Ok(self.lose(named));
        }
        if what == b"birth".as_slice() {
            self.bear(line, named)?;
        }
        if what == b"exit".as_slice() {
            self.end(named);
        }
        if what == b"rebackup".as_slice() {
            self.renew(line);
        }
        Ok(true)
    }

    // A cluster is lost: its processes move to their backups, and the backups that it held are gone.
    fn lose(&mut self, cluster: Option<u32>) -> bool {
        let mut covered = true;
        for place in self.places.iter_mut() {
            if place.home == cluster {
                covered = covered && place.backup.is_some();
                place.home = place.backup;
                place.backup = None;
            } else if place.backup == cluster {
                place.backup = None;
            }
        }
        for server in self.servers.iter_mut() {
            if *server == cluster {
                *server = None;
            }
        }
        let [first, second] = self.servers;
        covered && (first.is_some() || second.is_some())
    }

    // A child is where its parent is.
    fn bear(&mut self, line: &[u8], parent: Option<u32>) -> Result<(), AllocError> {
        let mut found = (None, None);
        for place in self.places.iter() {
            if Some(place.pid) == parent {
                found = (place.home, place.backup);
            }
        }
        self.places.push(Place {
            pid: number(field(line, 7)).unwrap_or(0),
            home: found.0,
            backup: found.1,
        })?;
        Ok(())
    }

    fn end(&mut self, pid: Option<u32>) {
        for place in self.places.iter_mut() {
            if Some(place.pid) == pid {
                place.pid = 0;
                place.home = None;
                place.backup = None;
            }
        }
    }

    // The pids stand behind the word, and the cluster before the last word.
    fn renew(&mut self, line: &[u8]) {
        let mut before = b"".as_slice();
        let mut last = b"".as_slice();
        for field in line.split(|b| *b == b' ') {
            before = last;
            last = field;
        }
        let cluster = number(before);
        for field in line.split(|b| *b == b' ').skip(3) {
            let Some(pid) = number(field) else {
                return;
            };
            self.back(pid, cluster);
        }
    }

    fn back(&mut self, pid: u32, cluster: Option<u32>) {
        for place in self.places.iter_mut() {
            if place.pid == pid {
                place.backup = cluster;
            }
        }
    }
}

/// The place of the last page that a log tells of, or 0.
pub fn last_page(log: &[u8]) -> u32 {
    let mut last = 0;
    for line in log.split(|b| *b == b'\n') {
        if field(line, 2) == b"pageis".as_slice() {
            last = number(field(line, 0)).unwrap_or(0);
        }
    }
    last
}

/// The status with which a run has to end, by its log: 7 where its last entry is a loss that is not covered, 0 where each loss is covered.
/// None where something stands behind a loss that is not covered.
pub fn status_by(mut placement: Placement, log: &[u8]) -> Result<Option<u8>, AllocError> {
    let mut status = 0;
    for line in log.split(|b| *b == b'\n') {
        if line.is_empty() {
            return Ok(Some(status));
        }
        if status == 7 {
            return Ok(None);
        }
        if !placement.follow(line)? {
            status = 7;
        }
    }
    Ok(None)
}
