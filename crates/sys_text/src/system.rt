//! A system: its clusters, its images, its roots and their channels.
use t32_base::lists::{List, Text};
use t32_base::process::{ClusterNo, Mode};

/// A program: its name, the pages of its memory, the address of its first instruction, and the words at its front.
#[derive(Drop)]
pub struct Image {
    pub name: Text,
    pub pages: u16,
    pub entry: u32,
    pub words: List<u32>,
}

/// A process that runs from the start: its two clusters, its mode, the number of its image from 0, how
/// many instructions it may execute, how often it and its children may fork, and its terminal.
#[derive(Clone, Copy)]
pub struct Root {
    pub home: ClusterNo,
    pub backup: ClusterNo,
    pub mode: Mode,
    pub image: u64,
    pub limit: u32,
    pub births: u8,
    pub tty: u8,
}

/// A system as its text gives it. A channel names two roots by their numbers from 1.
#[derive(Drop)]
pub struct System {
    pub clusters: u8,
    /// The two clusters that serve pages.
    pub pager: (ClusterNo, ClusterNo),
    /// How many reads a process may make before it synchronises.
    pub syncreads: u32,
    /// How many instructions it may execute before it synchronises.
    pub syncsteps: u32,
    pub images: List<Image>,
    pub roots: List<Root>,
    pub chans: List<(u8, u8)>,
}
