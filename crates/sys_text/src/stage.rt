//! The lines of a system text, and where each may stand.

/// The first field of a line.
#[derive(Clone, Copy)]
pub enum Keyword {
    Clusters,
    Pager,
    Syncreads,
    Syncsteps,
    Image,
    Asm,
    Elf,
    Words,
    End,
    Root,
    Chan,
}

/// What has been read, and so which lines may come next.
#[derive(Clone, Copy)]
pub enum Stage {
    Start,
    AfterClusters,
    AfterPager,
    AfterSyncreads,
    /// Image blocks, and the first root.
    Images,
    /// In a block of words, of an image or of a file.
    InImage,
    /// More roots, and channels.
    Roots,
    Chans,
}
