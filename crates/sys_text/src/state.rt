//! What the lines so far said, and where its images are found.
ghost use Rattle.std.specs.Prelude.{◌≡◌};
ghost use Rattle.sys_text.specs.Rules.{place_of};
ghost use Rattle.sys_text.specs.ImageNames.{KnowsImages};

use crate::open_block::OpenBlock;
use crate::stage::Stage;
use crate::system::System;
use text_parts::Names;

/// What the lines so far said, the block that is open, if one is, and the size of the file whose words that block has, if
/// it is the block of one.
#[derive(Drop)]
pub struct State<'a> {
    pub stage: Stage,
    pub system: System,
    pub block: Option<OpenBlock<'a>>,
    pub file: Option<u32>,
}

/// The state of a reading, and the places of its images by their names.
#[derive(Drop)]
pub struct Reader<'a> {
    pub state: State<'a>,
    pub places: Names<'a, u64>,
}

impl<'a> Reader<'a> {
    /// The place of the first image with this name.
    pub fn place(&self, name: &'a [u8]) -> Option<u64>
        requires { KnowsImages self.now }
        ensures { result ≡ place_of self.now.state.system.images name.now }
    {
        self.places.value(name)
    }
}
