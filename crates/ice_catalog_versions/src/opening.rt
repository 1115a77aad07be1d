//! What a version is opened on.

ghost use Rattle.std.specs.Prelude.{◌≡◌, ◌↔◌, IsTrue};

use crate::world::World;
use contract_words::Items;

/// What a version was opened on.
#[derive(Drop)]
pub struct Opening {
    /// The bytes of the metadata.
    pub bytes: Items<u8>,
    /// The files that were there.
    pub world: World,
}

impl Opening {
    /// Whether both have the same bytes and the same files.
    pub fn is_same(&self, other: &Opening) -> bool
        ensures { IsTrue result ↔ (self.now ≡ other.now) }
    {
        self.bytes.as_slice() == other.bytes.as_slice() && self.world.is_same(&other.world)
    }
}
