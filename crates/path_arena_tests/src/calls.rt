//! Public calls once more, each under the one clause that its wrong implementations turn, so that the gate can try
//! these cheaply.

ghost use Rattle.std.specs.Prelude.{◌≤◌, IfOk, OnOk};
ghost use Rattle.path_arena.specs.Arena.{IsAt};

use path_arena::{Arena, ArenaFault, PathId};

/// Makes room for more strings.
pub fn reserve(arena: &mut Arena, ids: usize, bytes: usize) -> Result<(), ArenaFault>
    ensures { OnOk result ((ids ≤ arena.new.ids) × (bytes ≤ arena.new.bytes)) }
{
    arena.reserve(ids, bytes)
}

/// The number of a string.
pub fn intern(arena: &mut Arena, bytes: &[u8]) -> Result<PathId, ArenaFault>
    ensures { IfOk result (IsAt arena.new.strings bytes.now) }
{
    arena.intern(bytes)
}
