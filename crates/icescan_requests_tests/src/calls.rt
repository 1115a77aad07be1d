//! Public calls once more, each under the one clause that its wrong implementations turn, so that the gate can try
//! these cheaply.

ghost use Rattle.std.specs.Prelude.{◌≡◌, OnOk, map, string_bytes};
ghost use Rattle.icescan_progress.specs.Asked.{hints, shows_progress};
ghost use Rattle.icescan_progress.specs.Hints.{AppendsPlain};
ghost use Rattle.icescan_files.specs.Disks.{Extends, IsPlacedAt, names_below};
ghost use Rattle.icescan_words.specs.CommandLines.{ReadAs};

use contract_words::Text;
use icescan_files::{Disk, DiskFolder, Store, StoreFault};
use icescan_print::Sink;
use icescan_progress::Terminals;
use icescan_text::RunFault;
use icescan_words::Command;
use std::alloc::Global;

/// The command that the words ask for.
pub fn parse_words(alloc: Global, words: &[String]) -> Result<Command, RunFault>
    ensures { ReadAs (map string_bytes words.now) result }
{
    icescan_words::parse_words(alloc, words)
}

/// Puts a file below a folder where there was none.
pub fn place<D: Disk>(
    folder: &mut DiskFolder<'_, D>,
    alloc: Global,
    path: &str,
    bytes: &[u8],
) -> Result<(), StoreFault>
    ensures { OnOk result (Extends (D.events folder.old.disk) (D.events folder.new.disk)
        (IsPlacedAt (names_below folder.old.folder.now folder.old.prefix.now folder.old.ids.now) path.now bytes.now)) }
{
    folder.create_new(alloc, path, bytes)
}

/// Whether what is read is shown.
pub fn shows_progress(terminals: Terminals, words: &[String]) -> bool
    ensures { result ≡ shows_progress terminals.errors (map string_bytes words.now) }
{
    icescan_progress::shows_progress(terminals, words)
}

/// Whether faults have hints.
pub fn shows_hints(terminals: Terminals, words: &[String]) -> bool
    ensures { result ≡ hints terminals.errors (map string_bytes words.now) }
{
    icescan_progress::shows_hints(terminals, words)
}

/// Writes the lines of a hint.
pub fn put_lines<S: Sink>(alloc: Global, lines: &[Text], errors: &mut S)
    ensures { AppendsPlain (S.taken errors.old) (S.taken errors.new) }
{
    icescan_progress::put_lines(alloc, lines, errors)
}
