//! What a file is to a table, and its line.

ghost use Rattle.std.specs.Prelude.{◌≡◌, ◌++◌, ◌∷◌, [], IfOk, OnOk};
ghost use Rattle.icescan_print.specs.Pieces.{named_path};
ghost use Rattle.icescan_reachable.specs.Lines.{kind_word, line};

use contract_words::Items;
use icescan_print::put_named_path;
use std::alloc::{AllocError, Global};

/// What a file is to the table that reaches it.
#[derive(Clone, Copy, Debug, PartialEq, Eq)]
pub enum FileKind {
    /// Metadata: the file that was read, or one that its log names.
    Metadata,
    /// A manifest list.
    List,
    /// A manifest.
    Manifest,
    /// A data file.
    Data,
    /// A file of position deletes or of equality deletes.
    Delete,
    /// Statistics of the table or of its partitions.
    Statistics,
}

impl FileKind {
    /// The word that stands before a file's path, and the space behind it.
    fn word(self) -> &'static [u8]
        ensures { result.now ≡ kind_word self }
    {
        match self {
            FileKind::Metadata => b"metadata ",
            FileKind::List => b"list ",
            FileKind::Manifest => b"manifest ",
            FileKind::Data => b"data ",
            FileKind::Delete => b"delete ",
            FileKind::Statistics => b"statistics ",
        }
    }
}

fn push_path(text: &mut Vec<u8>, name: &[u8], path: &[u8]) -> Result<(), AllocError>
    ensures { OnOk result (text.new.items ≡ text.old.items ++ named_path name.now path.now) }
{
    put_named_path(text, name, path).map_err(|_| AllocError)
}

/// The line of a file.
pub fn line_of(alloc: Global, kind: FileKind, path: &[u8]) -> Result<Items<u8>, AllocError>
    ensures { IfOk result (λ text. text ≡ line kind path.now) }
{
    let mut text = Vec::new(alloc);
    push_path(&mut text, kind.word(), path)?;
    text.extend_from_slice(b"\n")?;
    Ok(Items::from_vec(text))
}

/// Puts the line of a file last.
pub fn put_line(
    lines: &mut Vec<Items<u8>>,
    alloc: Global,
    kind: FileKind,
    path: &[u8],
) -> Result<(), AllocError>
    ensures { OnOk result (lines.new.items ≡ lines.old.items ++ line kind path.now ∷ []) }
{
    lines.push(line_of(alloc, kind, path)?)?;
    Ok(())
}
