//! Public calls of books once more, each under the one clause that its wrong implementations turn.

ghost use Rattle.std.specs.Prelude.{◌≡◌, ◌≢◌, IfErr, IfOk};
ghost use Rattle.std.specs.Arc.{arc_value};
ghost use Rattle.ice_catalog_versions.specs.Histories.{after};

use ice_catalog_book::{Book, Conflict};
use ice_catalog_versions::{Prepared, Receipt, Version};
use std::alloc::{AllocError, Global};
use std::sync::Arc;

/// The version of a book, whichever it began with.
pub fn pin(book: &Book, _first: &Arc<Version>) -> Result<Arc<Version>, AllocError>
    ensures { IfOk result (λ version. arc_value version ≡ book.now) }
{
    Arc::try_clone(book.current())
}

/// Makes a commit exactly where its base is the book's version. Wrong implementations may need memory.
pub fn swap_in(_alloc: Global, book: &mut Book, prepared: Prepared) -> Result<Receipt, Conflict>
    ensures made { IfOk result (λ receipt. (prepared.base ≡ book.old) × (book.new ≡ after book.old prepared.commit)) }
    ensures conflict { IfErr result (λ conflict. prepared.base ≢ book.old) }
{
    book.swap_in(prepared)
}
