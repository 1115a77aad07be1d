//! The book: the newest version of a table, and how it is replaced.

ghost use Rattle.std.specs.Prelude.{◌≡◌, ◌≢◌, IfOk, IfErr, OnErr, IfSome};
ghost use Rattle.std.specs.Arc.{arc_value};
ghost use Rattle.ice_catalog_versions.specs.Histories.{after, IsReceiptOf};

use ice_catalog_versions::{Prepared, Receipt, Version};
use std::alloc::{AllocError, Global};
use std::marker::Model;
use std::sync::Arc;

/// A commit whose base isn't the book's version.
#[derive(Drop)]
pub struct Conflict {
    /// The commit, handed back.
    pub prepared: Prepared,
    /// The book's version. There is none only where sharing it was refused memory.
    pub newer: Option<Arc<Version>>,
}

/// The newest version of a table.
#[derive(Drop)]
pub struct Book {
    version: Arc<Version>,
}

impl Model for Book {
    ghost use Rattle.std.specs.Arc.{arc_value};
    ghost use Rattle.ice_catalog_versions.specs.Codes.{history_code};
    ghost use Rattle.ice_catalog_versions.specs.Histories.{History};

    ghost Value = { History };

    ghost coded = { history_code };

    ghost view = { λ b. arc_value b.version };
}

impl Book {
    /// A book of this version.
    pub fn new(alloc: Global, version: Version) -> Result<Book, AllocError>
        ensures { IfOk result (λ book. book ≡ version) }
    {
        Ok(Book {
            version: Arc::new(alloc, version)?,
        })
    }

    /// The book's version.
    pub fn current(&self) -> &Arc<Version>
        ensures { arc_value result.now ≡ self.now }
    {
        &self.version
    }

    /// Makes a commit where its base has the opening and the journal of the book's version; else hands it back, and the
    /// book is unchanged. A receipt takes no memory.
    pub fn swap_in(&mut self, prepared: Prepared) -> Result<Receipt, Conflict>
        ensures base { IfOk result (λ r. prepared.base ≡ self.old) }
        ensures appended { IfOk result (λ r. self.new ≡ after self.old prepared.commit) }
        ensures receipt { IfOk result (λ r. IsReceiptOf r prepared) }
        ensures conflict { IfErr result (λ c. prepared.base ≢ self.old) }
        ensures handed_back { IfErr result (λ c. c.prepared ≡ prepared) }
        ensures newer { IfErr result (λ c. IfSome c.newer (λ v. arc_value v ≡ self.old)) }
        ensures unchanged { OnErr result (self.new ≡ self.old) }
    {
        swap(&mut self.version, prepared)
    }
}

/// Puts the version after a commit in the place of the newest version, where that is its base; else hands the commit
/// back, and the newest version stays.
pub(crate) fn swap(newest: &mut Arc<Version>, prepared: Prepared) -> Result<Receipt, Conflict>
    ensures base { IfOk result (λ r. prepared.base ≡ arc_value newest.old) }
    ensures appended { IfOk result (λ r. arc_value newest.new ≡ after (arc_value newest.old) prepared.commit) }
    ensures receipt { IfOk result (λ r. IsReceiptOf r prepared) }
    ensures conflict { IfErr result (λ c. prepared.base ≢ arc_value newest.old) }
    ensures handed_back { IfErr result (λ c. c.prepared ≡ prepared) }
    ensures newer { IfErr result (λ c. IfSome c.newer (λ v. arc_value v ≡ arc_value newest.old)) }
    ensures unchanged { OnErr result (arc_value newest.new ≡ arc_value newest.old) }
{
    if !prepared.is_on(newest) {
        let newer = Arc::try_clone(newest).ok();
        return Err(Conflict { prepared, newer });
    }
    let receipt = prepared.receipt();
    *newest = prepared.into_version();
    Ok(receipt)
}
