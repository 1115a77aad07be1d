//! Which rows of two manifest lists are shared.

ghost use Rattle.std.specs.Prelude.{◌≡◌, IfOk};
ghost use Rattle.std.specs.List.Sorted.{IsStrictlySortedBy};
ghost use Rattle.ice_manifest_reading.specs.Lists.{path_order};
ghost use Rattle.icescan_shared_manifests.specs.Shared.{has_deletes_of, has_row, have_same_deletes, is_of_data};
ghost use Rattle.icescan_shared_manifests.specs.Shared.{is_shared, unshared};

use ice_manifest_reading::{ManifestContent, Row};
use std::alloc::{AllocError, Global};
use std::cmp::Ordering;

/// Whether a row is one of these, whose paths rise.
fn has_row(rows: &[Row], row: &Row) -> bool
    requires { IsStrictlySortedBy path_order rows.now }
    ensures { result ≡ has_row rows.now row.now }
{
    let place = rows.binary_search_by(
        |other: &Row| -> Ordering
            ensures { result ≡ path_order other.now row.entry.now }
        { other.path.as_bytes().cmp(row.path.as_bytes()) },
    );
    match place {
        Ok(at) => rows[at] == *row,
        Err(_) => false,
    }
}

/// Whether a row is of a manifest of data files.
fn is_of_data(row: &Row) -> bool
    ensures { result ≡ is_of_data row.now }
{
    match row.content {
        ManifestContent::Data => true,
        ManifestContent::Deletes => false,
    }
}

/// Whether a row is of data files, and one of the others too.
fn is_shared(others: &[Row], row: &Row) -> bool
    requires { IsStrictlySortedBy path_order others.now }
    ensures { result ≡ is_shared others.now row.now }
{
    is_of_data(row) && has_row(others, row)
}

/// The rows that are not shared so.
pub fn unshared(alloc: Global, others: &[Row], rows: &[Row]) -> Result<Vec<Row>, AllocError>
    requires { IsStrictlySortedBy path_order others.now }
    ensures { IfOk result (λ own. own.items ≡ unshared others.now rows.now) }
{
    let mut own = Vec::new(alloc);
    'rows: for row in rows {
        if !is_shared(others, row) {
            own.push(row.copy(alloc)?)?;
        }
    }
    Ok(own)
}

/// Whether each of the rows that is of a manifest of delete files is one of the others too.
fn has_deletes_of(others: &[Row], rows: &[Row]) -> bool
    requires { IsStrictlySortedBy path_order others.now }
    ensures { result ≡ has_deletes_of others.now rows.now }
{
    'rows: for row in rows {
        if !is_of_data(row) && !has_row(others, row) {
            return false;
        }
    }
    true
}

/// Whether both have the same manifests of delete files.
pub fn have_same_deletes(earlier: &[Row], later: &[Row]) -> bool
    requires earlier { IsStrictlySortedBy path_order earlier.now }
    requires later { IsStrictlySortedBy path_order later.now }
    ensures { result ≡ have_same_deletes earlier.now later.now }
{
    has_deletes_of(later, earlier) && has_deletes_of(earlier, later)
}
