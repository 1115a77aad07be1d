//! What of a table is audited.

ghost use Rattle.std.specs.Prelude.{◌≡◌, IfErr, IfOk};
ghost use Rattle.contract_words.specs.Outcome.{Gives};
ghost use Rattle.icescan_audit.specs.Subjects.{IsOfMetadata, column_ids, number_under, subject_in, subject_of};
ghost use Rattle.icescan_audit.specs.Subjects.{typed_columns};
ghost use Rattle.ice_meta.specs.Targets.{resolved};
ghost use Rattle.serde_json.specs.View.{view};

use crate::summary::said_totals;
use contract_words::{Items, Text};
use ice_meta::{Metadata, Schema, Target};
use ice_value::SequenceNumber;
use icescan_audit_findings::{Basis, SaidTotal, TypedColumn, TypedColumns};
use icescan_text::RunFault;
use std::alloc::{AllocError, Global};

/// A snapshot that is audited.
#[derive(Debug, Drop)]
pub struct Subject {
    /// The path of its manifest list.
    pub list: Text,
    /// What its entries are held against, before the rows of the list are known.
    pub basis: Basis,
    /// The totals of its live files that its summary says.
    pub said: Items<SaidTotal>,
}

/// The ids of a schema's columns.
fn column_ids(alloc: Global, schema: &Schema) -> Result<Items<i32>, AllocError>
    ensures { IfOk result (λ ids. ids ≡ column_ids schema.now) }
{
    let columns = schema.columns.as_slice();
    let mut ids = Items::new(alloc);
    'columns: for column in columns {
        ids.push(column.id)?;
    }
    Ok(ids)
}

/// A schema's columns, with the types of their values.
fn columns_of(alloc: Global, schema: &Schema) -> Result<Vec<TypedColumn>, AllocError>
    ensures { IfOk result (λ columns. columns.items ≡ typed_columns schema.now) }
{
    let columns = schema.columns.as_slice();
    let mut typed = Vec::new(alloc);
    'columns: for column in columns {
        typed.push(TypedColumn {
            id: column.id,
            column_type: column.column_type,
        })?;
    }
    Ok(typed)
}

/// The same, with what finds them by their ids.
fn typed_columns(alloc: Global, schema: &Schema) -> Result<TypedColumns, AllocError>
    ensures { IfOk result (λ columns. columns ≡ typed_columns schema.now) }
{
    let columns = columns_of(alloc, schema)?;
    TypedColumns::new(alloc, columns)
}

/// The sequence number of a snapshot; the table's last where there is no such snapshot.
fn number_of(metadata: &Metadata, target: &Target) -> SequenceNumber
    ensures { result ≡ number_under (resolved target.now metadata.now.table) metadata.now.table }
{
    let last = metadata.table().last_sequence_number;
    let Ok(id) = metadata.resolve(target) else {
        return last;
    };
    match metadata.snapshot(id) {
        Some(snapshot) => snapshot.sequence_number,
        None => last,
    }
}

/// A snapshot of a table, with the schema that counts for it: the current one, or that of the snapshot itself for a tag
/// and for a snapshot's id. The refusal is `Metadata` where there is no such snapshot; or `Memory`.
#[tactic(auto, unfolding(crate::specs::Subjects::subject_in))]
pub fn subject_in(alloc: Global, metadata: &Metadata, target: &Target) -> Result<Subject, RunFault>
    ensures gives { Gives RunFault.Memory (λ subject. subject) result
        (subject_in (view metadata.now.json) metadata.now.table target.now) }
    ensures causes { IfErr result IsOfMetadata }
{
    let list = metadata.manifest_list(target)?;
    let schema = metadata.schema_for(target);
    let basis = Basis {
        specs: metadata.specs(alloc, schema)?,
        columns: column_ids(alloc, schema)?,
        typed: typed_columns(alloc, schema)?,
        last: metadata.table().last_sequence_number,
        snapshot: number_of(metadata, target),
        has_deletes: false,
    };
    Ok(Subject {
        list: list.copy(alloc)?,
        basis,
        said: said_totals(alloc, metadata, target)?,
    })
}

/// What is audited of the table whose metadata these are the bytes of. The refusal is `Metadata` with the first fault
/// of the bytes, or where there is no such snapshot; or `Memory`.
#[tactic(auto, unfolding(crate::specs::Subjects::subject_of))]
pub fn select_subject(alloc: Global, metadata: &[u8], target: &Target) -> Result<Subject, RunFault>
    ensures gives { Gives RunFault.Memory (λ subject. subject) result (subject_of metadata.now target.now) }
    ensures causes { IfErr result IsOfMetadata }
{
    let metadata = Metadata::read(alloc, metadata)?;
    subject_in(alloc, &metadata, target)
}
