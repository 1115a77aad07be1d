//! What is to be read of the manifests of all snapshots.

ghost use Rattle.std.specs.Prelude.{Ok, IfErr, IfOk, OnOk};
ghost use Rattle.std.specs.List.{All};
ghost use Rattle.ice_meta.specs.Targets.{described};
ghost use Rattle.icescan_audit.specs.Subjects.{IsOfMetadata};
ghost use Rattle.icescan_audit_all.specs.Snapshots.{IsClass};

use crate::listed::Listed;
use ice_manifest_reading::Row;
use ice_meta::{Metadata, Target};
use icescan_audit::{Basis, Subject, subject_in};
use icescan_text::RunFault;
use shared_value::Shared;
use std::alloc::{AllocError, Global};

/// What the manifests of some snapshots are held against.
#[derive(Debug, Drop)]
pub struct Class {
    /// The id of the schema that counts for these snapshots.
    pub schema: i32,
    /// Whether their manifest lists have manifests of deletes.
    pub has_deletes: bool,
    /// What their entries are held against; its snapshot is as new as the table.
    pub basis: Basis,
}

/// A row of a snapshot, and the class of the snapshot.
#[derive(Debug, Drop)]
pub struct Want {
    pub class: usize,
    pub row: Shared<Row>,
}

/// What the manifests of a snapshot are held against, and those of the others like it.
fn class_of(alloc: Global, metadata: &Metadata, listed: &Listed) -> Result<Class, RunFault>
    ensures class { IfOk result (IsClass (described metadata.now.json metadata.now.table)) }
    ensures causes { IfErr result IsOfMetadata }
{
    let target = Target::Snapshot(listed.snapshot);
    let schema = metadata.schema_for(&target).id;
    let subject = subject_in(alloc, metadata, &target)?;
    let Subject { list, basis, said } = subject;
    drop(list);
    drop(said);
    let last = basis.last;
    Ok(Class {
        schema,
        has_deletes: listed.has_deletes,
        basis: Basis {
            snapshot: last,
            has_deletes: listed.has_deletes,
            ..basis
        },
    })
}

/// The place of the class of a snapshot among these; their number where it is none of them.
fn place_of(classes: &[Class], listed: &Listed) -> usize {
    'classes: for i in 0..classes.len() {
        if classes[i].schema == listed.schema && classes[i].has_deletes == listed.has_deletes {
            return i;
        }
    }
    classes.len()
}

/// Puts the class of a snapshot among the others where it is none of them.
fn put_class(
    alloc: Global,
    metadata: &Metadata,
    listed: &Listed,
    classes: &mut Vec<Class>,
) -> Result<(), RunFault>
    requires { All (IsClass (described metadata.now.json metadata.now.table)) classes.now.items }
    ensures class { OnOk result (All (IsClass (described metadata.now.json metadata.now.table)) classes.new.items) }
    ensures causes { IfErr result IsOfMetadata }
{
    if place_of(classes, listed) < classes.len() {
        return Ok(());
    }
    classes.push(class_of(alloc, metadata, listed)?)?;
    Ok(())
}

/// The classes of these snapshots.
pub fn classes_of(
    alloc: Global,
    metadata: &Metadata,
    listed: &[Listed],
) -> Result<Vec<Class>, RunFault>
    ensures class { IfOk result (λ classes. All (IsClass (described metadata.now.json metadata.now.table))
        classes.items) }
    ensures causes { IfErr result IsOfMetadata }
{
    let mut classes = Vec::new(alloc);
    'listed: for each in listed {
        put_class(alloc, metadata, each, &mut classes)?;
    }
    Ok(classes)
}

/// Puts the rows of a snapshot last.
fn push_wants(wants: &mut Vec<Want>, class: usize, rows: &[Shared<Row>]) -> Result<(), AllocError> {
    'rows: for row in rows {
        wants.push(Want {
            class,
            row: row.share()?,
        })?;
    }
    Ok(())
}

/// The rows of all these snapshots.
fn all_wants(alloc: Global, classes: &[Class], listed: &[Listed]) -> Result<Vec<Want>, AllocError> {
    let mut wants = Vec::new(alloc);
    'listed: for each in listed {
        push_wants(
            &mut wants,
            place_of(classes, each),
            each.rows.get().as_slice(),
        )?;
    }
    Ok(wants)
}

/// The same in the order of their paths, so that each manifest is read once for all of them.
pub fn wants_of(
    alloc: Global,
    classes: &[Class],
    listed: &[Listed],
) -> Result<Vec<Want>, AllocError> {
    let mut wants = all_wants(alloc, classes, listed)?;
    wants.sort_by(|a, b| { a.row.get().path.as_bytes().cmp(b.row.get().path.as_bytes()) })?;
    Ok(wants)
}
