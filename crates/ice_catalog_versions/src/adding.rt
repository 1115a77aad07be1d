//! What a commit adds: manifests, a list, and the metadata that names them.

ghost use Rattle.std.specs.Prelude.{◌≡◌, ◌<◌, ◌++◌, ◌∷◌, [], true, is_some, Some, IfOk, OnOk, map};
ghost use Rattle.std.specs.List.{AllByRecursion};
ghost use Rattle.contract_words.specs.Sorting.{sorted};
ghost use Rattle.ice_meta.specs.declared.spec.Spec.{Spec};
ghost use Rattle.ice_meta.specs.Targets.{described};
ghost use Rattle.ice_manifest.specs.Adding.{lent, IsHeading, AreNewFiles};
ghost use Rattle.ice_manifest_reading.specs.Lists.{path_before};
ghost use Rattle.ice_catalog_versions.specs.Adding.{CanWrite, schema_text, types_of, heading_of, manifest_of};
ghost use Rattle.ice_catalog_versions.specs.Adding.{manifests_from};
ghost use Rattle.ice_catalog_versions.specs.Adding.{file_of, row_of, next_rows, next_sequence, files_over};
ghost use Rattle.ice_catalog_versions.specs.Bases.{table_specs, spec_in};
ghost use Rattle.ice_catalog_versions.specs.Live.{AreReadBack, IsReadBack};
ghost use Rattle.ice_catalog_versions.specs.Partitionings.{specs_of};
ghost use Rattle.ice_catalog_versions.specs.Seen.{seen, all_seen};
ghost use Rattle.ice_catalog_versions.specs.Tuples.{written_type};

use crate::groups::Group;
use crate::partitioning::Partitioning;
use crate::paths::{list_path, manifest_path};
use crate::tuples::{Allowed, partitioning_of};
use contract_words::{Items, Text};
use ice_catalog_changes::Ids;
use ice_manifest::{Heading, NewFile, write_list, write_manifest};
use ice_manifest_reading::{ManifestContent, Row};
use ice_meta::{Metadata, Spec, Table, Target};
use ice_value::{ColumnType, SequenceNumber};
use std::alloc::{AllocError, Global};

/// The types by which the values of each field are written.
fn types_of(alloc: Global, allowed: &[Allowed]) -> Result<Items<ColumnType>, AllocError>
    ensures { IfOk result (λ types. types ≡ map written_type allowed.now) }
{
    let mut types = Items::with_capacity(alloc, allowed.len())?;
    'allowed: for one in allowed {
        types.push(one.written_type())?;
    }
    Ok(types)
}

/// The types by which the values of each field of a spec are written. The spec is there.
fn group_types(
    alloc: Global,
    partitionings: &[Partitioning],
    id: i32,
) -> Result<Items<ColumnType>, AllocError>
    requires { is_some (spec_in (specs_of partitionings.now) id) ≡ true }
    ensures { IfOk result (λ types. (spec : Spec) → spec_in (specs_of partitionings.now) id ≡ Some spec
        → types ≡ types_of spec) }
{
    match partitioning_of(partitionings, id) {
        Some(partitioning) => types_of(alloc, partitioning.allowed.as_slice()),
        None => unreachable!(),
    }
}

/// The spec of an id, with the types that its source columns have in the current schema. The spec is there.
#[tactic(auto, using(crate::proofs::Headings::found_bound), unfolding(crate::specs::Bases::table_specs))]
fn group_spec(alloc: Global, metadata: &Metadata, id: i32) -> Result<Spec, AllocError>
    requires { is_some (spec_in (table_specs metadata.now.table) id) ≡ true }
    ensures { IfOk result (λ spec. spec_in (table_specs metadata.now.table) id ≡ Some spec) }
{
    let schema = metadata.schema_for(&Target::Main);
    match metadata.spec(alloc, id, schema)? {
        Some(spec) => Ok(spec),
        None => unreachable!(),
    }
}

/// What the manifests of a commit are made of, beside their files: the table, what its partition values may be, the
/// text of its schema, and the names that the commit takes.
#[derive(Clone, Copy)]
struct Common<'a> {
    metadata: &'a Metadata,
    partitionings: &'a [Partitioning<'a>],
    schema: &'a Text,
    ids: &'a Ids,
}

/// What the entries of a manifest have in common.
fn heading_with(
    alloc: Global,
    common: &Common<'_>,
    content: ManifestContent,
    spec: Spec,
    types: Items<ColumnType>,
) -> Result<Heading, AllocError>
    ensures { IfOk result (λ heading. heading ≡ record {
      schema = common.now.schema.now;
      schema_id = common.now.metadata.now.table.current_schema_id;
      spec = spec;
      types = types;
      content = content;
      snapshot_id = common.now.ids.now.snapshot;
      sync = common.now.ids.now.uuid;
    }) }
{
    Ok(Heading {
        schema: common.schema.copy(alloc)?,
        schema_id: common.metadata.table().current_schema_id,
        spec,
        types,
        content,
        snapshot_id: common.ids.snapshot,
        sync: *common.ids.uuid.as_bytes(),
    })
}

/// The text of the current schema, as manifests have it.
#[tactic(auto, unfolding(crate::specs::Adding::schema_text))]
fn current_schema_text(alloc: Global, metadata: &Metadata) -> Result<Text, AllocError>
    ensures { IfOk result (λ text. text ≡ schema_text (described metadata.now.json metadata.now.table)) }
{
    metadata.current_schema_text(alloc)
}

/// What the entries of a group's manifest have in common. The group's spec is there.
fn heading_of(alloc: Global, common: &Common<'_>, group: &Group) -> Result<Heading, AllocError>
    requires specs { specs_of common.now.partitionings.now ≡ table_specs common.now.metadata.now.table }
    requires known { is_some (spec_in (table_specs common.now.metadata.now.table) group.now.spec_id) ≡ true }
    requires schema { common.now.schema.now ≡
        schema_text (described common.now.metadata.now.json common.now.metadata.now.table) }
    ensures { IfOk result (λ heading. heading ≡
        heading_of (described common.now.metadata.now.json common.now.metadata.now.table) common.now.ids.now
        (seen group.now)) }
{
    let spec = group_spec(alloc, common.metadata, group.spec_id)?;
    let types = group_types(alloc, common.partitionings, group.spec_id)?;
    heading_with(alloc, common, group.content, spec, types)
}

/// The rows of the next list, and the files that are added so far.
#[derive(Drop)]
pub struct Additions {
    pub rows: Vec<Row>,
    pub files: Vec<(Text, Items<u8>)>,
}

/// Adds the manifest of these files.
fn add_manifest(
    alloc: Global,
    additions: &mut Additions,
    heading: &Heading,
    path: Text,
    sequence: SequenceNumber,
    files: &[&NewFile],
) -> Result<(), AllocError>
    requires heading { IsHeading heading.now }
    requires files { AreNewFiles heading.now (lent files.now) }
    ensures rows { OnOk result (additions.new.rows.items ≡ additions.old.rows.items
        ++ row_of sequence (record { heading = heading.now; path = path; files = lent files.now }) ∷ []) }
    ensures files { OnOk result (additions.new.files.items ≡ additions.old.files.items
        ++ file_of (record { heading = heading.now; path = path; files = lent files.now }) ∷ []) }
    ensures read { OnOk result (IsReadBack (record { heading = heading.now; path = path; files = lent files.now })) }
{
    let bytes = write_manifest(alloc, heading, files)?;
    let row = heading.new_row(
        alloc,
        path.copy(alloc)?,
        bytes.len() as i64,
        sequence,
        files,
    )?;
    additions.rows.push(row)?;
    additions.files.push((path, Items::from_vec(bytes)))?;
    Ok(())
}

/// Adds the manifest of a group, which has this number.
fn add_group(
    alloc: Global,
    common: &Common<'_>,
    number: usize,
    group: &Group,
    sequence: SequenceNumber,
    additions: &mut Additions,
) -> Result<(), AllocError>
    requires specs { specs_of common.now.partitionings.now ≡ table_specs common.now.metadata.now.table }
    requires schema { common.now.schema.now ≡
        schema_text (described common.now.metadata.now.json common.now.metadata.now.table) }
    requires writable { CanWrite (described common.now.metadata.now.json common.now.metadata.now.table)
        common.now.ids.now (seen group.now) }
    ensures rows { OnOk result (additions.new.rows.items ≡ additions.old.rows.items ++ row_of sequence
        (manifest_of (described common.now.metadata.now.json common.now.metadata.now.table) common.now.ids.now number
        (seen group.now)) ∷ []) }
    ensures files { OnOk result (additions.new.files.items ≡ additions.old.files.items ++ file_of
        (manifest_of (described common.now.metadata.now.json common.now.metadata.now.table) common.now.ids.now number
        (seen group.now)) ∷ []) }
    ensures read { OnOk result (IsReadBack
        (manifest_of (described common.now.metadata.now.json common.now.metadata.now.table) common.now.ids.now number
        (seen group.now))) }
{
    let heading = heading_of(alloc, common, group)?;
    let path = manifest_path(alloc, common.metadata.table(), common.ids, number)?;
    add_manifest(alloc, additions, &heading, path, sequence, &group.files)
}

/// The number of the next commit, where the last one isn't the greatest.
fn next_sequence(table: &Table) -> SequenceNumber
    requires { table.now.last_sequence_number < 0x7fff_ffff_ffff_ffff }
    ensures { result ≡ next_sequence table.now }
{
    match SequenceNumber::new(table.last_sequence_number.get() + 1) {
        Some(next) => next,
        None => unreachable!(),
    }
}

/// Adds the manifests of groups, in their order.
fn add_manifests(
    alloc: Global,
    metadata: &Metadata,
    partitionings: &[Partitioning],
    ids: &Ids,
    groups: &[Group],
    additions: &mut Additions,
) -> Result<(), AllocError>
    requires specs { specs_of partitionings.now ≡ table_specs metadata.now.table }
    requires last { metadata.now.table.last_sequence_number < 0x7fff_ffff_ffff_ffff }
    requires writable { AllByRecursion (CanWrite (described metadata.now.json metadata.now.table) ids.now)
        (all_seen groups.now) }
    ensures rows { OnOk result (additions.new.rows.items ≡ additions.old.rows.items ++ map
        (row_of (next_sequence metadata.now.table))
        (manifests_from (described metadata.now.json metadata.now.table) ids.now 0 (all_seen groups.now))) }
    ensures files { OnOk result (additions.new.files.items ≡ additions.old.files.items ++ map file_of
        (manifests_from (described metadata.now.json metadata.now.table) ids.now 0 (all_seen groups.now))) }
    ensures read { OnOk result (AllByRecursion IsReadBack
        (manifests_from (described metadata.now.json metadata.now.table) ids.now 0 (all_seen groups.now))) }
{
    let schema = current_schema_text(alloc, metadata)?;
    let sequence = next_sequence(metadata.table());
    let common = Common {
        metadata,
        partitionings,
        schema: &schema,
        ids,
    };
    'groups: for number in 0..groups.len() {
        add_group(alloc, &common, number, &groups[number], sequence, additions)?;
    }
    Ok(())
}

/// Puts rows in the order of their paths.
fn sort_rows(rows: &mut Vec<Row>) -> Result<(), AllocError>
    ensures { OnOk result (rows.new.items ≡ sorted path_before rows.old.items) }
{
    rows.sort_by(|a, b| a.path.as_bytes().cmp(b.path.as_bytes()))?;
    Ok(())
}

/// The files that a commit of these groups adds to a base of these rows: the new manifests in their order, and then the
/// list of all.
pub fn added_files(
    alloc: Global,
    metadata: &Metadata,
    partitionings: &[Partitioning],
    ids: &Ids,
    rows: Vec<Row>,
    groups: &[Group],
) -> Result<Vec<(Text, Items<u8>)>, AllocError>
    requires specs { specs_of partitionings.now ≡ table_specs metadata.now.table }
    requires last { metadata.now.table.last_sequence_number < 0x7fff_ffff_ffff_ffff }
    requires writable { AllByRecursion (CanWrite (described metadata.now.json metadata.now.table) ids.now)
        (all_seen groups.now) }
    ensures files { IfOk result (λ files. files.items
        ≡ files_over rows.items (described metadata.now.json metadata.now.table) ids.now (all_seen groups.now)) }
    ensures read { IfOk result (λ _. AllByRecursion IsReadBack
        (manifests_from (described metadata.now.json metadata.now.table) ids.now 0 (all_seen groups.now))) }
    ensures list { IfOk result (λ _. AreReadBack
        (next_rows rows.items (next_sequence metadata.now.table)
        (manifests_from (described metadata.now.json metadata.now.table) ids.now 0 (all_seen groups.now))) ids.now) }
{
    let mut additions = Additions {
        rows,
        files: Vec::new(alloc),
    };
    add_manifests(alloc, metadata, partitionings, ids, groups, &mut additions)?;
    let Additions {
        mut rows,
        mut files,
    } = additions;
    sort_rows(&mut rows)?;
    let list = write_list(alloc, &rows, *ids.uuid.as_bytes())?;
    let path = list_path(alloc, metadata.table(), ids)?;
    files.push((path, Items::from_vec(list)))?;
    Ok(files)
}
