//! Reads manifests, each once.

ghost use Rattle.std.specs.Prelude.{Some, IfErr, IfOk, OnOk, option_map};
ghost use Rattle.std.specs.List.{All};
ghost use Rattle.ice_meta.specs.Targets.{Described};
ghost use Rattle.icescan_audit.specs.AnyFiles.{MayStop};
ghost use Rattle.icescan_audit_all.specs.Snapshots.{IsClass, IsKept, IsOfBytes, IsPutFor, IsReadFor};
ghost use Rattle.icescan_reachable.specs.Given.{IsHeld};

use crate::kept::{Kept, found};
use crate::wanted::{Class, Want};
use contract_words::Items;
use ice_desk::Files;
use ice_manifest_reading::Row;
use icescan_audit::{audit_bytes, spec_for};
use icescan_reachable::read_manifest;
use icescan_text::RunFault;
use shared_value::Shared;
use std::alloc::Global;

/// What is read of a row's manifest, which has these bytes, for the snapshots of a class.
fn kept_of(
    alloc: Global,
    class: &Class,
    shared: &Shared<Row>,
    bytes: &[u8],
) -> Result<Kept, RunFault>
    ensures read { IfOk result (IsReadFor class.now shared.now bytes.now) }
    ensures stops { IfErr result IsOfBytes }
{
    let basis = &class.basis;
    let row = shared.get();
    let spec = spec_for(basis.specs.as_slice(), row)?;
    let mut findings = Items::new(alloc);
    let mut live = Vec::new(alloc);
    let entries = audit_bytes(alloc, basis, row, spec, bytes, &mut findings, &mut live)?;
    let same = shared.share()?;
    Ok(Kept {
        row: same,
        schema: class.schema,
        has_deletes: class.has_deletes,
        entries,
        findings,
        live: Items::from_vec(live),
    })
}

/// Puts last what is read of a row's manifest, which has these bytes, unless it was put before.
fn put_reading(
    alloc: Global,
    class: &Class,
    want: &Want,
    bytes: &[u8],
    kept: &mut Vec<Kept>,
) -> Result<(), RunFault>
    ensures read { OnOk result (IsPutFor class.now want.now.row bytes.now kept.old.items kept.new.items) }
    ensures stops { IfErr result IsOfBytes }
{
    if found(kept, class.schema, class.has_deletes, want.row.get()).is_some() {
        return Ok(());
    }
    kept.push(kept_of(alloc, class, &want.row, bytes)?)?;
    Ok(())
}

/// Reads the manifest of a row into the room of the one before, where it is another, and puts last what is read of it,
/// unless it was put before.
fn fill_one<F: Files>(
    alloc: Global,
    files: &F,
    classes: &[Class],
    before: Option<&Row>,
    want: &Want,
    bytes: &mut Vec<u8>,
    kept: &mut Vec<Kept>,
) -> Result<(), RunFault>
    requires held { IsHeld (F.gives files.now) (option_map (λ r. r.now) before) bytes.now.items }
    ensures held { OnOk result (F.gives files.now want.now.row.path (Some bytes.new.items)) }
    ensures kept { (d : Described) → All (IsClass d) classes.now → All (IsKept (F.gives files.now) d) kept.old.items →
        OnOk result (All (IsKept (F.gives files.now) d) kept.new.items) }
    ensures stops { IfErr result (MayStop (F.world files.now) (F.may_fail files.now) ⊥) }
{
    read_manifest(alloc, files, before, want.row.get(), bytes)?;
    match classes.get(want.class) {
        Some(class) => put_reading(alloc, class, want, bytes.as_slice(), kept),
        None => Ok(()),
    }
}

/// What is read of the manifests of these rows, which stand in the order of their paths. Each manifest is read into the
/// room of the one before, and once where rows that follow each other have one path.
pub fn fill<F: Files>(
    alloc: Global,
    files: &F,
    classes: &[Class],
    wants: &[Want],
) -> Result<Vec<Kept>, RunFault>
    ensures kept { (d : Described) → All (IsClass d) classes.now →
        IfOk result (λ kept. All (IsKept (F.gives files.now) d) kept.items) }
    ensures stops { IfErr result (MayStop (F.world files.now) (F.may_fail files.now) ⊥) }
{
    let mut bytes = Vec::new(alloc);
    let mut kept = Vec::new(alloc);
    let mut before = None;
    'wants: for want in wants {
        fill_one(alloc, files, classes, before, want, &mut bytes, &mut kept)?;
        before = Some(want.row.get());
    }
    Ok(kept)
}
