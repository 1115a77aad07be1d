//! The live entries of a manifest as an audit looks at them.

ghost use Rattle.std.specs.Prelude.{◌≡◌, IfOk};
ghost use Rattle.contract_words.specs.Outcome.{Gives};
ghost use Rattle.icescan_audit_findings.specs.Coverage.{row_limits};
ghost use Rattle.icescan_audit_findings.specs.Examining.{examined};
ghost use Rattle.icescan_audit_findings.specs.FieldFlaws.{sources_of};
ghost use Rattle.ice_manifest_reading.specs.Manifests.{live_of};
ghost use Rattle.ice_manifest_reading.specs.Tallying.{tallies_of};
ghost use Rattle.ice_manifest_reading.specs.Telling.{told_of};

use crate::basis::Basis;
use crate::columns::{SchemaColumns, push_columns_flaws};
use crate::fields::{SourceField, sources_of};
use crate::file_key::{KeptKey, key_of};
use crate::finding::Flaw;
use crate::flaws::{flaws_of, push_further_flaws};
use crate::limits::{FieldLimits, row_limits};
use contract_words::Items;
use ice_manifest_reading::{Live, ManifestFault, Row, Tallied, Tell, read_tallied};
use ice_meta::Spec;
use ice_value::FileContent;
use std::alloc::{AllocError, Global};

/// A live entry as an audit looks at it.
#[derive(Debug, Drop)]
pub struct Examined {
    /// The path of its file.
    pub path: Items<u8>,
    /// What it holds.
    pub content: FileContent,
    /// How many rows and bytes it has, as its manifest says.
    pub record_count: i64,
    pub file_size: i64,
    /// What is wrong with it.
    pub flaws: Items<Flaw>,
    /// What delete files go by, where the snapshot has some.
    pub key: KeptKey,
}

/// What live entries are held against.
#[derive(Drop)]
struct Against<'a> {
    basis: &'a Basis,
    row: &'a Row,
    limits: &'a [FieldLimits],
    columns: SchemaColumns<'a>,
    fields: &'a [SourceField],
    ghost all: { columns.all.now ≡ basis.now.typed },
    ghost sources: { fields.now ≡ sources_of basis.now row.now },
}

impl<'a> Tell for Against<'a> {
    type Told = Examined;

    ghost told = { λ against live. examined against.basis.now against.row.now against.limits.now live };

    fn tell(&self, alloc: Global, live: &Live<'_, '_>) -> Result<Examined, AllocError> {
        let entry = live.entry.lent();
        let mut flaws = flaws_of(alloc, self.basis, self.row, self.limits, &entry)?;
        push_columns_flaws(alloc, &mut flaws, &self.columns, &live.bounds)?;
        push_further_flaws(
            alloc,
            &mut flaws,
            self.row,
            self.limits,
            self.fields,
            &entry,
            &live.bounds,
        )?;
        Ok(Examined {
            path: Items::from_vec(entry.path.to_vec(alloc)?),
            content: entry.content,
            record_count: entry.record_count,
            file_size: entry.file_size,
            flaws: Items::from_vec(flaws),
            key: key_of(alloc, self.basis, &entry)?,
        })
    }
}

/// What live entries are held against.
fn held_against<'x>(
    basis: &'x Basis,
    row: &'x Row,
    limits: &'x [FieldLimits],
    fields: &'x [SourceField],
) -> Against<'x>
    requires sources { fields.now ≡ sources_of basis.now row.now }
    ensures basis { result.basis.now ≡ basis.now }
    ensures row { result.row.now ≡ row.now }
    ensures limits { result.limits.now ≡ limits.now }
{
    let columns = basis.typed.lent();
    Against {
        basis,
        row,
        limits,
        columns,
        fields,
    }
}

/// The live entries of a row's manifest, in the order of their positions, and how many entries of each status it has. The
/// fault is that of reading the manifest.
pub fn examine(
    alloc: Global,
    basis: &Basis,
    row: &Row,
    spec: &Spec,
    bytes: &[u8],
) -> Result<Tallied<Examined>, ManifestFault>
    ensures told { Gives ManifestFault.Memory (λ found. found.told.items) result
        (told_of (examined basis.now row.now (row_limits spec.now row.now.partitions))
        (live_of row.now spec.now bytes.now)) }
    ensures tallies { IfOk result (λ found. found.tallies ≡ tallies_of bytes.now) }
{
    let limits = row_limits(alloc, spec, row)?;
    let fields = sources_of(alloc, basis, row)?;
    let allowed = limits.as_slice();
    let against = held_against(basis, row, allowed, fields.as_slice());
    read_tallied(alloc, row, spec, &against, bytes)
}
