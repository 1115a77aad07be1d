//! What the limits of partition values, and findings, come to.

ghost use Rattle.std.specs.Prelude.{◌≡◌, ◌↔◌, ℕ, ℤ, List, [], Some, Ok, length, true};
ghost use Rattle.std.specs.List.{AllByRecursion, Contains, IsDistinct};
ghost use Rattle.icescan_audit_findings.specs.ColumnFlaws.{bounds_cross, has_bounds_of_nulls, has_excess_nulls};
ghost use Rattle.icescan_audit_findings.specs.ColumnFlaws.{has_negative_counts};
ghost use Rattle.icescan_audit_findings.specs.Coverage.{allows, limits_of, outside, row_limits};
ghost use Rattle.icescan_audit_findings.specs.Dangling.{delete_findings};
ghost use Rattle.icescan_audit_findings.specs.Examining.{finding_at};
ghost use Rattle.icescan_audit_findings.specs.Findings.{entry_findings, manifest_finding, manifest_findings};
ghost use Rattle.icescan_audit_findings.specs.Repeats.{has_path_of, repeats};
ghost use Rattle.icescan_audit_findings.specs.EntryFlaws.{has_flaw};
ghost use Rattle.icescan_audit_findings.specs.Honesty.{IsHonestByMetadata};
ghost use Rattle.icescan_audit_findings.specs.RowFlaws.{has_row_flaw, row_findings};
ghost use Rattle.icescan_audit_findings.specs.Telling.{Dangles, HasEntry, IsMiscounted, IsSaid, NamesNone, faults};
ghost use Rattle.icescan_audit_findings.specs.Telling.{uncovered};
ghost use Rattle.icescan_audit_findings.specs.Totals.{IsFalse, false_totals};
ghost use Rattle.icescan_audit_findings.specs.declared.basis.Basis.{Basis};
ghost use Rattle.icescan_audit_findings.specs.declared.finding.Count.{Count};
ghost use Rattle.icescan_audit_findings.specs.declared.repeats.LiveFile.{LiveFile};
ghost use Rattle.icescan_audit_findings.specs.declared.totals.FalseTotal.{FalseTotal};
ghost use Rattle.icescan_audit_findings.specs.declared.totals.SaidTotal.{SaidTotal};
ghost use Rattle.ice_manifest_reading.specs.Manifests.{live_of};
ghost use Rattle.ice_manifest_reading.specs.declared.entry.Live.{Live};
ghost use Rattle.ice_manifest_reading.specs.declared.row.Row.{Row};
ghost use Rattle.ice_manifest_reading.specs.declared.tally.Tallies.{Tallies};
ghost use Rattle.ice_meta.specs.declared.spec.PartitionField.{PartitionField};
ghost use Rattle.ice_meta.specs.declared.spec.Spec.{Spec};
ghost use Rattle.ice_project.specs.Fields.{field_of, fields_of};
ghost use Rattle.ice_project.specs.Summaries.{IsCovered, IsSummaryOf};
ghost use Rattle.ice_state.specs.Covering.{RowCovers};
ghost use Rattle.ice_state.specs.Specs.{spec_of};
ghost use Rattle.ice_value.specs.declared.cell.Cell.{Cell};
ghost use Rattle.ice_value.specs.declared.file_bounds.Summary.{Summary};
ghost use Rattle.ice_value.specs.declared.file_content.FileContent.TheVariants.{EqualityDeletes, PositionDeletes};

use crate::finding::{ColumnFlaw, EntryFlaw, Flaw, RowFlaw};
use ice_manifest_reading::contents_fit;

/// A field's limits allow just the values that its summary covers. So of an entry, which has a value for each field of
/// its spec, no field is outside of the limits of its row just where the row's summaries cover its values.
pub fn limits_tell_coverage()
    ensures value { (field : PartitionField) (summary : Summary) (value : Cell) →
        allows (limits_of field summary) value ≡ true ↔ IsSummaryOf (field_of field) summary value }
    ensures entry { (spec : Spec) (summaries : List Summary) (tuple : List Cell) → length tuple ≡ length spec.fields →
        outside (row_limits spec (Some summaries)) tuple ≡ [] ↔ IsCovered (fields_of spec) summaries tuple }
{}

/// No finding on a live entry, which has a value for each field of its spec, says that a summary does not cover it just
/// where the row's summaries do. And no finding on a row's manifest says so of any just where the row's summaries cover
/// each of them.
pub fn findings_tell_coverage()
    ensures entry { (basis : Basis) (row : Row) (spec : Spec) (l : Live) →
        spec_of basis.specs row.spec_id ≡ Some spec → length l.entry.file.tuple ≡ length spec.fields →
        uncovered (entry_findings basis row (row_limits spec row.partitions) l) ≡ []
        ↔ RowCovers basis.specs row l.entry.file.tuple }
    ensures manifest { (basis : Basis) (row : Row) (spec : Spec) (bytes : List ℕ) (tallies : Tallies) (lives : List Live) →
        spec_of basis.specs row.spec_id ≡ Some spec → live_of row spec bytes ≡ Ok lives →
        uncovered (manifest_findings basis row spec tallies lives) ≡ []
        ↔ AllByRecursion (λ (l : Live). RowCovers basis.specs row l.entry.file.tuple) lives }
{
    contents_fit();
}

/// There is no finding that a path is live twice just where no live file has the path of another, in any spelling.
pub fn repeats_tell_paths_apart()
    ensures { (files : List LiveFile) → repeats files ≡ [] ↔ IsDistinct has_path_of files }
{}

/// There is a finding that the bounds of a column cross just where a live entry of this file has, of a column of the
/// schema, a lower bound above its upper one; one of excess nulls just where it has more nulls than values; one of
/// negative counts just where one of these is below 0; and one of bounds of nulls just where all values are null by their
/// counts and a bound is there.
pub fn findings_tell_columns()
    ensures bounds { (basis : Basis) (row : Row) (spec : Spec) (tallies : Tallies) (lives : List Live) (path : List ℕ) (column : ℤ) →
        Contains (manifest_findings basis row spec tallies lives) (finding_at row path (Flaw.BoundsCross column))
        ↔ IsSaid bounds_cross basis.typed lives path column }
    ensures nulls { (basis : Basis) (row : Row) (spec : Spec) (tallies : Tallies) (lives : List Live) (path : List ℕ) (column : ℤ) →
        Contains (manifest_findings basis row spec tallies lives) (finding_at row path (Flaw.ExcessNulls column))
        ↔ IsSaid (λ file c. has_excess_nulls file c.id) basis.typed lives path column }
    ensures negative { (basis : Basis) (row : Row) (spec : Spec) (tallies : Tallies) (lives : List Live) (path : List ℕ) (column : ℤ) →
        Contains (manifest_findings basis row spec tallies lives)
        (finding_at row path (Flaw.OfColumn ColumnFlaw.NegativeCounts column))
        ↔ IsSaid (λ file c. has_negative_counts file c.id) basis.typed lives path column }
    ensures of_nulls { (basis : Basis) (row : Row) (spec : Spec) (tallies : Tallies) (lives : List Live) (path : List ℕ) (column : ℤ) →
        Contains (manifest_findings basis row spec tallies lives)
        (finding_at row path (Flaw.OfColumn ColumnFlaw.BoundsOfNulls column))
        ↔ IsSaid (λ file c. has_bounds_of_nulls file c.id) basis.typed lives path column }
{}

/// There is a finding on what a live entry says of itself just where one of a file of that path has the flaw; and one on a
/// row just where the row, whose manifest is this file, has it.
pub fn findings_tell_entries()
    ensures entries { (basis : Basis) (row : Row) (spec : Spec) (tallies : Tallies) (lives : List Live) (path : List ℕ)
        (flaw : EntryFlaw) →
        Contains (manifest_findings basis row spec tallies lives) (finding_at row path (Flaw.OfEntry flaw))
        ↔ HasEntry (λ x. has_flaw flaw row x) lives path }
    ensures rows { (basis : Basis) (row : Row) (file : List ℕ) (flaw : RowFlaw) →
        Contains (row_findings basis row file) (manifest_finding row (Flaw.OfRow flaw))
        ↔ (has_row_flaw flaw basis row file ≡ true) }
{}

/// Where none of the findings on a manifest is a fault, its live files are honest as far as metadata can tell: of each
/// column of the schema there are values of which all is true that the manifest says of the column, and where the column
/// is that of an identity field, they are the field's value.
pub fn faultless_files_are_honest()
    ensures { (basis : Basis) (row : Row) (spec : Spec) (tallies : Tallies) (lives : List Live) →
        faults (manifest_findings basis row spec tallies lives) ≡ [] →
        AllByRecursion (λ (l : Live). IsHonestByMetadata basis row l) lives }
{}

/// There is a finding on a count of the manifest list just where the list has it and there are not as many.
pub fn findings_tell_counts()
    ensures { (basis : Basis) (row : Row) (spec : Spec) (tallies : Tallies) (lives : List Live) (count : Count) →
        Contains (manifest_findings basis row spec tallies lives) (manifest_finding row (Flaw.Miscounted count))
        ↔ IsMiscounted row.counts tallies count }
{}

/// A total of a snapshot's summary is told as false just where the summary says it so, and the live files come to this
/// other number.
pub fn findings_tell_totals()
    ensures { (files : List LiveFile) (said : List SaidTotal) (x : FalseTotal) →
        Contains (false_totals files said) x ↔ IsFalse files said x }
{}

/// There is a finding that a delete file dangles just where a live delete file of that path, in that manifest, applies
/// to no live data file; and one that it names a file that is not live just where no live data file has the path that
/// such a delete file names. Live files are those whose keys are kept, and that is all of them or, where no manifest of
/// the snapshot has deletes, none.
pub fn findings_tell_applying()
    ensures positions { (files : List LiveFile) (manifest path : List ℕ) →
        Contains (delete_findings files)
        (record { manifest = manifest; file = Some path; flaw = Flaw.DanglingPositions })
        ↔ Dangles PositionDeletes files manifest path }
    ensures equalities { (files : List LiveFile) (manifest path : List ℕ) →
        Contains (delete_findings files)
        (record { manifest = manifest; file = Some path; flaw = Flaw.DanglingEqualities })
        ↔ Dangles EqualityDeletes files manifest path }
    ensures named { (files : List LiveFile) (manifest path : List ℕ) →
        Contains (delete_findings files) (record { manifest = manifest; file = Some path; flaw = Flaw.NamedNotLive })
        ↔ NamesNone files manifest path }
{}
