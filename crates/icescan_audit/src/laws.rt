//! What an audit tells of the summaries of a manifest list's rows.

ghost use Rattle.std.specs.Prelude.{◌≡◌, ◌↔◌, ℕ, List, [], Ok};
ghost use Rattle.std.specs.List.{Contains};
ghost use Rattle.icescan_audit.specs.Audits.{audit_of};
ghost use Rattle.icescan_audit_findings.specs.Telling.{faults, uncovered};
ghost use Rattle.icescan_audit.specs.Premises.{HasHonestFiles, HasTrueSummaries};
ghost use Rattle.icescan_audit.specs.Strays.{DanglesUnder, NamesNoneUnder, TellsOfStrays};
ghost use Rattle.icescan_audit.specs.Subjects.{subject_of};
ghost use Rattle.icescan_audit.specs.Totals.{IsFalseUnder};
ghost use Rattle.icescan_audit_findings.specs.declared.totals.FalseTotal.{FalseTotal};
ghost use Rattle.icescan_audit.specs.declared.audit.Audit.{Audit};
ghost use Rattle.icescan_audit.specs.declared.subject.Subject.{Subject};
ghost use Rattle.ice_manifest_reading.specs.declared.row.Row.{Row};
ghost use Rattle.ice_meta.specs.declared.metadata.Target.{Target};
ghost use Rattle.ice_state.specs.Contents.{World};
ghost use Rattle.icescan_text.specs.Reads.{rows_at};
ghost use Rattle.ice_value.specs.declared.file_content.FileContent.TheVariants.{EqualityDeletes, PositionDeletes};

use ice_manifest_reading::contents_fit;
use icescan_audit_findings::Flaw;

/// The audit of a snapshot has no finding that a summary does not cover an entry just where the summaries of all its
/// rows tell the truth.
pub fn audits_tell_of_summaries()
    ensures { (world : World) (metadata : List ℕ) (target : Target) (audit : Audit) →
        audit_of world metadata target ≡ Ok audit →
        (uncovered audit.findings ≡ []) ↔ HasTrueSummaries world metadata target }
{
    contents_fit();
}

/// Where the audit of a snapshot has no fault, its live files are honest as far as metadata can tell: of each column of
/// the schema there are values of which all is true that the file's manifest says of the column, and where the column is
/// that of an identity field, they are the field's value.
pub fn audits_tell_of_files()
    ensures { (world : World) (metadata : List ℕ) (target : Target) (audit : Audit) →
        audit_of world metadata target ≡ Ok audit → faults audit.findings ≡ [] →
        HasHonestFiles world metadata target }
{}

/// The audit of a snapshot tells a total of the snapshot's summary as false just where the summary says it so, and the
/// live files of the snapshot come to this other number.
pub fn audits_tell_of_totals()
    ensures { (world : World) (metadata : List ℕ) (target : Target) (audit : Audit) (subject : Subject)
        (rows : List Row) (x : FalseTotal) → audit_of world metadata target ≡ Ok audit →
        subject_of metadata target ≡ Ok subject → rows_at world subject.list ≡ Ok rows →
        Contains audit.false_totals x
        ↔ IsFalseUnder world subject.basis.specs rows subject.said x }
{}

/// The audit of a snapshot has a finding that a delete file dangles just where a live delete file of that path, under
/// that manifest's row, applies to no live data file of the snapshot; and one that it names a file that is not live just
/// where such a delete file names one, and no live data file of the snapshot has that path.
pub fn audits_tell_of_deletes()
    ensures positions { TellsOfStrays Flaw.DanglingPositions (DanglesUnder PositionDeletes) }
    ensures equalities { TellsOfStrays Flaw.DanglingEqualities (DanglesUnder EqualityDeletes) }
    ensures named { TellsOfStrays Flaw.NamedNotLive NamesNoneUnder }
{
    contents_fit();
}
