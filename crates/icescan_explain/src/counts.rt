//! How much a filter leaves out.

ghost use Rattle.std.specs.Prelude.{◌≡◌, ◌+◌, ◌<◌, ◌^◌, pos, ◌+ℤ◌, ◌-ℤ◌, ◌≤ℤ◌};
ghost use Rattle.icescan_explain.specs.Counting.{IsFarFromLimits, bytes_in, counts_of, counts_with, has_cause};
ghost use Rattle.icescan_explain.specs.Counting.{is_counted, same_subject};

use crate::verdict::{Fate, Subject, Verdict};

/// Why something is left out, or that it is not.
#[derive(Clone, Copy, Debug, PartialEq, Eq)]
pub enum Cause {
    /// It is kept.
    Kept,
    /// It is left out by the filter's projection.
    Partition,
    /// It is left out by counts and bounds.
    Bounds,
}

/// How many manifests, data files or delete files are kept, how many are left out by what, and how many bytes those
/// have that are left out. The files of a manifest that is left out are not counted: they were not read.
#[derive(Clone, Copy, Debug)]
pub struct Counts {
    /// How many are kept.
    pub kept: usize,
    /// How many are left out by the filter's projection.
    pub by_partition: usize,
    /// How many are left out by their counts and bounds.
    pub by_bounds: usize,
    /// How many bytes those have that are left out, as the manifest list says of manifests, and manifests of files; any
    /// number.
    pub bytes: i128,
}

impl Counts {
    /// Nothing is counted yet.
    fn none() -> Counts
        ensures { result ≡ record { kept = 0; by_partition = 0; by_bounds = 0; bytes = pos 0 } }
    {
        Counts {
            kept: 0,
            by_partition: 0,
            by_bounds: 0,
            bytes: 0,
        }
    }

    /// These and what a verdict is about, where it is of this subject.
    fn with_verdict(self, verdict: &Verdict, subject: Subject) -> Counts
        requires numbers { (self.kept + 1 < 2 ^ 64) × (self.by_partition + 1 < 2 ^ 64) × (self.by_bounds + 1 < 2 ^ 64) }
        requires bytes { IsFarFromLimits self.bytes }
        ensures same { result ≡ counts_with subject verdict.now self }
        ensures least { (self.bytes -ℤ pos (2 ^ 63)) ≤ℤ result.bytes }
        ensures most { result.bytes ≤ℤ (self.bytes +ℤ pos (2 ^ 63)) }
    {
        if !is_about(verdict, subject) {
            return self;
        }
        Counts {
            kept: self.kept + is_counted(verdict, subject, Cause::Kept) as usize,
            by_partition: self.by_partition
                + is_counted(verdict, subject, Cause::Partition) as usize,
            by_bounds: self.by_bounds + is_counted(verdict, subject, Cause::Bounds) as usize,
            bytes: self.bytes + bytes_in(verdict, subject) as i128,
        }
    }

    /// How many there are in all.
    pub fn all(&self) -> u128
        ensures { result ≡ self.now.kept + (self.now.by_partition + self.now.by_bounds) }
    {
        self.kept as u128 + (self.by_partition as u128 + self.by_bounds as u128)
    }
}

fn has_cause(fate: &Fate, cause: Cause) -> bool
    ensures { result ≡ has_cause cause fate.now }
{
    match fate {
        Fate::Kept => cause == Cause::Kept,
        Fate::ByPartition(_) => cause == Cause::Partition,
        Fate::ByBounds(_) => cause == Cause::Bounds,
    }
}

fn is_about(verdict: &Verdict, subject: Subject) -> bool
    ensures { result ≡ same_subject verdict.now.subject subject }
{
    verdict.subject == subject
}

fn is_counted(verdict: &Verdict, subject: Subject, cause: Cause) -> bool
    ensures { result ≡ is_counted subject cause verdict.now }
{
    verdict.subject == subject && has_cause(&verdict.fate, cause)
}

/// The bytes of what a verdict is about, where it is of this subject and is left out.
fn bytes_in(verdict: &Verdict, subject: Subject) -> i64
    ensures { result ≡ bytes_in subject verdict.now }
{
    if verdict.subject == subject && !has_cause(&verdict.fate, Cause::Kept) {
        verdict.bytes
    } else {
        0
    }
}

/// What is counted of each subject.
#[derive(Clone, Copy, Debug)]
pub struct Totals {
    /// What is counted of manifests.
    pub manifests: Counts,
    /// What is counted of data files.
    pub files: Counts,
    /// What is counted of delete files.
    pub deletes: Counts,
}

/// What is counted of each subject, in one pass over the verdicts.
pub fn totals_of(verdicts: &[Verdict]) -> Totals
    ensures manifests { result.manifests ≡ counts_of Subject.Manifest verdicts.now }
    ensures files { result.files ≡ counts_of Subject.Data verdicts.now }
    ensures deletes { result.deletes ≡ counts_of Subject.Deletes verdicts.now }
{
    let mut manifests = Counts::none();
    let mut files = Counts::none();
    let mut deletes = Counts::none();
    'verdicts: for verdict in verdicts {
        manifests = manifests.with_verdict(verdict, Subject::Manifest);
        files = files.with_verdict(verdict, Subject::Data);
        deletes = deletes.with_verdict(verdict, Subject::Deletes);
    }
    Totals {
        manifests,
        files,
        deletes,
    }
}
