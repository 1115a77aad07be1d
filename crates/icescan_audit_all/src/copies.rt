//! Copies of what was read.

ghost use Rattle.std.specs.Prelude.{◌≡◌, ◌++◌, IfOk, OnOk};

use crate::kept::Kept;
use contract_words::Items;
use icescan_audit::{Finding, Flaw, LiveFile};
use icescan_audit_findings::{FileKey, KeptKey};
use shared_value::Shared;
use std::alloc::{AllocError, Global};

/// The same flaw. It takes no memory.
fn same_flaw(flaw: &Flaw) -> Result<Flaw, AllocError>
    ensures { IfOk result (λ same. same ≡ flaw.now) }
{
    match flaw {
        Flaw::Uncovered(field) => Ok(Flaw::Uncovered(field.share()?)),
        Flaw::OfField(flaw, field) => Ok(Flaw::OfField(*flaw, field.share()?)),
        Flaw::Miscounted(count) => Ok(Flaw::Miscounted(*count)),
        Flaw::BelowLeast => Ok(Flaw::BelowLeast),
        Flaw::AboveLast => Ok(Flaw::AboveLast),
        Flaw::LiveTwice => Ok(Flaw::LiveTwice),
        Flaw::NoColumn(id) => Ok(Flaw::NoColumn(*id)),
        Flaw::BoundsCross(id) => Ok(Flaw::BoundsCross(*id)),
        Flaw::ExcessNulls(id) => Ok(Flaw::ExcessNulls(*id)),
        Flaw::NamedNotLive => Ok(Flaw::NamedNotLive),
        Flaw::DanglingPositions => Ok(Flaw::DanglingPositions),
        Flaw::DanglingEqualities => Ok(Flaw::DanglingEqualities),
        Flaw::OfRow(flaw) => Ok(Flaw::OfRow(*flaw)),
        Flaw::OfEntry(flaw) => Ok(Flaw::OfEntry(*flaw)),
        Flaw::OfColumn(flaw, id) => Ok(Flaw::OfColumn(*flaw, *id)),
    }
}

fn same_file(file: &Option<Shared<Items<u8>>>) -> Result<Option<Shared<Items<u8>>>, AllocError>
    ensures { IfOk result (λ same. same ≡ file.now) }
{
    match file {
        Some(path) => Ok(Some(path.share()?)),
        None => Ok(None),
    }
}

/// The same finding. It takes no memory.
fn same_finding(finding: &Finding) -> Result<Finding, AllocError>
    ensures { IfOk result (λ same. same ≡ finding.now) }
{
    Ok(Finding {
        manifest: finding.manifest.share()?,
        file: same_file(&finding.file)?,
        flaw: same_flaw(&finding.flaw)?,
    })
}

fn copied(alloc: Global, text: &Option<Items<u8>>) -> Result<Option<Items<u8>>, AllocError>
    ensures { IfOk result (λ copied. copied ≡ text.now) }
{
    match text {
        Some(text) => Ok(Some(text.copy(alloc)?)),
        None => Ok(None),
    }
}

fn copied_key(alloc: Global, key: &FileKey) -> Result<FileKey, AllocError>
    ensures { IfOk result (λ copied. copied ≡ key.now) }
{
    Ok(FileKey {
        content: key.content,
        spec_id: key.spec_id,
        unpartitioned: key.unpartitioned,
        tuple: key.tuple.copy(alloc)?,
        sequence_number: key.sequence_number,
        referenced: copied(alloc, &key.referenced)?,
    })
}

fn copied_kept(alloc: Global, key: &KeptKey) -> Result<KeptKey, AllocError>
    ensures { IfOk result (λ copied. copied ≡ key.now) }
{
    match key.as_ref() {
        Some(key) => KeptKey::some(alloc, copied_key(alloc, key)?),
        None => Ok(KeptKey::none()),
    }
}

/// The same live file.
fn copied_file(alloc: Global, file: &LiveFile) -> Result<LiveFile, AllocError>
    ensures { IfOk result (λ copied. copied ≡ file.now) }
{
    Ok(LiveFile {
        path: file.path.copy(alloc)?,
        spelling: copied(alloc, &file.spelling)?,
        manifest: file.manifest.share()?,
        content: file.content,
        record_count: file.record_count,
        file_size: file.file_size,
        key: copied_kept(alloc, &file.key)?,
    })
}

/// Puts the same findings last.
fn push_findings(findings: &mut Items<Finding>, more: &[Finding]) -> Result<(), AllocError>
    ensures { OnOk result (findings.new ≡ findings.old ++ more.now) }
{
    'findings: for finding in more {
        findings.push(same_finding(finding)?)?;
    }
    Ok(())
}

/// Puts the same files last.
fn push_files(alloc: Global, live: &mut Vec<LiveFile>, more: &[LiveFile]) -> Result<(), AllocError>
    ensures { OnOk result (live.new.items ≡ live.old.items ++ more.now) }
{
    'files: for file in more {
        live.push(copied_file(alloc, file)?)?;
    }
    Ok(())
}

/// Puts last what was found of a manifest, and its live files.
pub fn push_kept(
    alloc: Global,
    findings: &mut Items<Finding>,
    live: &mut Vec<LiveFile>,
    kept: &Kept,
) -> Result<(), AllocError>
    ensures findings { OnOk result (findings.new ≡ findings.old ++ kept.now.findings) }
    ensures live { OnOk result (live.new.items ≡ live.old.items ++ kept.now.live) }
{
    push_findings(findings, kept.findings.as_slice())?;
    push_files(alloc, live, kept.live.as_slice())
}
