//! Answers in the form that is asked for.

ghost use Rattle.std.specs.Prelude.{◌≡◌, ◌≢◌, ◌∷◌, [], Some, IfErr, IfOk, IsErrOf, OnOk};
ghost use Rattle.icescan_audit.specs.Audits.{audit_at, audit_reads_at};
ghost use Rattle.icescan_audit.specs.JsonLines.{WroteAuditAs, WroteAuditFrontAs};
ghost use Rattle.icescan_changes.specs.Answers.{changes_reads_at};
ghost use Rattle.icescan_text.specs.Reads.{MayEnd};
ghost use Rattle.icescan_commands.specs.Answers.{GivesAnswer};
ghost use Rattle.icescan_commands.specs.Reading.{WroteAsked, WroteAudited, WroteChanged, WroteListPlan, WrotePlanAt};
ghost use Rattle.icescan_commands.specs.Reading.{WroteRelaxed, WroteShown};
ghost use Rattle.icescan_commands.specs.Runs.{asked_in, changes_in, ended, list_plan_in, plan_in, relaxed_in};
ghost use Rattle.icescan_commands.specs.Runs.{relaxed_reads_at, show_in};
ghost use Rattle.ice_desk.specs.Worlds.{EndsAt};
ghost use Rattle.icescan_requests.specs.ListPlans.{list_reads};
ghost use Rattle.icescan_requests.specs.Plans.{OnRefusal, reads_at};
ghost use Rattle.ice_state.specs.Contents.{World};

use crate::system::System;
use contract_words::{Items, Text};
use ice_desk::Files;
use ice_meta::Target;
use icescan_audit::{audit_file, audit_file_json};
use icescan_changes::changes_file;
use icescan_columns::show_file_json;
use icescan_explain::explain_file;
use icescan_forms::Format;
use icescan_json::{plan_file_json, run_list_plan_json};
use icescan_print::Sink;
use icescan_relaxed::relax_request_at;
use icescan_requests::{plan_file, run_list_plan, show_file};
use icescan_text::{ChangesRequest, Request, RunFault};
use icescan_words::Relaxed;
use std::alloc::Global;
use std::thread::Threads;

/// Writes the plan of the manifest list at a path.
pub fn write_list_plan<F: Files, W: Sink>(
    alloc: Global,
    files: &F,
    list: &str,
    format: Format,
    output: &mut W,
) -> Result<(), RunFault>
    ensures answers { (world : World) → F.world files.now ≡ Some world →
        GivesAnswer (list_plan_in format world list.now)
        (EndsAt world (F.may_fail files.now) (list_reads world list.now))
        (W.may_fail output.old) result (W.taken output.old) (W.taken output.new) }
    ensures refusal { OnRefusal (F.world files.now) (F.may_fail files.now) (W.may_fail output.old) result
        (W.taken output.old) (W.taken output.new) }
    // Over all files: what is written is made of bytes that reads gave.
    ensures given { OnOk result (WroteListPlan (F.gives files.now) list.now format (W.taken output.old)
        (W.taken output.new)) }
{
    match format {
        Format::Text => run_list_plan(alloc, files, list, output),
        Format::Json => run_list_plan_json(alloc, files, list, output),
    }
}

/// Writes the plan that is asked of the table whose metadata is at a path, by so many workers.
pub fn write_plan<H: Threads + Sync, S, P, F: Files + Sync, W: Sink>(
    system: &System<'_, H, S, P>,
    files: &F,
    path: &str,
    request: &Request,
    format: Format,
    workers: usize,
    output: &mut W,
) -> Result<(), RunFault>
    ensures answers { (world : World) → F.world files.now ≡ Some world →
        GivesAnswer (plan_in format world path.now request.now workers)
        (EndsAt world (F.may_fail files.now) (reads_at world path.now request.now))
        (W.may_fail output.old) result (W.taken output.old) (W.taken output.new) }
    ensures refusal { OnRefusal (F.world files.now) (F.may_fail files.now) (W.may_fail output.old) result
        (W.taken output.old) (W.taken output.new) }
    // Over all files: what is written is made of bytes that reads gave.
    ensures given { OnOk result (WrotePlanAt (F.gives files.now) path.now request.now format (W.taken output.old)
        (W.taken output.new)) }
{
    let host = system.host;
    let alloc = system.alloc;
    match format {
        Format::Text => plan_file(host, alloc, files, path, request, workers, output),
        Format::Json => plan_file_json(host, alloc, files, path, request, workers, output),
    }
}

/// Writes the plan that is asked of the table whose metadata is at a path, or that plan explained.
fn write_asked<H: Threads + Sync, S, P, F: Files + Sync, W: Sink>(
    system: &System<'_, H, S, P>,
    files: &F,
    path: &str,
    what: Relaxed,
    request: &Request,
    format: Format,
    workers: usize,
    output: &mut W,
) -> Result<(), RunFault>
    ensures answers { (world : World) → F.world files.now ≡ Some world →
        GivesAnswer (asked_in what format world path.now request.now workers)
        (EndsAt world (F.may_fail files.now) (reads_at world path.now request.now))
        (W.may_fail output.old) result (W.taken output.old) (W.taken output.new) }
    ensures nothing { IfErr result (λ fault. fault ≢ RunFault.Write → W.taken output.new ≡ W.taken output.old) }
    ensures given { OnOk result (WroteAsked what format (F.gives files.now) path.now request.now (W.taken output.old)
        (W.taken output.new)) }
{
    match what {
        Relaxed::Plan => write_plan(system, files, path, request, format, workers, output),
        Relaxed::Explanation => {
            let host = system.host;
            explain_file(
                host,
                system.alloc,
                files,
                path,
                request,
                workers,
                format,
                output,
            )
        }
    }
}

/// Writes the plan that is asked of the table whose metadata is at a path, or that plan explained, under the request's
/// filter relaxed, and gives the predicates that are not asked. The metadata is read by itself first.
pub fn write_relaxed<H: Threads + Sync, S, P, F: Files + Sync, W: Sink>(
    system: &System<'_, H, S, P>,
    files: &F,
    path: &str,
    what: Relaxed,
    request: &Request,
    format: Format,
    workers: usize,
    output: &mut W,
) -> Result<Items<Text>, RunFault>
    ensures answers { (world : World) → F.world files.now ≡ Some world →
        GivesAnswer (relaxed_in what format world path.now request.now workers)
        (EndsAt world (F.may_fail files.now) (relaxed_reads_at world path.now request.now))
        (W.may_fail output.old) (ended result) (W.taken output.old) (W.taken output.new) }
    ensures nothing { IfErr (ended result)
        (λ fault. fault ≢ RunFault.Write → W.taken output.new ≡ W.taken output.old) }
    // Over all files: what is written is made of bytes that reads gave.
    ensures given { OnOk (ended result) (WroteRelaxed what format (F.gives files.now) path.now request.now
        (W.taken output.old) (W.taken output.new)) }
{
    let made = relax_request_at(system.alloc, files, path, request)?;
    write_asked(
        system,
        files,
        path,
        what,
        &made.request,
        format,
        workers,
        output,
    )?;
    Ok(made.unasked)
}

/// Writes what the metadata at a path says.
pub fn write_shown<F: Files, W: Sink>(
    alloc: Global,
    files: &F,
    path: &str,
    format: Format,
    output: &mut W,
) -> Result<(), RunFault>
    ensures answers { (world : World) → F.world files.now ≡ Some world →
        GivesAnswer (show_in format world path.now) (EndsAt world (F.may_fail files.now) (path.now ∷ []))
        (W.may_fail output.old) result (W.taken output.old) (W.taken output.new) }
    ensures nothing { IfErr result (λ fault. fault ≢ RunFault.Write → W.taken output.new ≡ W.taken output.old) }
    // Over all files: what is written is made of bytes that reads gave.
    ensures given { OnOk result (WroteShown format (F.gives files.now) path.now (W.taken output.old)
        (W.taken output.new)) }
{
    match format {
        Format::Text => show_file(alloc, files, path, output),
        Format::Json => show_file_json(alloc, files, path, output),
    }
}

/// Writes the changes that are asked of the table whose metadata is at a path, by so many workers.
pub fn write_changes<H: Threads + Sync, S, P, F: Files + Sync, W: Sink>(
    system: &System<'_, H, S, P>,
    files: &F,
    path: &str,
    request: &ChangesRequest,
    format: Format,
    workers: usize,
    output: &mut W,
) -> Result<(), RunFault>
    ensures answers { (world : World) → F.world files.now ≡ Some world →
        GivesAnswer (changes_in format world path.now request.now workers)
        (EndsAt world (F.may_fail files.now) (changes_reads_at world path.now request.now))
        (W.may_fail output.old) result (W.taken output.old) (W.taken output.new) }
    ensures refusal { OnRefusal (F.world files.now) (F.may_fail files.now) (W.may_fail output.old) result
        (W.taken output.old) (W.taken output.new) }
    // Over all files: what is written is made of bytes that reads gave.
    ensures given { OnOk result (WroteChanged format (F.gives files.now) path.now request.now (W.taken output.old)
        (W.taken output.new)) }
{
    let host = system.host;
    let alloc = system.alloc;
    changes_file(host, alloc, files, format, path, request, workers, output)
}

/// Writes the audit of a snapshot of the table whose metadata is at a path, by so many workers, and gives the number of
/// findings that are faults.
pub fn write_audit<H: Threads + Sync, S, P, F: Files + Sync, W: Sink>(
    system: &System<'_, H, S, P>,
    files: &F,
    path: &str,
    target: &Target,
    format: Format,
    workers: usize,
    output: &mut W,
) -> Result<usize, RunFault>
    ensures written { (world : World) → F.world files.now ≡ Some world →
        IfOk result (λ count. WroteAuditAs format (audit_at world path.now target.now workers) count
        (W.taken output.old) (W.taken output.new)) }
    ensures refused { (world : World) → F.world files.now ≡ Some world →
        IfErr result (MayEnd (audit_at world path.now target.now workers)
        (EndsAt world (F.may_fail files.now) (audit_reads_at world path.now target.now)) (W.may_fail output.old)) }
    ensures front { (world : World) → F.world files.now ≡ Some world → IsErrOf result RunFault.Write →
        WroteAuditFrontAs format (audit_at world path.now target.now workers) (W.taken output.old)
        (W.taken output.new) }
    ensures nothing { IfErr result (λ fault. fault ≢ RunFault.Write → W.taken output.new ≡ W.taken output.old) }
    // Over all files: what is written is made of bytes that reads gave.
    ensures given { IfOk result (λ count. WroteAudited format (F.gives files.now) path.now target.now count
        (W.taken output.old) (W.taken output.new)) }
{
    let host = system.host;
    let alloc = system.alloc;
    match format {
        Format::Text => audit_file(host, alloc, files, path, target, workers, output),
        Format::Json => audit_file_json(host, alloc, files, path, target, workers, output),
    }
}
