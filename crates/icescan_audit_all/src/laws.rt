//! What the text of the audits of all snapshots tells. The functions do nothing.

ghost use Rattle.std.specs.Prelude.{◌≡◌, ℕ, List, [], Option, None};
ghost use Rattle.std.specs.List.{All};
ghost use Rattle.ice_desk.specs.Given.{AreOf};
ghost use Rattle.ice_state.specs.Contents.{World};
ghost use Rattle.icescan_audit_findings.specs.Telling.{faults};
ghost use Rattle.icescan_forms.specs.declared.format.Format.{Format};
ghost use Rattle.icescan_audit_all.specs.Honest.{HasHonestSnapshotsAt};
ghost use Rattle.icescan_audit_all.specs.Lines.{number_of_faults, told_lines};
ghost use Rattle.icescan_audit_all.specs.Texts.{WroteAuditsAt};
ghost use Rattle.icescan_audit_all.specs.declared.audits.SnapshotAudit.{SnapshotAudit};

use ice_desk::Files;
use icescan_audit::audits_tell_of_files;

/// Where the audits of all snapshots tell of no fault, none of them has one (`faults`). So where reads give what a world
/// has, the live files of each snapshot of the metadata are honest as far as metadata can tell (`honest`).
pub fn no_fault_told_is_none<F: Files>(files: &F)
    ensures faults { (form : Format) (audits : List SnapshotAudit) →
        number_of_faults None (told_lines form audits) ≡ 0 →
        All (λ (a : SnapshotAudit). faults a.audit.findings ≡ []) audits }
    ensures honest { (form : Format) (world : World) (path : List ℕ) (output output' : Option (List ℕ)) →
        AreOf (F.gives files.now) world → WroteAuditsAt form (F.gives files.now) path 0 output output' →
        HasHonestSnapshotsAt world path }
{
    audits_tell_of_files();
}
