//! What an audit tells of plans.
#![tactic(auto)]

ghost use Rattle.std.specs.Prelude.{◌≡◌, ℕ, List, [], Option, None, Ok};
ghost use Rattle.icescan_audit_findings.specs.Telling.{uncovered};
ghost use Rattle.icescan_audit.specs.Audits.{audit_of};
ghost use Rattle.icescan_audit.specs.declared.audit.Audit.{Audit};
ghost use Rattle.ice_meta.specs.declared.metadata.Target.{Target};
ghost use Rattle.icescan_requests.specs.Plans.{TellsTheTruth, answer, wanted_answer};
ghost use Rattle.ice_state.specs.Contents.{World};

use icescan_audit::audits_tell_of_summaries;
use icescan_requests::plans_of_true_summaries;

/// Where the audit of a snapshot has no finding that a summary does not cover an entry, the premise of its plans holds:
/// whatever the filter, the plan of the wanted rows is that of the whole snapshot. Where the premise holds, there is no
/// such finding.
pub fn audits_tell_of_plans()
    ensures premise { (world : World) (metadata : List ℕ) (target : Target) (audit : Audit) (filter : Option (List ℕ)) →
        audit_of world metadata target ≡ Ok audit → uncovered audit.findings ≡ [] →
        TellsTheTruth world metadata (record { target = target; filter = filter }) }
    ensures plans { (world : World) (metadata : List ℕ) (target : Target) (audit : Audit) (filter : Option (List ℕ)) →
        audit_of world metadata target ≡ Ok audit → uncovered audit.findings ≡ [] →
        wanted_answer world metadata (record { target = target; filter = filter })
        ≡ answer world metadata (record { target = target; filter = filter }) }
    ensures told { (world : World) (metadata : List ℕ) (target : Target) (audit : Audit) →
        audit_of world metadata target ≡ Ok audit →
        TellsTheTruth world metadata (record { target = target; filter = None }) → uncovered audit.findings ≡ [] }
{
    audits_tell_of_summaries();
    plans_of_true_summaries();
}
