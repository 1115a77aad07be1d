//! Plans and commits of what reads gave, and of what files have.

ghost use Rattle.std.specs.Prelude.{◌≡◌, ℕ, List, Ok};
ghost use Rattle.ice_desk.specs.Given.{AreOf};
ghost use Rattle.ice_state.specs.Contents.{World};
ghost use Rattle.ice_state.specs.Lines.{OwnedLine};
ghost use Rattle.icescan_commits.specs.Commits.{Commitment, commitment};
ghost use Rattle.icescan_commits.specs.GivenCommits.{IsCommitmentOfGiven};
ghost use Rattle.icescan_requests.specs.GivenPlans.{IsListPlanOfGiven, IsPlanOfGiven, IsPlanOfGivenAt};
ghost use Rattle.icescan_requests.specs.ListPlans.{list_answer};
ghost use Rattle.icescan_requests.specs.Plans.{answer_at, over_wanted_rows, wanted_answer};
ghost use Rattle.icescan_text.specs.Workers.{by_workers};
ghost use Rattle.icescan_text.specs.declared.request.CommitRequest.{CommitRequest};
ghost use Rattle.icescan_text.specs.declared.request.Request.{Request};

use ice_desk::Files;
use ice_state::laws::{covering_without_fields, filtering, unfiltered};

/// Where each read of some files gives what a world has, a plan of what they gave is the plan of that world.
pub fn plans_of_a_world<F: Files>(files: &F)
    ensures tables { (world : World) (metadata : List ℕ) (request : Request) (plan : List OwnedLine) →
        AreOf (F.gives files.now) world → IsPlanOfGiven (F.gives files.now) metadata request plan →
        wanted_answer world metadata request ≡ Ok plan }
    ensures files { (world : World) (path : List ℕ) (request : Request) (workers : ℕ) (plan : List OwnedLine) →
        AreOf (F.gives files.now) world → IsPlanOfGivenAt (F.gives files.now) path request plan →
        answer_at over_wanted_rows world path request workers ≡ by_workers workers (Ok plan) }
    ensures lists { (world : World) (list : List ℕ) (plan : List OwnedLine) →
        AreOf (F.gives files.now) world → IsListPlanOfGiven (F.gives files.now) list plan →
        list_answer world list ≡ Ok plan }
{
    filtering();
    covering_without_fields();
    unfiltered();
}

/// Where each read of some files gives what a world has, a commit of what they gave is the commit to that world.
pub fn commits_of_a_world<F: Files>(files: &F)
    ensures { (world : World) (request : CommitRequest) (c : Commitment) → AreOf (F.gives files.now) world →
        IsCommitmentOfGiven (F.gives files.now) request c → commitment world request ≡ Ok c }
{}
