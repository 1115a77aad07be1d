//! What explanations tell of plans.

ghost use Rattle.std.specs.Prelude.{◌≡◌, ◌↔◌, ℕ, List, Err, Ok};
ghost use Rattle.std.specs.List.Sorted.{IsPermutation};
ghost use Rattle.icescan_explain.specs.Explanations.{explained};
ghost use Rattle.icescan_explain.specs.Told.{paths_kept, paths_planned};
ghost use Rattle.icescan_explain.specs.declared.manifests.Explanation.{Explanation};
ghost use Rattle.icescan_requests.specs.Plans.{wanted_answer};
ghost use Rattle.ice_state.specs.Contents.{World};
ghost use Rattle.ice_state.specs.Lines.{OwnedLine};
ghost use Rattle.icescan_text.specs.declared.fault.RunFault.{RunFault};
ghost use Rattle.icescan_text.specs.declared.request.Request.{Request};

/// A plan is explained just where there is one, and it is that plan; else both are refused alike. The data files that
/// are told as kept are those of the plan, each once.
pub fn explanations_tell_of_plans()
    ensures plan { (world : World) (metadata : List ℕ) (request : Request) (plan : List OwnedLine) →
        wanted_answer world metadata request ≡ Ok plan →
        (x : Explanation) × (explained world metadata request ≡ Ok x) × (x.plan ≡ plan) }
    ensures refused { (world : World) (metadata : List ℕ) (request : Request) (fault : RunFault) →
        (explained world metadata request ≡ Err fault) ↔ (wanted_answer world metadata request ≡ Err fault) }
    ensures kept { (world : World) (metadata : List ℕ) (request : Request) (x : Explanation) →
        explained world metadata request ≡ Ok x → IsPermutation (paths_kept x.verdicts) (paths_planned x.plan) }
{}
