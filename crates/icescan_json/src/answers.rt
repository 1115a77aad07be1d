//! What the answers in JSON tell of plans.

ghost use Rattle.std.specs.Prelude.{◌≡◌, ℕ, List, Ok};
ghost use Rattle.icescan_json.specs.Told.{CanBeRead, HasFittingNumbers};
ghost use Rattle.icescan_json.specs.JsonAnswers.{IsJsonOfPlan, TellsPlan, plan_answered};
ghost use Rattle.icescan_json.specs.JsonAnswers.{typed_answer_at, typed_list_answer};
ghost use Rattle.icescan_json.specs.declared.typed.TypedPlan.{TypedPlan};
ghost use Rattle.icescan_requests.specs.ListPlans.{list_answer};
ghost use Rattle.icescan_requests.specs.Plans.{Ending, answer_at};
ghost use Rattle.ice_state.specs.Contents.{World};
ghost use Rattle.ice_state.specs.Lines.{OwnedLine};
ghost use Rattle.icescan_text.specs.declared.request.Request.{Request};

use crate::laws::json_is_the_plan;

/// What is answered in JSON is the plan that is answered as text, or its refusal.
pub fn json_answers_are_plans()
    ensures at { (ending : Ending) (world : World) (path : List ℕ) (request : Request) (workers : ℕ) →
        plan_answered (typed_answer_at ending world path request workers)
        ≡ answer_at ending world path request workers }
    ensures list { (world : World) (list : List ℕ) →
        plan_answered (typed_list_answer world list) ≡ list_answer world list }
{}

/// The JSON of a plan, where the numbers of its files fit 64 bits and its filter can be read, tells the plan to a client
/// that reads it; so the JSON that answers a request tells the plan that the request asks for.
pub fn json_answers_tell_plans()
    ensures plan { (typed : TypedPlan) (text : List ℕ) (json : IsJsonOfPlan typed text) →
        CanBeRead json.filter → HasFittingNumbers json.files → TellsPlan typed.plan text }
    ensures request { (ending : Ending) (world : World) (path : List ℕ) (request : Request) (workers : ℕ)
        (typed : TypedPlan) (text : List ℕ) (json : IsJsonOfPlan typed text) →
        typed_answer_at ending world path request workers ≡ Ok typed → CanBeRead json.filter →
        HasFittingNumbers json.files →
        (plan : List OwnedLine) × (answer_at ending world path request workers ≡ Ok plan) × TellsPlan plan text }
{
    json_is_the_plan();
}
