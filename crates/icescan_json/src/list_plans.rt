//! The plan of a manifest list as JSON.

ghost use Rattle.std.specs.Prelude.{◌≡◌, Some, OnOk};
ghost use Rattle.ice_desk.specs.Worlds.{EndsAt};
ghost use Rattle.icescan_json.specs.JsonAnswers.{AnswersInJson, IsTypedListOfGiven, WritesJson, WroteJsonThat};
ghost use Rattle.icescan_json.specs.JsonAnswers.{typed_list_answer};
ghost use Rattle.icescan_requests.specs.ListPlans.{list_reads};
ghost use Rattle.icescan_requests.specs.Plans.{OnRefusal};
ghost use Rattle.ice_state.specs.Contents.{World};

use crate::expressions::Expression;
use crate::typed::{TypedPlan, write_json};
use contract_words::Items;
use ice_desk::Files;
use icescan_print::Sink;
use icescan_requests::plan_list;
use icescan_text::RunFault;
use std::alloc::Global;

/// Writes the plan of the manifest list at a path as JSON, in one line: the answer of an Iceberg REST catalog to a scan
/// that was planned. The table is taken as one without partitions; as no types of partition values are known, each is
/// written as what it is. The filter of each task is `true`.
///
/// The refusals, and their order, are those of `icescan_requests::run_list_plan`. After any refusal but `Write` nothing
/// was written, and after that one a front of the text was.
pub fn run_list_plan_json<F: Files, W: Sink>(
    alloc: Global,
    files: &F,
    list: &str,
    output: &mut W,
) -> Result<(), RunFault>
    // Over files that tell their world: what is written is the JSON of the plan, and a fault is the answer's.
    ensures answers { (world : World) → F.world files.now ≡ Some world →
        AnswersInJson (typed_list_answer world list.now)
        (EndsAt world (F.may_fail files.now) (list_reads world list.now))
        (W.may_fail output.old) result (W.taken output.old) (W.taken output.new) }

    // Over all files.
    ensures text { WritesJson result (W.taken output.old) (W.taken output.new) }
    ensures refusal { OnRefusal (F.world files.now) (F.may_fail files.now) (W.may_fail output.old) result
        (W.taken output.old) (W.taken output.new) }
    // What is written is the plan of bytes that reads gave.
    ensures given { OnOk result (WroteJsonThat (IsTypedListOfGiven (F.gives files.now) list.now) (W.taken output.old)
        (W.taken output.new)) }
{
    let typed = TypedPlan {
        types: Items::new(alloc),
        plan: plan_list(alloc, files, list)?,
        residual: Expression::every_row(alloc)?,
    };
    write_json(alloc, &typed, output)
}
