//! What the answer to a relaxed request leaves out has no row that may meet the filter that was asked. The function does
//! nothing.

ghost use Rattle.std.specs.Prelude.{◌≡◌, ℕ, List, Some, Ok, Contains};
ghost use Rattle.ice_value.specs.declared.file_content.FileContent.TheVariants.{Data};
ghost use Rattle.ice_filter.specs.Rows as table;
ghost use Rattle.ice_filter.specs.declared.predicate.Predicate.{Predicate};
ghost use Rattle.ice_filter.specs.declared.parts.Part.{Part};
ghost use Rattle.ice_meta.specs.declared.schema.Schema.{Schema};
ghost use Rattle.ice_manifest_reading.specs.declared.entry.Live.{Live};
ghost use Rattle.ice_manifest_reading.specs.declared.row.Row.{Row};
ghost use Rattle.ice_state.specs.Contents.{World};
ghost use Rattle.ice_state.specs.Covering.{RowCovers};
ghost use Rattle.ice_state.specs.Lines.{OwnedLine};
ghost use Rattle.ice_state.specs.Snapshots.{live};
ghost use Rattle.icescan_relaxed.specs.Requests.{relaxed_request};
ghost use Rattle.icescan_relaxed.specs.declared.requests.RelaxedRequest.{RelaxedRequest};
ghost use Rattle.icescan_requests.specs.Plans.{answer, wanted_answer};
ghost use Rattle.icescan_requests.specs.declared.selection.Selection.{Selection};
ghost use Rattle.icescan_text.specs.declared.request.Request.{Request};
ghost use Rattle.ice_state_laws.specs.Honesty.{IsHonest};
ghost use Rattle.ice_state_laws.specs.Plans.{IsLive, Lacks};
ghost use Rattle.icescan_answer_laws.specs.Asked.{IsAsked, IsRead};
ghost use Rattle.icescan_answer_laws.specs.Relaxed.{NoneMayMeet};

use crate::answers::what_an_answer_lacks_has_no_match;
use ice_filter_relaxed::relaxed_filters_lose_no_row;

/// A live data file that the plan of a relaxed request lacks, and which is honest about its rows, has no row that meets
/// the filter of the request itself, whatever an engine makes of the predicates that are not asked.
///
/// `answer` says it of the plan over all rows of the snapshot, `wanted` of the plan that is written whatever the
/// summaries say: there those of the file's own manifest have to cover its partition values too.
pub fn what_a_relaxed_answer_lacks_has_no_match()
    ensures answer { (world : World) (metadata : List ℕ) (request : Request) (made : RelaxedRequest)
        (schema : Schema) (parts : List (Part Predicate)) (selection : Selection) (rows : List Row)
        (plan : List OwnedLine) (l : Live) (file : List table.Row) →
        relaxed_request metadata request ≡ Ok made → IsRead metadata request schema (Some parts) →
        IsAsked world metadata made.request selection rows → answer world metadata made.request ≡ Ok plan →
        IsLive world selection.specs rows l → l.entry.file.content ≡ Data →
        IsHonest selection.specs selection.filter.parts l file →
        Lacks plan l.entry → NoneMayMeet schema parts file }
    ensures wanted { (world : World) (metadata : List ℕ) (request : Request) (made : RelaxedRequest)
        (schema : Schema) (parts : List (Part Predicate)) (selection : Selection) (rows : List Row)
        (plan : List OwnedLine) (row : Row) (l : Live) (file : List table.Row) →
        relaxed_request metadata request ≡ Ok made → IsRead metadata request schema (Some parts) →
        IsAsked world metadata made.request selection rows → wanted_answer world metadata made.request ≡ Ok plan →
        Contains rows row → Contains (live world selection.specs row) l → l.entry.file.content ≡ Data →
        IsHonest selection.specs selection.filter.parts l file →
        RowCovers selection.specs row l.entry.file.tuple →
        Lacks plan l.entry → NoneMayMeet schema parts file }
{
    what_an_answer_lacks_has_no_match();
    relaxed_filters_lose_no_row();
}
