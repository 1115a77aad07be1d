//! What an answer leaves out has no row that meets the request's filter. The functions do nothing.

ghost use Rattle.std.specs.Prelude.{◌≡◌, ℕ, List, Option, Ok, Contains};
ghost use Rattle.ice_value.specs.declared.file_content.FileContent.TheVariants.{Data};
ghost use Rattle.ice_filter.specs.Rows as table;
ghost use Rattle.ice_filter.specs.Rows.{row_meets};
ghost use Rattle.ice_filter.specs.declared.predicate.Predicate.{Predicate};
ghost use Rattle.ice_filter.specs.declared.parts.Part.{Part};
ghost use Rattle.ice_meta.specs.declared.schema.Schema.{Schema};
ghost use Rattle.ice_manifest_reading.specs.declared.entry.Live.{Live};
ghost use Rattle.ice_manifest_reading.specs.declared.row.Row.{Row};
ghost use Rattle.ice_project.specs.Honesty.{NoneMeets};
ghost use Rattle.ice_state.specs.Contents.{World};
ghost use Rattle.ice_state.specs.Covering.{RowCovers};
ghost use Rattle.ice_state.specs.Lines.{OwnedLine};
ghost use Rattle.ice_state.specs.Snapshots.{live};
ghost use Rattle.icescan_requests.specs.Plans.{answer, wanted_answer};
ghost use Rattle.icescan_requests.specs.Selections.{selected};
ghost use Rattle.icescan_text.specs.declared.request.Request.{Request};
ghost use Rattle.icescan_requests.specs.declared.selection.Selection.{Selection};
ghost use Rattle.ice_state_laws.specs.Honesty.{IsHonest};
ghost use Rattle.ice_state_laws.specs.Plans.{IsLive, Lacks};
ghost use Rattle.icescan_answer_laws.specs.Asked.{IsAsked, IsRead, meets};

use ice_state::laws::scanning;
use ice_state_laws::what_the_plan_lacks_has_no_match;

/// A live data file of the snapshot that a request asks for, which the plan of its answer lacks, and which is honest
/// about its rows, has no row that meets the request's filter.
///
/// `answer` says it of the plan over all rows of the snapshot, `wanted` of the plan that is written whatever the
/// summaries say: there those of the file's own manifest have to cover its partition values too.
pub fn what_an_answer_lacks_has_no_match()
    ensures answer { (world : World) (metadata : List ℕ) (request : Request) (selection : Selection) (rows : List Row)
        (plan : List OwnedLine) (l : Live) (file : List table.Row) →
        IsAsked world metadata request selection rows → answer world metadata request ≡ Ok plan →
        IsLive world selection.specs rows l → l.entry.file.content ≡ Data →
        IsHonest selection.specs selection.filter.parts l file →
        Lacks plan l.entry → NoneMeets selection.filter.parts file }
    ensures wanted { (world : World) (metadata : List ℕ) (request : Request) (selection : Selection) (rows : List Row)
        (plan : List OwnedLine) (row : Row) (l : Live) (file : List table.Row) →
        IsAsked world metadata request selection rows → wanted_answer world metadata request ≡ Ok plan →
        Contains rows row → Contains (live world selection.specs row) l → l.entry.file.content ≡ Data →
        IsHonest selection.specs selection.filter.parts l file →
        RowCovers selection.specs row l.entry.file.tuple →
        Lacks plan l.entry → NoneMeets selection.filter.parts file }
{
    scanning();
    what_the_plan_lacks_has_no_match();
}

/// The filter of a request means on every row what its text means over the names of the columns of the schema that
/// counts; without a text every row meets it.
pub fn filters_mean_their_texts()
    ensures { (metadata : List ℕ) (request : Request) (selection : Selection) (schema : Schema)
        (parts : Option (List (Part Predicate))) (row : table.Row) →
        selected metadata request ≡ Ok selection → IsRead metadata request schema parts →
        row_meets selection.filter.parts row ≡ meets schema parts row }
{}
