//! Laws of states that travel as bytes. Their functions do nothing.

ghost use Rattle.std.specs.Prelude.{◌≡◌, ℕ, List, Bool, Ok};
ghost use Rattle.ice_meta.specs.declared.spec.Spec.{Spec};
ghost use Rattle.ice_manifest_reading.specs.declared.row.Row.{Row};
ghost use Rattle.ice_state.specs.Contents.{Content, World, IsOf, content, every_row, HasEach};
ghost use Rattle.ice_state.specs.Covering.{AreCovered};
ghost use Rattle.ice_state.specs.Outcomes.{outcome};
ghost use Rattle.ice_state.specs.Pruning.{pruner_of};
ghost use Rattle.ice_state.specs.Runs.{IsIn, after, taken};
ghost use Rattle.ice_state.specs.Scans.{IsScanOf, Scanned};
ghost use Rattle.ice_state.specs.Snapshots.{plan_of_snapshot};
ghost use Rattle.ice_state_bytes.specs.Journeys.{Ends, Journey, TakesAll, run_of};
ghost use Rattle.ice_state_bytes.specs.OfScans.{IsOfScan};
ghost use Rattle.ice_state_bytes.specs.States.{state_at};

use ice_state::laws::filtering;

/// Whatever states are carried and joined as bytes, in whatever tree and however often, the end is that of the same
/// takes and merges on one machine: the content of the world and of the rows that were taken. Where these are all
/// wanted rows, whoever took them, that finishes with the plan of the snapshot.
pub fn travelling()
    ensures same { (scan : Scanned) (name : List ℕ) (j : Journey) (c : Content) →
        Ends scan name j c → c ≡ after scan (run_of j) }
    ensures content { (world : World) (scan : Scanned) (name : List ℕ) (j : Journey) (c : Content) →
        Ends scan name j c → IsIn world scan (run_of j) → c ≡ content world scan (taken scan (run_of j)) }
    ensures whole { (world : World) (scan : Scanned) (name : List ℕ) (j : Journey) (c : Content) →
        Ends scan name j c → IsIn world scan (run_of j) → TakesAll scan (run_of j) →
        c ≡ content world scan (every_row scan) }
    ensures plan { (world : World) (rows : List Row) (specs : List Spec) (scan : Scanned) (name : List ℕ)
        (j : Journey) (c : Content) →
        IsScanOf rows specs scan → AreCovered world specs rows → HasEach world scan.wanted →
        Ends scan name j c → IsIn world scan (run_of j) → TakesAll scan (run_of j) →
        outcome scan c ≡ plan_of_snapshot (pruner_of scan.filter specs) world specs rows }
{
    filtering();
}

/// What was taken from manifests is of the scan, so that it can be written; and what is read has a place for each
/// wanted row.
pub fn honesty()
    ensures taken { (world : World) (scan : Scanned) (ts : List Bool) → IsOfScan scan (content world scan ts) }
    ensures read { (scan : Scanned) (name bytes : List ℕ) (c : Content) →
        state_at scan name bytes ≡ Ok c → IsOf scan c }
{}
