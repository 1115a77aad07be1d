//! Laws of the machine of scans and commits, for every list of events. Their functions do nothing.

ghost use Rattle.std.specs.Prelude.{◌≡◌, ℕ, List, Option, Some, length, slice_get};
ghost use Rattle.ice_catalog.specs.Apart.{Reads, TellsTheTruth, TookEvery, pin_after, pin_replies, plan_reply};
ghost use Rattle.ice_catalog.specs.Apart.{replies_of_pin};
ghost use Rattle.ice_catalog_versions.specs.Covered.{BeganCovered};
ghost use Rattle.ice_catalog_versions.specs.Histories.{state_of};
ghost use Rattle.ice_catalog_versions.specs.Live.{IsGrown};
ghost use Rattle.ice_catalog.specs.Machines.{Machine, PinnedScan, event, machine_after, pin, pinned_on, replies_to};
ghost use Rattle.ice_catalog_versions.specs.States.{State};
ghost use Rattle.ice_catalog.specs.declared.event.Event.{Event};
ghost use Rattle.ice_catalog.specs.declared.event.Event.TheVariants.{Finish};
ghost use Rattle.ice_filter.specs.declared.bound.BoundPredicate.{BoundPredicate};
ghost use Rattle.ice_filter.specs.declared.predicate.Predicate.{Predicate};
ghost use Rattle.ice_filter.specs.declared.parts.Part.{Part};
ghost use Rattle.ice_manifest_reading.specs.declared.row.Row.{Row};
ghost use Rattle.ice_meta.specs.declared.schema.Schema.{Schema};

use ice_state::laws::filtering;

/// What a pin replies follows from the version that was the newest at its `Pin` event, from that event's filter, and
/// from its own steps, whatever is pinned, committed and done by others in between.
pub fn pins_stand_apart()
    ensures replies { (m : Machine) (filter : List (Part Predicate)) (events : List Event) →
        replies_of_pin (length m.pins) events (replies_to (pin m filter).1 events)
        ≡ pin_replies (length m.pins) (pinned_on m.history filter) events }
    ensures after { (m : Machine) (filter : List (Part Predicate)) (events : List Event) →
        slice_get (machine_after (pin m filter).1 events).pins (length m.pins)
        ≡ Some (pin_after (length m.pins) (pinned_on m.history filter) events) }
    ensures midway { (m : Machine) (k : ℕ) (s : Option PinnedScan) (events : List Event) → slice_get m.pins k ≡ Some s →
        replies_of_pin k events (replies_to m events) ≡ pin_replies k s events }
{}

/// A worker that took every wanted row, by itself or from others, finishes with the plan of the snapshot that was the
/// current one when its scan was pinned, over all its rows, or with that plan's fault: whatever was committed in
/// between, and where the summaries of the snapshot's rows tell the truth.
pub fn pinned_plans()
    ensures { (m : Machine) (state : State) (filter : List (Part Predicate)) (schema : Schema) (rows : List Row)
        (parts : List (Part BoundPredicate)) (events : List Event) (w : ℕ) →
        state_of m.history ≡ Some state → Reads state filter schema rows parts → TellsTheTruth state schema rows →
        TookEvery (machine_after (pin m filter).1 events) (length m.pins) w →
        (event (machine_after (pin m filter).1 events) (Finish (length m.pins) w)).0
        ≡ plan_reply state schema rows parts }
{
    filtering();
}

/// The same where nothing is known of the summaries but that those of the opening's rows are true, and that the names
/// of the files of each commit since then were new, as a uuid of its own makes sure. That the history is grown is known
/// of each version that is held, by its `grew`, and of a machine at each of its events, by `run_events`: so what is
/// left to be known is of the data alone.
pub fn pinned_plans_of_commits()
    ensures { (m : Machine) (state : State) (filter : List (Part Predicate)) (schema : Schema) (rows : List Row)
        (parts : List (Part BoundPredicate)) (events : List Event) (w : ℕ) →
        IsGrown m.history → BeganCovered m.history → state_of m.history ≡ Some state →
        Reads state filter schema rows parts →
        TookEvery (machine_after (pin m filter).1 events) (length m.pins) w →
        (event (machine_after (pin m filter).1 events) (Finish (length m.pins) w)).0
        ≡ plan_reply state schema rows parts }
{
    pinned_plans();
}
