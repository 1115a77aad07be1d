//! What events do to the states of workers. Their functions do nothing.

ghost use Rattle.std.specs.Prelude.{◌≡◌, ◌↔◌, ◌+◌, ◌<◌, ◌≤◌, ℕ, List, Some, true, false, length, slice_get};
ghost use Rattle.std.specs.List.{AllByRecursion};
ghost use Rattle.ice_catalog.specs.Apart.{TookEvery};
ghost use Rattle.ice_catalog.specs.Machines.{Machine, PinnedScan, event, finished, machine_after, replies_to};
ghost use Rattle.ice_catalog.specs.Machines.{scan_of, world_of};
ghost use Rattle.ice_catalog.specs.declared.event.Event.{Event};
ghost use Rattle.ice_catalog.specs.declared.event.Event.TheVariants.{Finish, Merge, Pin, Take};
ghost use Rattle.ice_catalog.specs.declared.event.Reply.TheVariants.{Absent, Committed, Merged, NoSuch, Pinned, Taken};
ghost use Rattle.ice_filter.specs.declared.predicate.Predicate.{Predicate};
ghost use Rattle.ice_filter.specs.declared.parts.Part.{Part};
ghost use Rattle.ice_state.specs.Contents.{Content, took};
ghost use Rattle.ice_state.specs.Joins.{join};
ghost use Rattle.ice_state.specs.Outcomes.{outcome};
ghost use Rattle.ice_state.specs.Runs.{Run, IsIn, after};
ghost use Rattle.ice_state.specs.Scans.{Scanned};
ghost use Rattle.ice_catalog_versions.specs.declared.receipt.Receipt.{Receipt};
ghost use Rattle.ice_catalog_laws.specs.Counts.{count_of, followed_by, made, sum_of_seats};
ghost use Rattle.ice_catalog_laws.specs.Playing.{AreFresh, HaveNoRow, IsPlayed, TakesEvery, events_of, is_done};
ghost use Rattle.ice_catalog_laws.specs.Playing.{states};
ghost use Rattle.ice_catalog_laws.specs.Workers.{Begins, CanMerge, CanTake, HasManifest, HasState, IsPut, Lacks};
ghost use Rattle.ice_catalog_laws.specs.Workers.{tells_a_change};

/// A `Take` is replied `Taken` exactly where there is such a worker, and where the scanned version has the manifest of
/// such a wanted row. Then the worker's state is what taking the bytes of that manifest makes of it, and nothing else
/// is changed. It is replied `Absent` exactly where there is the worker and the row, and no file at the row's path.
pub fn a_take_is_taken()
    ensures taken { (m : Machine) (k w i : ℕ) → ((event m (Take k w i)).0 ≡ Taken ↔ CanTake m k w i) }
    ensures state { (m : Machine) (k w i : ℕ) (p : PinnedScan) (c : Content) (bytes : List ℕ) →
        HasState m k w p c → HasManifest p i bytes →
        IsPut m (event m (Take k w i)).1 k w p (took p.scan c i bytes) }
    ensures absent { (m : Machine) (k w i : ℕ) (path : List ℕ) →
        ((event m (Take k w i)).0 ≡ Absent path ↔ Lacks m k w i path) }
{}

/// A `Merge` is replied `Merged` exactly where there are two such workers. Then the state of the first is what it and
/// the second took, and nothing else is changed.
pub fn a_merge_is_merged()
    ensures merged { (m : Machine) (k into from : ℕ) →
        ((event m (Merge k into from)).0 ≡ Merged ↔ CanMerge m k into from) }
    ensures state { (m : Machine) (k into from : ℕ) (p : PinnedScan) (c d : Content) →
        HasState m k into p c → HasState m k from p d →
        IsPut m (event m (Merge k into from)).1 k into p (join c d) }
{}

/// What is replied to `Finish` is the outcome of the worker's state.
pub fn finishing_tells_the_outcome()
    ensures { (m : Machine) (k w : ℕ) (p : PinnedScan) (c : Content) → HasState m k w p c →
        event m (Finish k w) ≡ (finished (outcome p.scan c), m) }
{}

/// A `Pin` is replied `Pinned` exactly where there is a scan of the newest version, with the number of the pins before
/// it. Then there is this scan, of whose 64 workers none took anything, and nothing else is changed.
pub fn a_scan_begins_with_nothing_taken()
    ensures pinned { (m : Machine) (filter : List (Part Predicate)) (k : ℕ) →
        ((event m (Pin filter)).0 ≡ Pinned k
        ↔ ((k ≡ length m.pins) × ((scan : Scanned) × (scan_of m.history filter ≡ Some scan)))) }
    ensures state { (m : Machine) (filter : List (Part Predicate)) (scan : Scanned) →
        scan_of m.history filter ≡ Some scan → Begins m (event m (Pin filter)).1 scan }
{}

/// An event changes nothing where the reply is none that tells of a change.
pub fn a_machine_changes_only_where_it_says_so()
    ensures { (m : Machine) (e : Event) → tells_a_change (event m e).0 ≡ false → (event m e).1 ≡ m }
{}

/// Every tree of takes and merges can be played by workers of a scan that took nothing, as many as it has states, where
/// its bytes are those of the scanned version: each step is done, nothing is changed but the states of these workers,
/// and in the end the first of them has the state that the tree ends in.
pub fn a_tree_is_played()
    ensures { (m : Machine) (k w : ℕ) (p : PinnedScan) (run : Run) →
        slice_get m.pins k ≡ Some (Some p) → AreFresh p w (states run) → IsIn (world_of p.history) p.scan run →
        AllByRecursion (λ r. is_done r ≡ true) (replies_to m (events_of k w run))
        × IsPlayed m (machine_after m (events_of k w run)) k w (states run) p (after p.scan run) }
{}

/// After a tree that takes every wanted row the worker that played it took every row. So `pinned_plans` tells what it
/// then finishes with, whatever the tree.
pub fn a_tree_takes_its_rows()
    ensures { (m : Machine) (k w : ℕ) (p : PinnedScan) (run : Run) →
        slice_get m.pins k ≡ Some (Some p) → HaveNoRow p w (states run) → IsIn (world_of p.history) p.scan run →
        TakesEvery p.scan run → TookEvery (machine_after m (events_of k w run)) k w }
{}

/// The journal of a machine goes on by exactly the commits that it replies to with `Committed`, in their order, and the
/// receipt has the number of the version that the commit makes. So, where each event is of one of n seats, the number
/// of the newest version went up by the counts of all seats together, and at no time is it less than what one seat
/// made.
pub fn commits_are_counted()
    ensures journal { (m : Machine) (events : List Event) →
        (machine_after m events).history ≡ followed_by m.history (made events (replies_to m events)) }
    ensures receipt { (m : Machine) (e : Event) (receipt : Receipt) → (event m e).0 ≡ Committed receipt →
        receipt.number ≡ length (event m e).1.history.journal }
    ensures all_seats { (m : Machine) (events : List Event) (n : ℕ) (who : List ℕ) →
        AllByRecursion (λ s. s < n) who → length who ≡ length events →
        length (machine_after m events).history.journal
        ≡ length m.history.journal + sum_of_seats n (λ s. count_of s who events (replies_to m events)) }
    ensures one_seat { (m : Machine) (events : List Event) (s : ℕ) (who : List ℕ) →
        count_of s who events (replies_to m events) ≤ length (machine_after m events).history.journal }
{}
