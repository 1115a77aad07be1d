//! The snapshot log.

ghost use Rattle.std.specs.Prelude.{◌≡◌};
ghost use Rattle.std.specs.Option.{option_map};
ghost use Rattle.serde_json.specs.View.{items_view, view};
ghost use Rattle.ice_meta.specs.Logs.{last_of, newest_entry, newest_time, time_of};

use crate::fault::Member;
use serde_json::Value;

/// The member with the snapshots that were current, in the order of time.
pub const SNAPSHOT_LOG: &str = "snapshot-log";

/// The last item of an array.
fn last_of(items: &[Value]) -> Option<&Value>
    ensures { option_map (λ item. view item.now) result ≡ last_of (items_view items.now) }
{
    items.last()
}

/// The newest entry of the log.
fn newest_entry(json: &Value) -> Option<&Value>
    ensures { option_map (λ entry. view entry.now) result ≡ newest_entry (view json.now) }
{
    match json.get(SNAPSHOT_LOG)?.as_array() {
        Some(entries) => last_of(entries.as_slice()),
        None => None,
    }
}

/// The time of an entry, in milliseconds.
fn time_of(entry: &Value) -> Option<i64>
    ensures { result ≡ time_of (view entry.now) }
{
    entry.get(Member::TimestampMs.name())?.as_i64()
}

/// The time of the newest entry, in milliseconds.
pub fn newest_time(json: &Value) -> Option<i64>
    ensures { result ≡ newest_time (view json.now) }
{
    time_of(newest_entry(json)?)
}
