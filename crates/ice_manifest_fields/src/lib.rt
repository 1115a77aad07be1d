//! What the fields of a manifest list's rows and of a manifest's entries hold, found by field id, and which types they
//! may have; or the first fault.
#![tactic(auto)]

mod columns;
mod decimal;
mod fault;
mod field;
mod kind;
mod laws;
mod shape;

pub use columns::{
    ColumnMap, LOWER_BOUNDS, NULL_COUNTS, UPPER_BOUNDS, VALUE_COUNTS, check_column_fields, see_keys,
};
pub use decimal::shortest;
pub use fault::{FieldFault, ListFault, ManifestFault};
pub use field::{not_negative, short_path, within_32};
pub use kind::Kind;
pub use laws::decimals_are_kept_shortest;
pub use shape::{branches_of, check_ids, check_row_fields, fields_of, optional, required, type_at};
