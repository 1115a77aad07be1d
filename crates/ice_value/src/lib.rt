//! Values of columns, their order, their bounds as bytes, and the small types that hold lists and texts where
//! contracts compare them.
#![tactic(auto)]

mod applying;
mod bound;
mod bounded;
mod brief;
mod cell;
mod column_type;
mod columns;
mod file_bounds;
mod file_content;
mod file_format;
mod sequence_number;

pub use applying::applying_of_deletes;
pub use bound::{compare_bound, read_bound, single_values, write_bound};
pub use cell::{
    Cell, cells_up_to_others, equality_of_cells, is_same_tuple, order_of_cells,
    total_order_of_cells,
};
pub use column_type::ColumnType;
pub use columns::{ColumnBounds, ColumnCounts};
pub use file_bounds::{FileBounds, Summary};
pub use file_content::FileContent;
pub use file_format::{FileFormat, names_of_formats};
pub use sequence_number::SequenceNumber;
