//! What a value holds that was found in an object's bytes, as the field that it is, read without a tree; or its fault.
#![tactic(auto)]

mod field;
mod items;
mod leaf;
mod list;
mod listed;
mod maps;
mod pairs;
mod sound;
mod standing;

pub use field::{
    int_asked, long_asked, number_asked, optional_int, optional_number, optional_path, path_asked,
};
pub use items::{ItemsAhead, items_of};
pub use leaf::{binary, text, truth, whole, whole_there};
pub use list::ints;
pub use maps::{FoundMaps, ReadMaps};
pub use pairs::push_field_path;
pub use standing::Standing;
