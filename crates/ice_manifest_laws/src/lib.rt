//! Laws of manifest lists and manifests by the data that their files hold.
#![tactic(auto)]

mod calls;
mod laws;

pub use calls::{
    int_or_zero, new_row, number_or_zero, read_list, read_manifest, write_list, write_manifest,
};
pub use laws::what_is_held_is_read;
