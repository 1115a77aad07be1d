//! Which files a table reaches, over any files: every manifest list and every manifest of every snapshot is read.
#![tactic(auto)]

mod kind;
mod laws;
mod lists;
mod manifests;
mod named;
mod order;
mod running;

pub use kind::{FileKind, put_line};
pub use laws::lines_are_of_reached_files;
pub use lists::{gather_rows, put_lists};
pub use manifests::{put_manifests, read_manifest};
pub use named::{logged_in, path_in, unnamed};
pub use order::{put_in_order, text_of};
pub use running::{lines_at, lines_of, reachable_file};
