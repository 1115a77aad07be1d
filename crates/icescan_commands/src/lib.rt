//! The program's commands as calls: those that `icescan_requests` has, drills of `icescan_drill`, and all of them over
//! the words of a command line, which `icescan_words` reads.
#![tactic(auto)]

mod arms;
mod commit_lines;
mod explaining;
mod forms;
mod sharing;
mod system;
mod table_files;
mod words;

pub use explaining::run_program;
pub use icescan_columns::{columns_file, run_columns};
pub use icescan_commits::{commit_to, commits_are_put, prepare_commit, put_commit};
pub use icescan_drill::{Drill, Watch, drill_table, run_drill};
pub use icescan_files::{
    Bundle, CommitFolder, Disk, DiskFolder, Folder, Folders, HostFolders, HostStores, Links, Store,
    StoreFault, Stores, file_name, put_files, read_all,
};
pub use icescan_forms::{Format, Part};
pub use icescan_hints::{Kind, Looks};
pub use icescan_json::{finish_file_json, plan_file_json, run_list_plan_json};
pub use icescan_orphans::{AgedFolders, Search, orphans_file};
pub use icescan_parts::part_file;
pub use icescan_progress::{Cleared, Progress, ProgressLine, Screen, Silent, Terminals};
pub use icescan_relaxed::{RelaxedRequest, relax_request, relax_request_at};
pub use icescan_requests::{
    Selection, plan_file, plans_of_true_summaries, run_list_plan, run_plan, run_plan_with,
    run_show, select, show_file,
};
pub use icescan_shares::{finish_file, join_files, take_file};
pub use icescan_text::{CommitRequest, Request, Share};
pub use icescan_words::{
    Asked, Command, Lists, Located, Place, Relaxed, Source, States, parse_words,
};
pub use system::{System, links_of};
pub use words::run_words;
