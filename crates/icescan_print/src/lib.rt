//! What the program prints, over any sink: the pieces of a text, which wait on a page for their sink; the text of a
//! plan and that of a table's metadata; and how paths and names are escaped in them, and what such an escape stands
//! for.
#![tactic(auto)]

mod by_workers;
mod endings;
mod escape;
mod made_deletes;
mod page;
mod pieces;
mod plan_text;
mod sink;
mod table_lines;
mod table_text;
mod text_list;
mod unescaping;

pub use by_workers::{put_list_by_workers, put_plan_by_workers};
pub use escape::put_escaped;
pub use page::Page;
pub use pieces::{put_named_int, put_named_long, put_named_number, put_named_path};
pub use plan_text::{count_deletes, put_plan, put_totals};
pub use sink::{Output, Sink, SinkFault, write_all};
pub use table_text::{Shown, main_of, put_table};
pub use text_list::TextList;
pub use unescaping::{escaping, unescape};
