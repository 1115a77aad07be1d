//! Data files and delete files.

ghost use Rattle.std.specs.Prelude.{◌≡◌, Option, List, ℕ};
ghost use Rattle.std.specs.Option.{option_copied};
ghost use Rattle.json.specs.Print.{escape};
ghost use Rattle.serde_json.specs.Written.{compact_text};
ghost use Rattle.icescan_print.specs.Written.{Sent};
ghost use Rattle.icescan_json.specs.PlanJson.{data_json, delete_json, format_name};
ghost use Rattle.icescan_json.specs.Texts.{before_path, file_head, file_partition, file_sizes, file_text};
ghost use Rattle.icescan_json.specs.Texts.{format_text, kind_text, referenced_text};

use crate::types::{SpecTypes, types_of};
use crate::values::put_cells;
use ice_state::PlanFile;
use ice_value::{FileContent, FileFormat};
use icescan_forms::{put_ids, put_quoted};
use icescan_print::{Page, Sink, SinkFault};

/// What stands before the path of a file of this kind.
fn before_path(content: FileContent) -> &'static [u8]
    ensures { result.now ≡ before_path content }
{
    match content {
        FileContent::Data => b"{\"content\":\"data\",\"file-path\":",
        FileContent::PositionDeletes => b"{\"content\":\"position-deletes\",\"file-path\":",
        FileContent::EqualityDeletes => b"{\"content\":\"equality-deletes\",\"file-path\":",
    }
}

/// The member of a file's format, where it is known.
#[tactic(auto, unfolding(json::specs::Print::escape_byte))]
fn format_text(file: &PlanFile<'_>) -> &'static [u8]
    ensures { result.now ≡ format_text (format_name file.now) }
{
    match file.format() {
        Some(FileFormat::Avro) => b",\"file-format\":\"avro\"",
        Some(FileFormat::Orc) => b",\"file-format\":\"orc\"",
        Some(FileFormat::Parquet) => b",\"file-format\":\"parquet\"",
        None => b"",
    }
}

/// Sends a file's path, and what it is.
fn put_file_head<S: Sink>(
    page: &mut Page,
    sink: &mut S,
    file: &PlanFile<'_>,
) -> Result<(), SinkFault>
    ensures { Sent S.taken S.may_fail sink.old page.old result sink.new page.new (file_head file.now) }
{
    page.put(sink, before_path(file.content()))?;
    put_quoted(page, sink, file.path())?;
    page.put(sink, format_text(file))
}

/// Sends a file's partition.
#[tactic(auto, unfolding(crate::specs::Texts::file_partition))]
fn put_file_partition<S: Sink>(
    page: &mut Page,
    sink: &mut S,
    types: &[SpecTypes],
    file: &PlanFile<'_>,
) -> Result<(), SinkFault>
    ensures { Sent S.taken S.may_fail sink.old page.old result sink.new page.new (file_partition types.now file.now) }
{
    page.put_named_int(sink, b",\"spec-id\":", file.spec_id())?;
    page.put(sink, b",\"partition\":[")?;
    put_cells(page, sink, types_of(types, file.spec_id()), file.tuple())?;
    page.put(sink, b"]")
}

/// Sends a file's bytes, rows and sequence number.
#[tactic(auto, unfolding(crate::specs::Texts::file_sizes))]
fn put_file_sizes<S: Sink>(
    page: &mut Page,
    sink: &mut S,
    file: &PlanFile<'_>,
) -> Result<(), SinkFault>
    ensures { Sent S.taken S.may_fail sink.old page.old result sink.new page.new (file_sizes file.now) }
{
    page.put_named_long(sink, b",\"file-size-in-bytes\":", file.file_size())?;
    page.put_named_long(sink, b",\"record-count\":", file.record_count())?;
    page.put_named_number(sink, b",\"sequence-number\":", file.sequence_number().get())
}

/// Sends a file, but for what its own kind has and the bracket.
#[tactic(auto, unfolding(crate::specs::Texts::file_text))]
fn put_file<S: Sink>(
    page: &mut Page,
    sink: &mut S,
    types: &[SpecTypes],
    file: &PlanFile<'_>,
) -> Result<(), SinkFault>
    ensures { Sent S.taken S.may_fail sink.old page.old result sink.new page.new (file_text types.now file.now) }
{
    put_file_head(page, sink, file)?;
    put_file_partition(page, sink, types, file)?;
    put_file_sizes(page, sink, file)
}

/// Sends the member of the data file that a position delete file names, where it names one.
fn put_referenced<S: Sink>(
    page: &mut Page,
    sink: &mut S,
    referenced: Option<&[u8]>,
) -> Result<(), SinkFault>
    ensures { Sent S.taken S.may_fail sink.old page.old result sink.new page.new
        (referenced_text (option_copied referenced.entry)) }
{
    match referenced {
        Some(path) => {
            page.put(sink, b",\"referenced-data-file\":")?;
            put_quoted(page, sink, path)
        }
        None => Ok(()),
    }
}

/// Sends what a file of its kind has.
fn put_kind<S: Sink>(page: &mut Page, sink: &mut S, file: &PlanFile<'_>) -> Result<(), SinkFault>
    ensures { Sent S.taken S.may_fail sink.old page.old result sink.new page.new
        (kind_text file.now.file file.now.file.content) }
{
    match file.content() {
        FileContent::Data => Ok(()),
        FileContent::PositionDeletes => put_referenced(page, sink, file.referenced()),
        FileContent::EqualityDeletes => {
            page.put(sink, b",\"equality-ids\":[")?;
            put_ids(page, sink, file.equality_ids())?;
            page.put(sink, b"]")
        }
    }
}

/// Sends a data file.
pub fn put_data_file<S: Sink>(
    page: &mut Page,
    sink: &mut S,
    types: &[SpecTypes],
    file: &PlanFile<'_>,
) -> Result<(), SinkFault>
    ensures { Sent S.taken S.may_fail sink.old page.old result sink.new page.new
        (compact_text (data_json types.now file.now)) }
{
    put_file(page, sink, types, file)?;
    page.put(sink, b"}")
}

/// Sends a delete file.
pub fn put_delete_file<S: Sink>(
    page: &mut Page,
    sink: &mut S,
    types: &[SpecTypes],
    file: &PlanFile<'_>,
) -> Result<(), SinkFault>
    ensures { Sent S.taken S.may_fail sink.old page.old result sink.new page.new
        (compact_text (delete_json types.now file.now)) }
{
    put_file(page, sink, types, file)?;
    put_kind(page, sink, file)?;
    page.put(sink, b"}")
}
