//! The text of a fault: its number, name and arguments.

ghost use Rattle.std.specs.Prelude.{◌≡◌, ◌++◌};
ghost use Rattle.ice_meta.specs.Members.{member_name};
ghost use Rattle.icescan_text.specs.FaultTexts.{schema_text, avro_text, list_text, manifest_text, scan_text};
ghost use Rattle.icescan_text.specs.FaultTexts.{finish_text};
ghost use Rattle.icescan_text.specs.FaultTexts.{meta_text, filter_text, change_text, prepare_text, drill_fault_text};
ghost use Rattle.icescan_text.specs.FaultTexts.{run_text, line_text, fault_text, newest_text};
ghost use Rattle.icescan_text.specs.FaultTexts.{lineage_text, state_text};
ghost use Rattle.icescan_print.specs.Written.{Wrote};

use crate::change::ChangeFault;
use crate::drill_fault::DrillFault;
use crate::fault::RunFault;
use crate::lineage_fault::LineageFault;
use crate::state_flaw::StateFlaw;
use avro_file::AvroFault;
use avro_schema::SchemaFault;
use ice_catalog_changes::PrepareFault;
use ice_filter::FilterFault;
use ice_manifest_reading::{ListFault, ManifestFault};
use ice_meta::{Member, MetaFault};
use ice_meta_files::NewestFault;
use ice_state::{FinishFault, ScanFault};
use icescan_print::{
    Sink, SinkFault, put_named_int, put_named_long, put_named_number, put_named_path, write_all,
};

/// Writes the line of a fault, or the text that says why the words are not understood.
#[tactic(auto, unfolding(crate::specs::FaultTexts::fault_text))]
pub fn put_fault<S: Sink>(sink: &mut S, fault: &RunFault) -> Result<(), SinkFault>
    ensures { Wrote S.taken S.may_fail sink.old result sink.new (fault_text fault.now) }
{
    match fault {
        RunFault::Words(text) => write_all(sink, text.as_bytes()),
        fault => put_line(sink, fault),
    }
}

/// Writes the line of a fault.
#[tactic(auto, unfolding(crate::specs::FaultTexts::line_text))]
fn put_line<S: Sink>(sink: &mut S, fault: &RunFault) -> Result<(), SinkFault>
    ensures { Wrote S.taken S.may_fail sink.old result sink.new (line_text fault.now) }
{
    write_all(sink, b"icescan: ")?;
    put_run_fault(sink, fault)?;
    write_all(sink, b"\n")
}

#[tactic(auto, unfolding(crate::specs::FaultTexts::run_text))]
fn put_run_fault<S: Sink>(sink: &mut S, fault: &RunFault) -> Result<(), SinkFault>
    ensures { Wrote S.taken S.may_fail sink.old result sink.new (run_text fault.now) }
{
    match fault {
        RunFault::Words(text) => write_all(sink, text.as_bytes()),
        RunFault::Input => write_all(sink, b"P3 Device -"),
        RunFault::Bundle(line) => put_named_number(sink, b"B1 Bundle ", *line),
        RunFault::Absent(path) => put_named_path(sink, b"P2 Absent ", path.as_bytes()),
        RunFault::Device(path) => put_named_path(sink, b"P3 Device ", path.as_bytes()),
        RunFault::List(fault) => put_list_fault(sink, fault),
        RunFault::Scan(fault) => put_scan_fault(sink, *fault),
        RunFault::Finish(fault) => put_finish_fault(sink, fault),
        RunFault::Metadata(fault) => put_meta_fault(sink, fault),
        RunFault::Filter(fault) => put_filter_fault(sink, *fault),
        RunFault::Drill(fault) => put_drill_fault(sink, fault),
        RunFault::Locate(fault) => put_newest_fault(sink, fault),
        RunFault::Lineage(fault) => put_lineage_fault(sink, *fault),
        RunFault::State(path, flaw) => put_state_fault(sink, path.as_bytes(), *flaw),
        RunFault::Change(fault) => put_change_fault(sink, *fault),
        RunFault::Prepare(fault) => put_prepare_fault(sink, fault),
        RunFault::Conflict(path) => put_named_path(sink, b"Conflict ", path.as_bytes()),
        RunFault::Workers => write_all(sink, b"P5 Workers"),
        RunFault::Write => write_all(sink, b"W1 Write"),
        RunFault::Memory => write_all(sink, b"Memory"),
    }
}

#[tactic(auto, unfolding(crate::specs::FaultTexts::newest_text))]
fn put_newest_fault<S: Sink>(sink: &mut S, fault: &NewestFault) -> Result<(), SinkFault>
    ensures { Wrote S.taken S.may_fail sink.old result sink.new (newest_text fault.now) }
{
    match fault {
        NewestFault::NoFolder => write_all(sink, b"P6 NoFolder"),
        NewestFault::NoMetadata => write_all(sink, b"P7 NoMetadata"),
        NewestFault::TwoOfOneNumber(first, second) => {
            put_named_path(sink, b"P8 TwoOfOneNumber ", first.as_bytes())?;
            put_named_path(sink, b" ", second.as_bytes())
        }
        NewestFault::Compressed(name) => put_named_path(sink, b"P9 Compressed ", name.as_bytes()),
        NewestFault::Memory => write_all(sink, b"Memory"),
    }
}

#[tactic(auto, unfolding(crate::specs::FaultTexts::lineage_text))]
fn put_lineage_fault<S: Sink>(sink: &mut S, fault: LineageFault) -> Result<(), SinkFault>
    ensures { Wrote S.taken S.may_fail sink.old result sink.new (lineage_text fault) }
{
    match fault {
        LineageFault::NotAppended(id) => put_named_long(sink, b"L1 NotAppended ", id),
        LineageFault::NotAncestor => write_all(sink, b"L2 NotAncestor"),
    }
}

fn put_state_fault<S: Sink>(sink: &mut S, path: &[u8], flaw: StateFlaw) -> Result<(), SinkFault>
    ensures { Wrote S.taken S.may_fail sink.old result sink.new (state_text path.now flaw) }
{
    put_named_path(sink, flaw.name(), path)
}

#[tactic(auto, unfolding(crate::specs::FaultTexts::drill_fault_text))]
fn put_drill_fault<S: Sink>(sink: &mut S, fault: &DrillFault) -> Result<(), SinkFault>
    ensures { Wrote S.taken S.may_fail sink.old result sink.new (drill_fault_text fault.now) }
{
    match fault {
        DrillFault::Conflict => write_all(sink, b"Conflict"),
        DrillFault::Lost(path) => put_named_path(sink, b"Lost ", path.as_bytes()),
    }
}

#[tactic(auto, unfolding(crate::specs::FaultTexts::meta_text))]
fn put_meta_fault<S: Sink>(sink: &mut S, fault: &MetaFault) -> Result<(), SinkFault>
    ensures { Wrote S.taken S.may_fail sink.old result sink.new (meta_text fault.now) }
{
    match fault {
        MetaFault::NotJson => write_all(sink, b"M1 NotJson"),
        MetaFault::Version(n) => put_named_long(sink, b"M2 Version ", *n),
        MetaFault::Missing(member) => put_member(sink, b"M3 Missing ", *member),
        MetaFault::WrongKind(member) => put_member(sink, b"M4 WrongKind ", *member),
        MetaFault::UnknownType(text) => put_named_path(sink, b"M5 UnknownType ", text.as_bytes()),
        MetaFault::NoSuchRef => write_all(sink, b"M6 NoSuchRef"),
        MetaFault::NoSuchSnapshot => write_all(sink, b"M7 NoSuchSnapshot"),
        MetaFault::NoSnapshot => write_all(sink, b"M8 NoSnapshot"),
        MetaFault::IdTwice(id) => put_named_long(sink, b"M9 IdTwice ", *id),
        MetaFault::Memory => write_all(sink, b"M10 Memory"),
        MetaFault::Dangling(member) => put_member(sink, b"M11 Dangling ", *member),
        MetaFault::TooBig => write_all(sink, b"M12 TooBig"),
    }
}

#[tactic(auto, unfolding(crate::specs::FaultTexts::filter_text))]
fn put_filter_fault<S: Sink>(sink: &mut S, fault: FilterFault) -> Result<(), SinkFault>
    ensures { Wrote S.taken S.may_fail sink.old result sink.new (filter_text fault) }
{
    match fault {
        FilterFault::Syntax(offset) => put_named_number(sink, b"F1 Syntax ", offset),
        FilterFault::NoSuchColumn => write_all(sink, b"F2 NoSuchColumn"),
        FilterFault::WrongLiteral => write_all(sink, b"F3 WrongLiteral"),
        FilterFault::NotComparable => write_all(sink, b"F4 NotComparable"),
        FilterFault::TooBig => write_all(sink, b"F5 TooBig"),
        FilterFault::Memory => write_all(sink, b"F6 Memory"),
    }
}

#[tactic(auto, unfolding(crate::specs::FaultTexts::change_text))]
fn put_change_fault<S: Sink>(sink: &mut S, fault: ChangeFault) -> Result<(), SinkFault>
    ensures { Wrote S.taken S.may_fail sink.old result sink.new (change_text fault) }
{
    match fault {
        ChangeFault::NotJson => write_all(sink, b"C1 BadChange -"),
        ChangeFault::Bad(member) => {
            write_all(sink, b"C1 BadChange ")?;
            write_all(sink, member.name().as_bytes())
        }
        ChangeFault::Memory => write_all(sink, b"Memory"),
    }
}

#[tactic(auto, unfolding(crate::specs::FaultTexts::prepare_text))]
fn put_prepare_fault<S: Sink>(sink: &mut S, fault: &PrepareFault) -> Result<(), SinkFault>
    ensures { Wrote S.taken S.may_fail sink.old result sink.new (prepare_text fault.now) }
{
    match fault {
        PrepareFault::SnapshotTaken => write_all(sink, b"K1 SnapshotTaken"),
        PrepareFault::PathTaken(path) => put_named_path(sink, b"K2 PathTaken ", path.as_bytes()),
        PrepareFault::PathTwice(path) => put_named_path(sink, b"K3 PathTwice ", path.as_bytes()),
        PrepareFault::Empty => write_all(sink, b"K4 Empty"),
        PrepareFault::NoSuchSpec(id) => put_named_int(sink, b"K5 NoSuchSpec ", *id),
        PrepareFault::WrongTuple(path) => put_named_path(sink, b"K6 WrongTuple ", path.as_bytes()),
        PrepareFault::SequenceEnd => write_all(sink, b"K7 SequenceEnd"),
        PrepareFault::BaseBad(path) => put_named_path(sink, b"K8 BaseBad ", path.as_bytes()),
        PrepareFault::Memory => write_all(sink, b"K9 Memory"),
        PrepareFault::BadFile(path) => put_named_path(sink, b"K10 BadFile ", path.as_bytes()),
        PrepareFault::TooManyRows => write_all(sink, b"K11 TooManyRows"),
        PrepareFault::OutOfOrder => write_all(sink, b"K12 OutOfOrder"),
    }
}

/// Writes a name and the member that it is about.
fn put_member<S: Sink>(sink: &mut S, name: &[u8], member: Member) -> Result<(), SinkFault>
    ensures { Wrote S.taken S.may_fail sink.old result sink.new (name.now ++ member_name member) }
{
    write_all(sink, name)?;
    write_all(sink, member.name().as_bytes())
}

#[tactic(auto, unfolding(crate::specs::FaultTexts::finish_text))]
fn put_finish_fault<S: Sink>(sink: &mut S, fault: &FinishFault) -> Result<(), SinkFault>
    ensures { Wrote S.taken S.may_fail sink.old result sink.new (finish_text fault.now) }
{
    match fault {
        FinishFault::Missing(path) => put_named_path(sink, b"Z1 Missing ", path.as_bytes()),
        FinishFault::Bad(path, fault) => {
            put_named_path(sink, b"Z2 Bad ", path.as_bytes())?;
            write_all(sink, b" ")?;
            put_manifest_fault(sink, fault)
        }
        FinishFault::PathTwice(path) => put_named_path(sink, b"Z3 PathTwice ", path.as_slice()),
        FinishFault::Memory => write_all(sink, b"Z4 Memory"),
    }
}

#[tactic(auto, unfolding(crate::specs::FaultTexts::scan_text))]
fn put_scan_fault<S: Sink>(sink: &mut S, fault: ScanFault) -> Result<(), SinkFault>
    ensures { Wrote S.taken S.may_fail sink.old result sink.new (scan_text fault) }
{
    match fault {
        ScanFault::NoSuchSpec(id) => put_named_int(sink, b"X1 NoSuchSpec ", id),
        ScanFault::Memory => write_all(sink, b"X2 Memory"),
    }
}

#[tactic(auto, unfolding(crate::specs::FaultTexts::list_text))]
fn put_list_fault<S: Sink>(sink: &mut S, fault: &ListFault) -> Result<(), SinkFault>
    ensures { Wrote S.taken S.may_fail sink.old result sink.new (list_text fault.now) }
{
    match fault {
        ListFault::Avro(fault) => {
            write_all(sink, b"N1 Avro ")?;
            put_avro_fault(sink, fault)
        }
        ListFault::MissingField(id) => put_named_int(sink, b"N2 MissingField ", *id),
        ListFault::WrongFieldType(id) => put_named_int(sink, b"N3 WrongFieldType ", *id),
        ListFault::OutOfRange(id) => put_named_int(sink, b"N4 OutOfRange ", *id),
        ListFault::BadContent => write_all(sink, b"N6 BadContent"),
        ListFault::ManifestTwice(path) => put_named_path(
            sink,
            b"N9 ManifestTwice ",
            path.as_bytes(),
        ),
        ListFault::Memory => write_all(sink, b"N10 Memory"),
        ListFault::TooManyRows => write_all(sink, b"N11 TooManyRows"),
    }
}

#[tactic(auto, unfolding(crate::specs::FaultTexts::manifest_text))]
fn put_manifest_fault<S: Sink>(sink: &mut S, fault: &ManifestFault) -> Result<(), SinkFault>
    ensures { Wrote S.taken S.may_fail sink.old result sink.new (manifest_text fault.now) }
{
    match fault {
        ManifestFault::Avro(fault) => {
            write_all(sink, b"N1 Avro ")?;
            put_avro_fault(sink, fault)
        }
        ManifestFault::MissingField(id) => put_named_int(sink, b"N2 MissingField ", *id),
        ManifestFault::WrongFieldType(id) => put_named_int(sink, b"N3 WrongFieldType ", *id),
        ManifestFault::OutOfRange(id) => put_named_int(sink, b"N4 OutOfRange ", *id),
        ManifestFault::BadStatus => write_all(sink, b"N5 BadStatus"),
        ManifestFault::BadContent => write_all(sink, b"N6 BadContent"),
        ManifestFault::NoSequence => write_all(sink, b"N7 NoSequence"),
        ManifestFault::FloatPartition(id) => put_named_int(sink, b"N8 FloatPartition ", *id),
        ManifestFault::Memory => write_all(sink, b"N10 Memory"),
    }
}

#[tactic(auto, unfolding(crate::specs::FaultTexts::avro_text))]
fn put_avro_fault<S: Sink>(sink: &mut S, fault: &AvroFault) -> Result<(), SinkFault>
    ensures { Wrote S.taken S.may_fail sink.old result sink.new (avro_text fault.now) }
{
    match fault {
        AvroFault::NotAvro => write_all(sink, b"V1 NotAvro"),
        AvroFault::Codec(name) => put_named_path(sink, b"V2 Codec ", name.as_slice()),
        AvroFault::Truncated(offset) => put_named_number(sink, b"V3 Truncated ", *offset),
        AvroFault::BadNumber => write_all(sink, b"V4 BadNumber"),
        AvroFault::BadUnion => write_all(sink, b"V5 BadUnion"),
        AvroFault::BadUtf8 => write_all(sink, b"V6 BadUtf8"),
        AvroFault::BadSync => write_all(sink, b"V7 BadSync"),
        AvroFault::BlockSize => write_all(sink, b"V8 BlockSize"),
        AvroFault::Schema(fault) => {
            write_all(sink, b"V9 Schema ")?;
            put_schema_fault(sink, *fault)
        }
        AvroFault::Memory => write_all(sink, b"V10 Memory"),
        AvroFault::BadBoolean => write_all(sink, b"V11 BadBoolean"),
        AvroFault::TooManyItems => write_all(sink, b"V12 TooManyItems"),
    }
}

#[tactic(auto, unfolding(crate::specs::FaultTexts::schema_text))]
fn put_schema_fault<S: Sink>(sink: &mut S, fault: SchemaFault) -> Result<(), SinkFault>
    ensures { Wrote S.taken S.may_fail sink.old result sink.new (schema_text fault) }
{
    match fault {
        SchemaFault::NotJson => write_all(sink, b"S1 NotJson"),
        SchemaFault::UnknownType => write_all(sink, b"S2 UnknownType"),
        SchemaFault::UnknownName => write_all(sink, b"S3 UnknownName"),
        SchemaFault::Recursive => write_all(sink, b"S4 Recursive"),
        SchemaFault::TooBig => write_all(sink, b"S5 TooBig"),
        SchemaFault::FieldTwice(id) => put_named_int(sink, b"S6 FieldTwice ", id),
        SchemaFault::Memory => write_all(sink, b"S7 Memory"),
        SchemaFault::NameTwice => write_all(sink, b"S8 NameTwice"),
    }
}
