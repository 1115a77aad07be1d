//! Objects of JSON, each in a line of its own.

ghost use Rattle.std.specs.Prelude.{◌≡◌, map};
ghost use Rattle.serde_json.specs.Data.{boolean};
ghost use Rattle.serde_json.specs.Written.{compact_text};
ghost use Rattle.icescan_forms.specs.Objects.{id_if, member_of, object_line, text_if, value_json};
ghost use Rattle.icescan_forms.specs.ObjectTexts.{member_text, members_sent};
ghost use Rattle.icescan_print.specs.Written.{Sent};

use crate::pieces::{comma_before, put_quoted};
use contract_words::Text;
use icescan_print::{Page, Sink, SinkFault};

/// The value of a member.
#[derive(Debug, Drop)]
pub enum Value<'a> {
    /// There is none.
    Null,
    Truth(bool),
    Int(i32),
    Long(i64),
    /// A sum of longs.
    Sum(i128),
    /// How many there are.
    Count(u128),
    Text(&'a [u8]),
}

impl<'a> Value<'a> {
    /// A text, where there is one.
    pub fn text_if(text: &'a Option<Text>) -> Value<'a>
        ensures { value_json result ≡ text_if text.now }
    {
        match text {
            Some(text) => Value::Text(text.as_bytes()),
            None => Value::Null,
        }
    }

    /// An id, where there is one.
    pub fn id_if(id: Option<i64>) -> Value<'a>
        ensures { value_json result ≡ id_if id }
    {
        match id {
            Some(id) => Value::Long(id),
            None => Value::Null,
        }
    }
}

fn truth_word(truth: bool) -> &'static [u8]
    ensures { result.now ≡ compact_text (boolean truth) }
{
    if truth { b"true" } else { b"false" }
}

/// Sends a value.
fn put_value<S: Sink>(page: &mut Page, sink: &mut S, value: &Value<'_>) -> Result<(), SinkFault>
    ensures { Sent S.taken S.may_fail sink.old page.old result sink.new page.new
        (compact_text (value_json value.now)) }
{
    match value {
        Value::Null => page.put(sink, b"null"),
        Value::Truth(truth) => page.put(sink, truth_word(*truth)),
        Value::Int(number) => page.put_number(sink, *number),
        Value::Long(number) => page.put_number(sink, *number),
        Value::Sum(sum) => page.put_number(sink, *sum),
        Value::Count(count) => page.put_number(sink, *count),
        Value::Text(text) => put_quoted(page, sink, text),
    }
}

/// Sends a member.
fn put_member<S: Sink>(
    page: &mut Page,
    sink: &mut S,
    member: &(&str, Value<'_>),
) -> Result<(), SinkFault>
    ensures { Sent S.taken S.may_fail sink.old page.old result sink.new page.new (member_text (member_of member.now)) }
{
    put_quoted(page, sink, member.0.as_bytes())?;
    page.put(sink, b":")?;
    put_value(page, sink, &member.1)
}

/// Sends members, with commas between them.
fn put_members<S: Sink>(
    page: &mut Page,
    sink: &mut S,
    members: &[(&str, Value<'_>)],
) -> Result<(), SinkFault>
    ensures { Sent S.taken S.may_fail sink.old page.old result sink.new page.new (members_sent members.now) }
{
    for (i, member) in members.iter().enumerate() {
        page.put(sink, comma_before(i))?;
        put_member(page, sink, member)?;
    }
    Ok(())
}

/// Sends an object of these members, in their order, as a line without spaces.
pub fn put_object<S: Sink>(
    page: &mut Page,
    sink: &mut S,
    members: &[(&str, Value<'_>)],
) -> Result<(), SinkFault>
    ensures { Sent S.taken S.may_fail sink.old page.old result sink.new page.new
        (object_line (map member_of members.now)) }
{
    page.put(sink, b"{")?;
    put_members(page, sink, members)?;
    page.put(sink, b"}\n")
}
