//! The form in which an answer is printed.

ghost use Rattle.std.specs.Prelude.{◌≡◌, option_map};
ghost use Rattle.icescan_words.specs.Heard.{format_by};

use icescan_forms::Format;

/// The form that the value of `--format` names.
pub fn format_by(value: Option<&str>) -> Format
    ensures { result ≡ format_by (option_map (λ s. s.now) value.entry) }
{
    match value {
        Some("json") => Format::Json,
        _ => Format::Text,
    }
}
