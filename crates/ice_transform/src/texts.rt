//! Texts and byte strings cut to a width.

ghost use Rattle.std.specs.Prelude.{◌≡◌, ◌≤◌, ◌↔◌, IsTrue, length, take};
ghost use Rattle.std.specs.Str.{continuation_len, chars};
ghost use Rattle.ice_transform.specs.Cuts.{first_points, has_points};

/// How many bytes follow the first byte of a code point.
fn follow(lead: u8) -> u8
    ensures { result ≡ continuation_len lead }
{
    if lead < 128 {
        0
    } else if lead < 224 {
        1
    } else if lead < 240 {
        2
    } else {
        3
    }
}

/// How many bytes the first code points of the text have.
fn cut_length(text: &[u8], width: usize) -> usize
    ensures within { result ≤ length text.now }
    ensures cut { take result text.now ≡ first_points width text.now }
{
    let mut left = width;
    let mut open = 0u8;
    'bytes: for (at, byte) in text.iter().enumerate() {
        if open > 0 {
            open -= 1;
        } else if left > 0 {
            left -= 1;
            open = follow(*byte);
        } else {
            return at;
        }
    }
    text.len()
}

/// The first code points of the text.
pub fn first_points(text: &str, width: usize) -> &str
    ensures { result.now ≡ first_points width text.now }
{
    let end = cut_length(text.as_bytes(), width);
    &text[..end]
}

/// How many code points the text has.
fn count_points(text: &str) -> usize
    ensures { result ≡ length (chars text.now) }
{
    text.chars().count()
}

/// Whether the text has at least so many code points.
pub fn has_points(text: &str, width: usize) -> bool
    ensures test { result ≡ has_points width text.now }
    ensures means { IsTrue result ↔ (width ≤ length (chars text.now)) }
{
    count_points(text) >= width
}

/// The first bytes.
pub fn first_bytes(bytes: &[u8], width: usize) -> &[u8]
    ensures { result.now ≡ take width bytes.now }
{
    if width < bytes.len() {
        &bytes[..width]
    } else {
        bytes
    }
}
