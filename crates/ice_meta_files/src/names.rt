//! The names of metadata files.

ghost use Rattle.std.specs.Prelude.{◌≡◌, ◌<◌, option_map};
ghost use Rattle.ice_meta.specs.Types.{with_digit};
ghost use Rattle.ice_meta_files.specs.MetadataNames.{catalog_name, cut_at, ending_of};
ghost use Rattle.ice_meta_files.specs.MetadataNames.{metadata_name, number_of};
ghost use Rattle.ice_meta_files.specs.MetadataNames.{parts, version_name, version_of, whole_ending};

/// What the name of a metadata file says.
#[derive(Clone, Copy, Debug, PartialEq, Eq)]
pub struct MetadataName {
    /// The number of the version.
    pub number: u32,
    /// Its bytes are compressed.
    pub is_compressed: bool,
}

/// The number after one more digit, where it is below 2 ^ 31.
fn with_digit(number: u32, digit: u8) -> Option<u32>
    ensures { result ≡ with_digit number digit }
{
    if !digit.is_ascii_digit() {
        return None;
    }
    let next = u64::from(number) * 10 + u64::from(digit - b'0');
    if next < 0x8000_0000 {
        Some(next as u32)
    } else {
        None
    }
}

/// The number that digits write.
pub fn number_of(digits: &[u8]) -> Option<u32>
    ensures { result ≡ number_of digits.now }
{
    if digits.is_empty() {
        return None;
    }
    let mut number = 0;
    'digits: for digit in digits {
        number = with_digit(number, *digit)?;
    }
    Some(number)
}

/// What stands before the first such mark, and after it.
fn cut_at(mark: char, name: &str) -> Option<(&str, &str)>
    requires { mark < 128 }
    ensures { option_map (λ p. parts p.0.now p.1.now) result ≡ cut_at mark name.now }
{
    match name.split_once(mark) {
        Some((front, rest)) => Some((front, rest)),
        None => None,
    }
}

/// Whether a file is compressed, by the ending of its name.
fn ending_of(rest: &[u8]) -> Option<bool>
    ensures { result ≡ ending_of rest.now }
{
    if rest.ends_with(b".gz.metadata.json") || rest.ends_with(b".metadata.json.gz") {
        Some(true)
    } else if rest.ends_with(b".metadata.json") {
        Some(false)
    } else {
        None
    }
}

/// The same, where nothing stands before the ending.
fn whole_ending(rest: &str) -> Option<bool>
    ensures { result ≡ whole_ending rest.now }
{
    match rest {
        "gz.metadata.json" | "metadata.json.gz" => Some(true),
        "metadata.json" => Some(false),
        _ => None,
    }
}

/// The number of digits, in front of which a `v` may stand.
fn version_of(front: &[u8]) -> Option<u32>
    ensures { result ≡ version_of front.now }
{
    match front {
        [b'v', digits @ ..] => number_of(digits),
        digits => number_of(digits),
    }
}

/// Of the names `vN.metadata.json` and `N.metadata.json`.
fn version_name(name: &str) -> Option<MetadataName>
    ensures { result ≡ version_name name.now }
{
    let (front, rest) = cut_at('.', name)?;
    Some(MetadataName {
        number: version_of(front.as_bytes())?,
        is_compressed: whole_ending(rest)?,
    })
}

/// Of the name `N-ID.metadata.json`.
fn catalog_name(name: &str) -> Option<MetadataName>
    ensures { result ≡ catalog_name name.now }
{
    let (front, rest) = cut_at('-', name)?;
    Some(MetadataName {
        number: number_of(front.as_bytes())?,
        is_compressed: ending_of(rest.as_bytes())?,
    })
}

/// What a name says, where it is that of a metadata file.
pub fn metadata_name(name: &str) -> Option<MetadataName>
    ensures { result ≡ metadata_name name.now }
{
    match version_name(name) {
        Some(found) => Some(found),
        None => catalog_name(name),
    }
}
