//! The formats that files of a table are in.

ghost use Rattle.std.specs.Prelude.{◌≡◌, Some};
ghost use Rattle.ice_value.specs.Formats.{format_name, format_named};

/// A file format that the table format names.
#[derive(Clone, Copy, Debug, PartialEq, Eq)]
pub enum FileFormat {
    Avro,
    Orc,
    Parquet,
}

impl FileFormat {
    /// The format with this name, whose letters may be of either case: some writers say `PARQUET`. None where no format
    /// has the name.
    #[tactic(auto, unfolding(crate::specs::Formats::format_named))]
    pub fn parse(name: &str) -> Option<FileFormat>
        ensures { result ≡ format_named name.now }
    {
        if "avro".eq_ignore_ascii_case(name) {
            Some(FileFormat::Avro)
        } else if "orc".eq_ignore_ascii_case(name) {
            Some(FileFormat::Orc)
        } else if "parquet".eq_ignore_ascii_case(name) {
            Some(FileFormat::Parquet)
        } else {
            None
        }
    }

    /// Its name, in lower case.
    pub fn name(self) -> &'static str
        ensures { result.now ≡ format_name self }
    {
        match self {
            FileFormat::Avro => "avro",
            FileFormat::Orc => "orc",
            FileFormat::Parquet => "parquet",
        }
    }
}

/// Each format is the one that its name names.
pub fn names_of_formats()
    ensures { (format : FileFormat) → format_named (format_name format) ≡ Some format }
{}
