//! The words of refusals of bundles, of files that are read and written, and of all others by those that know them.

use crate::avro::of_container;
use crate::commit::{of_change, of_prepare};
use crate::drill::of_drill;
use crate::lineage::of_lineage;
use crate::manifest::{of_list, of_manifest};
use crate::metadata::of_metadata;
use crate::plan::{of_finish, of_scan};
use crate::schema::of_schema;
use crate::state::of_state;
use avro_file::AvroFault;
use ice_manifest_reading::{ListFault, ManifestFault};
use ice_meta_files::NewestFault;
use ice_state::FinishFault;
use icescan_hint_texts::{MEMORY, Sentence, of_filter};
use icescan_text::RunFault;
use std::alloc::{AllocError, Global};

const BUNDLE: Sentence = Sentence {
    name: "B1 Bundle",
    wrong: "the line of that number, from 1, is not a path, one space and bytes in hexadecimal; or an
earlier line has the path; or the bundle is empty",
    advice: Some("look at that line; escape bytes of the path, and only those that need it"),
};

const ABSENT: Sentence = Sentence {
    name: "P2 Absent",
    wrong: "the path does not begin with the prefix, or has a segment `.` or `..` after it; or no such file is
below the folder, or in the bundle",
    advice: Some(
        "look whether the prefix is the front of the table's paths, mostly its location, and the folder
stands for it; where an expiry deleted the file, plan a newer snapshot",
    ),
};

const DEVICE: Sentence = Sentence {
    name: "P3 Device",
    wrong: "the file may be there, and reading it failed: a folder, a pipe or a device, links in a circle or,
with `--no-links`, any link, no right to read it, no end within 16,777,216 reads; `-` is standard input",
    advice: Some("look at its rights and at the disk; try again"),
};

const NO_FOLDER: Sentence = Sentence {
    name: "P6 NoFolder",
    wrong: "there is no folder `metadata` in the folder",
    advice: Some("name the folder of the table: the one that has its folder `metadata` in it"),
};

const NO_METADATA: Sentence = Sentence {
    name: "P7 NoMetadata",
    wrong: "the folder `metadata` has no file `vN.metadata.json`, `N.metadata.json` or
`N-ID.metadata.json`",
    advice: Some(
        "look whether this is the folder of an Iceberg table, and whether its metadata is elsewhere",
    ),
};

const TWO_OF_ONE_NUMBER: Sentence = Sentence {
    name: "P8 TwoOfOneNumber",
    wrong: "both files have the number of the newest metadata: two writers wrote it",
    advice: Some(
        "ask the table's catalog which of them is the table's, and name that one to the command",
    ),
};

const COMPRESSED: Sentence = Sentence {
    name: "P9 Compressed",
    wrong: "the newest metadata is compressed by gzip",
    advice: Some("`icescan-uncompress FOLDER COPY` unpacks it; locate the copy"),
};

const WORKERS: Sentence = Sentence {
    name: "P5 Workers",
    wrong: "the number after `--workers` is 0, or over 64",
    advice: Some("ask for 1 to 64; as many as there are processors is a good choice"),
};

const WRITE: Sentence = Sentence {
    name: "W1 Write",
    wrong: "the answer can't be written; the front of it that was written stands",
    advice: Some(
        "look at the disk or at the program that reads the answer, and throw the front away",
    ),
};

const NOT_STORED: Sentence = Sentence {
    name: "W1 Write",
    wrong: "a new file of the commit can't be put at its place, since the folder is not there, may not be
read or, with `--no-links`, is behind a link, another file is, or the path is not below the prefix; or
the file or its folder can't be synced; or the commit was made, and its answer can't be written",
    advice: Some(
        "look at the disk, and commit again under a new UUID; a commit whose metadata stands at `--out`
was made",
    ),
};

const CONFLICT: Sentence = Sentence {
    name: "Conflict",
    wrong: "a file stands at `--out` already: another commit was made before this one, and nothing names
what this one wrote; status 4",
    advice: Some("read that metadata, and commit again on it under a new UUID"),
};

/// What is said of a folder without newest metadata.
fn of_newest(fault: &NewestFault) -> Sentence {
    match fault {
        NewestFault::NoFolder => NO_FOLDER,
        NewestFault::NoMetadata => NO_METADATA,
        NewestFault::TwoOfOneNumber(_, _) => TWO_OF_ONE_NUMBER,
        NewestFault::Compressed(_) => COMPRESSED,
        NewestFault::Memory => MEMORY,
    }
}

/// What a refusal itself says, of a command that commits or of another. Of words that are not understood nothing is
/// said: their own text says all.
fn sentence_of(fault: &RunFault, commits: bool) -> Option<Sentence> {
    Some(match fault {
        RunFault::Words(_) => return None,
        RunFault::Bundle(_) => BUNDLE,
        RunFault::Absent(_) => ABSENT,
        RunFault::Input | RunFault::Device(_) => DEVICE,
        RunFault::List(fault) => of_list(fault),
        RunFault::Scan(fault) => of_scan(*fault),
        RunFault::Finish(fault) => of_finish(fault),
        RunFault::Metadata(fault) => of_metadata(fault),
        RunFault::Filter(fault) => of_filter(*fault),
        RunFault::Drill(fault) => of_drill(fault),
        RunFault::Locate(fault) => of_newest(fault),
        RunFault::Lineage(fault) => of_lineage(*fault),
        RunFault::State(_, flaw) => of_state(*flaw),
        RunFault::Change(fault) => of_change(*fault),
        RunFault::Prepare(fault) => of_prepare(fault),
        RunFault::Conflict(_) => CONFLICT,
        RunFault::Workers => WORKERS,
        RunFault::Write if commits => NOT_STORED,
        RunFault::Write => WRITE,
        RunFault::Memory => MEMORY,
    })
}

/// Adds what the refusals inside one say.
fn add_inner(found: &mut Vec<Sentence>, fault: &RunFault) -> Result<(), AllocError> {
    match fault {
        RunFault::List(ListFault::Avro(fault)) => add_container(found, fault),
        RunFault::Finish(FinishFault::Bad(_, fault)) => add_manifest(found, fault),
        _ => Ok(()),
    }
}

/// What a refusal says, and what those inside it say, the outermost first, of a command that commits or of another.
pub fn sentences_of(
    alloc: Global,
    fault: &RunFault,
    commits: bool,
) -> Result<Vec<Sentence>, AllocError> {
    let mut found = Vec::new(alloc);
    if let Some(sentence) = sentence_of(fault, commits) {
        found.push(sentence)?;
    }
    add_inner(&mut found, fault)?;
    Ok(found)
}

/// Adds what a refusal of a manifest says.
fn add_manifest(found: &mut Vec<Sentence>, fault: &ManifestFault) -> Result<(), AllocError> {
    found.push(of_manifest(fault))?;
    match fault {
        ManifestFault::Avro(fault) => add_container(found, fault),
        _ => Ok(()),
    }
}

/// Adds what a refusal of a container says.
fn add_container(found: &mut Vec<Sentence>, fault: &AvroFault) -> Result<(), AllocError> {
    found.push(of_container(fault))?;
    match fault {
        AvroFault::Schema(fault) => found.push(of_schema(*fault))?,
        _ => {}
    }
    Ok(())
}
