//! The name of a scan, by which its states know each other.

ghost use Rattle.std.specs.Prelude.{◌≡◌, ◌++◌, ℕ, List};
ghost use Rattle.sha2.specs.Hashers.{Holds256};
ghost use Rattle.icescan_shares.specs.Names.{filter_text, run, scan_name, target_text};

use contract_words::Text;
use ice_meta::Target;
use icescan_text::Request;
use sha2::{Digest, Sha256};

/// Adds bytes, and before them how many they are.
fn add_run(hasher: &mut Sha256, bytes: &[u8])
    ensures { (text : List ℕ) → Holds256 hasher.old text → Holds256 hasher.new (text ++ run bytes.now) }
{
    let length = bytes.len() as u64;
    hasher.update(&length.to_be_bytes());
    hasher.update(bytes);
}

/// Adds which snapshot is asked for.
fn add_target(hasher: &mut Sha256, target: &Target)
    ensures { (text : List ℕ) → Holds256 hasher.old text → Holds256 hasher.new (text ++ target_text target.now) }
{
    match target {
        Target::Main => hasher.update(&[0u8]),
        Target::Ref(name) => {
            hasher.update(&[1u8]);
            add_run(hasher, name.as_bytes());
        }
        Target::Snapshot(id) => {
            hasher.update(&[2u8]);
            hasher.update(&id.to_be_bytes());
        }
    }
}

/// Adds the text of the filter, where there is one.
fn add_filter(hasher: &mut Sha256, filter: &Option<Text>)
    ensures { (text : List ℕ) → Holds256 hasher.old text → Holds256 hasher.new (text ++ filter_text filter.now) }
{
    match filter {
        Some(filter) => {
            hasher.update(&[1u8]);
            add_run(hasher, filter.as_bytes());
        }
        None => hasher.update(&[0u8]),
    }
}

/// The name of the scan that a request asks for of the table whose metadata and manifest list these are the bytes of.
pub fn scan_name(metadata: &[u8], list: &[u8], request: &Request) -> [u8; 32]
    ensures { result ≡ scan_name metadata.now list.now request.now }
{
    let mut hasher = Sha256::new();
    add_run(&mut hasher, metadata);
    add_run(&mut hasher, list);
    add_target(&mut hasher, &request.target);
    add_filter(&mut hasher, &request.filter);
    hasher.finalize()
}
