//! What is told of the commits and explanations that handles hold.

ghost use Rattle.std.specs.Prelude.{◌≡◌, Err, IfErr, IfOk, Ok};
ghost use Rattle.icescan_c.specs.Readings.{IsCount, Tells, added_in, at_place, bytes_of, count_of, metadata_in};
ghost use Rattle.icescan_c.specs.Readings.{name_of, next_in};
ghost use Rattle.icescan_c_files.specs.Lent.{AreLent};
ghost use Rattle.icescan_c_requests.specs.Statuses.{status_of};

use crate::held::Held;
use contract_words::{Items, Text};
use icescan_c_lent::Bytes;
use icescan_c_requests::Refusal;

impl Held {
    /// The files that a commit adds, each with its path.
    fn added(&self) -> Result<&[(Text, Items<u8>)], Refusal>
        ensures files { IfOk result (λ files. added_in self.now ≡ Ok files.now) }
        ensures none { IfErr result (λ refused. added_in self.now ≡ Err refused) }
    {
        match self {
            Held::Commit(files) => Ok(files.added.as_slice()),
            _ => Err(Refusal::Kind),
        }
    }

    /// The path of the file of a table that a commit or an explanation wants next.
    fn next(&self) -> Result<&Text, Refusal>
        ensures path { IfOk result (λ path. next_in self.now ≡ Ok path.now) }
        ensures none { IfErr result (λ refused. next_in self.now ≡ Err refused) }
    {
        let next = match self {
            Held::Change(commit) => commit.files.next(),
            Held::Explanation(explanation) => explanation.files.next(),
            _ => return Err(Refusal::Kind),
        };
        match next {
            Some(path) => Ok(path),
            None => Err(Refusal::PastEnd),
        }
    }

    /// Lends the path of the file of a table that a commit or an explanation wants next.
    pub fn lend_next(&self, path: &mut Bytes) -> Result<(), Refusal>
        ensures { Tells AreLent (next_in self.now) path.old (status_of result) path.new }
    {
        *path = Bytes::of(self.next()?.as_bytes());
        Ok(())
    }

    /// Tells how many files a commit adds.
    pub fn count_added(&self, count: &mut usize) -> Result<(), Refusal>
        ensures { Tells IsCount (count_of (added_in self.now)) count.old (status_of result) count.new }
    {
        *count = self.added()?.len();
        Ok(())
    }

    /// Lends a file that a commit adds: its path, and its bytes.
    pub fn lend_added(&self, i: usize, path: &mut Bytes, bytes: &mut Bytes) -> Result<(), Refusal>
        ensures path { Tells AreLent (name_of (at_place (added_in self.now) i)) path.old (status_of result) path.new }
        ensures bytes { Tells AreLent (bytes_of (at_place (added_in self.now) i)) bytes.old (status_of result)
            bytes.new }
    {
        match self.added()?.get(i) {
            Some(file) => {
                *path = Bytes::of(file.0.as_bytes());
                *bytes = Bytes::of(file.1.as_slice());
                Ok(())
            }
            None => Err(Refusal::PastEnd),
        }
    }

    /// Lends the bytes of the metadata file that a commit writes.
    pub fn lend_metadata(&self, bytes: &mut Bytes) -> Result<(), Refusal>
        ensures { Tells AreLent (metadata_in self.now) bytes.old (status_of result) bytes.new }
    {
        match self {
            Held::Commit(files) => {
                *bytes = Bytes::of(files.metadata.as_slice());
                Ok(())
            }
            _ => Err(Refusal::Kind),
        }
    }
}
