//! What entries have in common, each once, by its number.

ghost use Rattle.std.specs.Prelude.{◌≡◌, ◌<◌, ◌↔◌, [], length, IfOk, IfSome, IsTrue, List, ℕ};
ghost use Rattle.ice_state_entries.specs.InCommon.{common_of, common_at, IsCommonAt, KeepsCommons};
ghost use Rattle.ice_state_entries.specs.Alike.{AreOfKind};

use crate::common::{Common, LentCommon};
use crate::spellings::Spellings;
use contract_words::Duplicate;
use std::alloc::{AllocError, Global};
use std::marker::Model;

/// What entries have in common, by number.
#[derive(Drop)]
pub(crate) struct Commons {
    list: Vec<Common>,
    /// The number that was found last.
    last: u32,
    spellings: Spellings,
}

impl Model for Commons {
    ghost use Rattle.std.specs.Prelude.{List};
    ghost use Rattle.ice_state_entries.specs.declared.common.Common.{Common};

    ghost Value = { List Common };

    ghost view = { λ c. c.list.items };
}

impl Commons {
    /// None yet.
    pub(crate) fn new(alloc: Global) -> Commons
        ensures { result ≡ [] }
    {
        Commons {
            list: Vec::new(alloc),
            last: 0,
            spellings: Spellings::new(alloc),
        }
    }

    /// The one with a number.
    pub(crate) fn get(&self, number: u32) -> &Common
        requires { number < length self.now }
        ensures { result.now ≡ common_at self.now number }
    {
        &self.list[number as usize]
    }

    /// Whether the files of two hold the same and are of one partition.
    pub(crate) fn are_of_kind(&self, a: u32, b: u32) -> bool
        requires first { a < length self.now }
        requires second { b < length self.now }
        ensures { IsTrue result ↔ AreOfKind (common_at self.now a) (common_at self.now b) }
    {
        a == b || self.get(a).is_of_kind_of(self.get(b))
    }

    /// Whether one has this number.
    fn is_at(&self, number: u32, wanted: &LentCommon<'_>) -> bool
        ensures { IsTrue result → IsCommonAt self.now number (common_of wanted.now) }
    {
        match self.list.get(number as usize) {
            Some(common) => common.is(wanted),
            None => false,
        }
    }

    /// The number of one that is there under its spelling.
    fn find_spelled(&mut self, wanted: &LentCommon<'_>) -> Result<Option<u32>, AllocError>
        ensures same { self.new ≡ self.old }
        ensures found { IfOk result (λ found. IfSome found (λ number.
            IsCommonAt self.new number (common_of wanted.now))) }
    {
        let Some(number) = self.spellings.find(wanted)? else {
            return Ok(None);
        };
        if self.is_at(number, wanted) {
            Ok(Some(number))
        } else {
            Ok(None)
        }
    }

    /// The number of one, which is put last if it is not found. Those that were there keep their numbers, also where
    /// memory is refused.
    pub(crate) fn number(
        &mut self,
        alloc: Global,
        wanted: &LentCommon<'_>,
    ) -> Result<u32, AllocError>
        ensures keeps { KeepsCommons self.old self.new }
        ensures ok { IfOk result (λ number. IsCommonAt self.new number (common_of wanted.now)) }
    {
        if self.is_at(self.last, wanted) {
            return Ok(self.last);
        }
        let number = match self.find_spelled(wanted)? {
            Some(number) => number,
            None => self.push(alloc, wanted)?,
        };
        self.last = number;
        Ok(number)
    }

    /// Puts one last that was looked for last.
    fn push(&mut self, alloc: Global, wanted: &LentCommon<'_>) -> Result<u32, AllocError>
        ensures keeps { KeepsCommons self.old self.new }
        ensures ok { IfOk result (λ number. IsCommonAt self.new number (common_of wanted.now)) }
    {
        let common = wanted.copy(alloc)?;
        let Ok(number) = u32::try_from(self.list.len()) else {
            return Err(AllocError);
        };
        self.list.reserve(1)?;
        self.spellings.put(number)?;
        self.list.push_reserved(common);
        Ok(number)
    }

    /// The same by the same numbers.
    pub(crate) fn copy(&self, alloc: Global) -> Result<Commons, AllocError>
        ensures { IfOk result (λ copied. copied ≡ self.now) }
    {
        Ok(Commons {
            list: Common::copy_slice(self.list.as_slice(), alloc)?,
            last: self.last,
            spellings: self.spellings.copy(alloc)?,
        })
    }
}
