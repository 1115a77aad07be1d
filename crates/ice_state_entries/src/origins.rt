//! The commits that entries came from, each once, by its number.

ghost use Rattle.std.specs.Prelude.{◌≡◌, ◌<◌, ◌↔◌, [], length, IfOk, IfSome, IsTrue};
ghost use Rattle.ice_state_entries.specs.CameFrom.{origin_at, AreOfOneNumber, IsOriginAt, KeepsOrigins};

use crate::origin::Origin;
use crate::spellings::Spellings;
use std::alloc::{AllocError, Global};
use std::marker::Model;

/// Origins by number.
#[derive(Drop)]
pub(crate) struct Origins {
    list: Vec<Origin>,
    /// The number that was found last.
    last: u32,
    spellings: Spellings,
}

impl Model for Origins {
    ghost use Rattle.std.specs.Prelude.{List};
    ghost use Rattle.ice_state_entries.specs.CameFrom.{CameFrom};

    ghost Value = { List CameFrom };

    ghost view = { λ o. o.list.items };
}

impl Origins {
    /// None yet.
    pub(crate) fn new(alloc: Global) -> Origins
        ensures { result ≡ [] }
    {
        Origins {
            list: Vec::new(alloc),
            last: 0,
            spellings: Spellings::new(alloc),
        }
    }

    /// The one with a number.
    pub(crate) fn get(&self, number: u32) -> Origin
        requires { number < length self.now }
        ensures { result ≡ origin_at self.now number }
    {
        self.list[number as usize]
    }

    /// Whether two have the same sequence number.
    pub(crate) fn are_of_one_number(&self, a: u32, b: u32) -> bool
        requires first { a < length self.now }
        requires second { b < length self.now }
        ensures { IsTrue result ↔ AreOfOneNumber (origin_at self.now a) (origin_at self.now b) }
    {
        a == b || self.get(a).sequence_number == self.get(b).sequence_number
    }

    /// Whether one has this number.
    fn is_at(&self, number: u32, wanted: &Origin) -> bool
        ensures { IsTrue result → IsOriginAt self.now number wanted.now }
    {
        match self.list.get(number as usize) {
            Some(origin) => origin == wanted,
            None => false,
        }
    }

    /// The number of one that is there under its spelling.
    fn find_spelled(&mut self, wanted: &Origin) -> Result<Option<u32>, AllocError>
        ensures same { self.new ≡ self.old }
        ensures found { IfOk result (λ found. IfSome found (λ number. IsOriginAt self.new number wanted.now)) }
    {
        let Some(number) = self.spellings.find(wanted)? else {
            return Ok(None);
        };
        if self.is_at(number, wanted) {
            Ok(Some(number))
        } else {
            Ok(None)
        }
    }

    /// The number of one, which is put last if it is not found. Those that were there keep their numbers, also where
    /// memory is refused.
    pub(crate) fn number(&mut self, wanted: &Origin) -> Result<u32, AllocError>
        ensures keeps { KeepsOrigins self.old self.new }
        ensures ok { IfOk result (λ number. IsOriginAt self.new number wanted.now) }
    {
        if self.is_at(self.last, wanted) {
            return Ok(self.last);
        }
        let number = match self.find_spelled(wanted)? {
            Some(number) => number,
            None => self.push(wanted)?,
        };
        self.last = number;
        Ok(number)
    }

    /// Puts one last that was looked for last.
    fn push(&mut self, wanted: &Origin) -> Result<u32, AllocError>
        ensures keeps { KeepsOrigins self.old self.new }
        ensures ok { IfOk result (λ number. IsOriginAt self.new number wanted.now) }
    {
        let Ok(number) = u32::try_from(self.list.len()) else {
            return Err(AllocError);
        };
        self.list.reserve(1)?;
        self.spellings.put(number)?;
        self.list.push_reserved(*wanted);
        Ok(number)
    }

    /// The same by the same numbers.
    pub(crate) fn copy(&self, alloc: Global) -> Result<Origins, AllocError>
        ensures { IfOk result (λ copied. copied ≡ self.now) }
    {
        Ok(Origins {
            list: self.list.as_slice().to_vec(alloc)?,
            last: self.last,
            spellings: self.spellings.copy(alloc)?,
        })
    }
}
