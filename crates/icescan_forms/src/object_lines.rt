//! Lines of JSON that are made in memory.

ghost use Rattle.std.specs.Prelude.{◌≡◌, ◌++◌, [], IfOk, OnOk, map};
ghost use Rattle.json.specs.Print.{quoted};
ghost use Rattle.icescan_forms.specs.Objects.{member_of, object_line};
ghost use Rattle.icescan_print.specs.Pieces.{named_signed};

use crate::objects::{Value, put_object};
use crate::pieces::put_quoted;
use icescan_print::Page;
use itoa::Integer;
use std::alloc::{AllocError, Global};
use std::marker::Model;

/// Lines of JSON that are made in memory: whole objects, or lines that are put together piece by piece.
#[derive(Debug, Drop)]
pub struct ObjectLines {
    /// Those that were sent.
    pub text: Vec<u8>,
    /// The last of them wait here.
    pub page: Page,
}

impl Model for ObjectLines {
    ghost use Rattle.std.specs.Prelude.{List, ℕ, ◌++◌};

    ghost Value = { List ℕ };

    ghost view = { λ l. l.text.items ++ l.page };
}

impl ObjectLines {
    /// No lines.
    pub fn new(alloc: Global) -> Result<ObjectLines, AllocError>
        ensures { IfOk result (λ lines. lines ≡ []) }
    {
        Ok(ObjectLines {
            text: Vec::new(alloc),
            page: Page::new(alloc)?,
        })
    }

    /// Puts an object of these members last.
    pub fn push(&mut self, members: &[(&str, Value<'_>)]) -> Result<(), AllocError>
        ensures { OnOk result (self.new ≡ self.old ++ object_line (map member_of members.now)) }
    {
        put_object(&mut self.page, &mut self.text, members).map_err(|_| AllocError)
    }

    /// Puts a piece last.
    pub fn put(&mut self, piece: &[u8]) -> Result<(), AllocError>
        ensures { OnOk result (self.new ≡ self.old ++ piece.now) }
    {
        self.page.put(&mut self.text, piece).map_err(|_| AllocError)
    }

    /// Puts a text last, in quotes.
    pub fn put_text(&mut self, text: &[u8]) -> Result<(), AllocError>
        ensures { OnOk result (self.new ≡ self.old ++ quoted text.now) }
    {
        put_quoted(&mut self.page, &mut self.text, text).map_err(|_| AllocError)
    }

    /// Puts a piece last, and a number after it.
    pub fn put_number<I: Integer>(&mut self, piece: &[u8], n: I) -> Result<(), AllocError>
        ensures { OnOk result (self.new ≡ self.old ++ (piece.now ++ I.text n)) }
    {
        self.page
            .put_named_number(&mut self.text, piece, n)
            .map_err(|_| AllocError)
    }

    /// As `put_number`, where the number may be negative.
    pub fn put_int(&mut self, piece: &[u8], n: i32) -> Result<(), AllocError>
        ensures { OnOk result (self.new ≡ self.old ++ named_signed piece.now n) }
    {
        self.page
            .put_named_int(&mut self.text, piece, n)
            .map_err(|_| AllocError)
    }

    /// As `put_int`, for a long.
    pub fn put_long(&mut self, piece: &[u8], n: i64) -> Result<(), AllocError>
        ensures { OnOk result (self.new ≡ self.old ++ named_signed piece.now n) }
    {
        self.page
            .put_named_long(&mut self.text, piece, n)
            .map_err(|_| AllocError)
    }

    /// The text of the lines.
    pub fn into_text(self) -> Result<Vec<u8>, AllocError>
        ensures { IfOk result (λ text. text.items ≡ self) }
    {
        let ObjectLines { mut text, mut page } = self;
        match page.flush(&mut text) {
            Ok(()) => Ok(text),
            Err(_) => Err(AllocError),
        }
    }
}
