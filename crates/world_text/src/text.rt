// Texts of the files and words that the program reads.
ghost use Rattle.std.specs.Prelude.{◌≡◌, [], ◌∷◌, ◌++◌, length, slice_get, IfOk, OnOk, OnErr, encode_utf8};
ghost use Rattle.std.specs.Str.{chars};

use std::alloc::{AllocError, Global};
use std::marker::Model;

/// A text: a path, or a token. Its entries are its characters.
#[derive(Drop)]
pub struct Text {
    text: String,
}

impl Model for Text {
    ghost use Rattle.std.specs.Prelude.{List, ℕ, string_bytes};

    ghost Value = { List ℕ };

    ghost view = { λ t. string_bytes t.text };
}

impl Text {
    /// The empty text. It takes no memory before the first character.
    pub fn new(alloc: Global) -> Text
        ensures { result ≡ [] }
    {
        Text {
            text: String::new(alloc),
        }
    }

    /// A copy of this text.
    pub fn of(alloc: Global, text: &str) -> Result<Text, AllocError>
        ensures { IfOk result (λ copy. copy ≡ text.now) }
    {
        Ok(Text {
            text: String::from_str(alloc, text)?,
        })
    }

    /// The number of characters. It takes time in proportion to the text.
    pub fn len(&self) -> u64
        ensures { result ≡ length (chars self.now) }
    {
        self.text.as_str().chars().count() as u64
    }

    /// The character at a place, from 0 on. It takes time in proportion to the text.
    pub fn nth(&self, i: u64) -> Option<char>
        ensures { result ≡ slice_get (chars self.now) i }
    {
        self.text.as_str().chars().nth(i as usize)
    }

    /// Adds a character at the end.
    pub fn push(&mut self, entry: char) -> Result<(), AllocError>
        ensures ok { OnOk result (self.new ≡ self.old ++ encode_utf8 entry) }
        ensures entries { OnOk result (chars self.new ≡ chars self.old ++ entry ∷ []) }
        ensures err { OnErr result (self.new ≡ self.old) }
    {
        self.text.push(entry)?;
        Ok(())
    }

    /// The whole text.
    pub fn as_str(&self) -> &str
        ensures { result.now ≡ self.now }
    {
        self.text.as_str()
    }
}
