// A text, seen as the list of its characters.
ghost use Rattle.std.specs.Prelude.{◌≡◌, ◌++◌, [], ◌∷◌, encode_utf8_all, IfOk, IsTrue, slice_get, OnOk, OnErr};
ghost use Rattle.std.specs.List.{list_any};
ghost use Rattle.std.specs.Str.{chars, all_scalars, bytes_eq};
ghost use Rattle.text_core.specs.Ascii.{is_ascii, are_ascii};

use crate::Oom;
use std::alloc::{AllocError, Global};
use std::cmp::Ordering;
use std::marker::Model;

/// A text. Contracts see it as the list of its characters.
#[derive(Debug, Drop)]
pub struct Txt {
    text: String,
}

impl Model for Txt {
    ghost use Rattle.std.specs.Prelude.{List, ℕ, string_bytes};
    ghost use Rattle.std.specs.Str.{chars};

    ghost Value = { List ℕ };

    ghost view = { λ t. chars (string_bytes t.text) };
}

impl Txt {
    /// The empty text.
    pub fn new(alloc: Global) -> Self
        ensures { result ≡ [] }
    {
        Txt {
            text: String::new(alloc),
        }
    }

    pub fn from_str(alloc: Global, text: &str) -> Result<Self, Oom>
        ensures { IfOk result (λ copy. copy ≡ chars text.now) }
    {
        Ok(Txt {
            text: String::from_str(alloc, text)?,
        })
    }

    /// Each byte as the character of its number.
    pub fn from_latin1(alloc: Global, bytes: &[u8]) -> Result<Self, Oom>
        ensures { IfOk result (λ text. text ≡ bytes.now) }
    {
        let mut text = Txt::new(alloc);
        for byte in bytes {
            text.push(char::from(*byte))?;
        }
        Ok(text)
    }

    pub fn as_str(&self) -> &str
        ensures bytes { result.now ≡ encode_utf8_all self.now }
        ensures characters { chars result.now ≡ self.now }
        ensures scalars { IsTrue (all_scalars self.now) }
    {
        self.text.as_str()
    }

    /// The characters, one after another.
    pub fn to_chars(&self, alloc: Global) -> Result<Vec<char>, Oom>
        ensures { IfOk result (λ characters. characters.items ≡ self.now) }
    {
        Ok(self.as_str().chars().collect(alloc)?)
    }

    /// The first character, if the text isn't empty.
    pub fn first(&self) -> Option<char>
        ensures { result ≡ slice_get self.now 0 }
    {
        self.as_str().chars().next()
    }

    /// Whether the text is this word.
    pub fn is(&self, word: &str) -> bool
        ensures same { result ≡ bytes_eq self.now (chars word.now) }
        // The characters of an ASCII word, as of a literal, are its bytes.
        ensures ascii { IsTrue (is_ascii word.now) → result ≡ bytes_eq self.now word.now }
    {
        self.text.as_str() == word
    }

    /// Whether the text is one of these words.
    pub fn is_one_of(&self, words: &[&str]) -> bool
        ensures same { result ≡ list_any (λ word. bytes_eq self.now (chars word.now)) words.now }
        ensures ascii { IsTrue (are_ascii words.now)
            → result ≡ list_any (λ word. bytes_eq self.now word.now) words.now }
    {
        for word in words {
            if self.is(word) {
                return true;
            }
        }
        false
    }

    pub fn push(&mut self, character: char) -> Result<(), Oom>
        ensures ok { OnOk result (self.new ≡ self.old ++ character ∷ []) }
        ensures err { OnErr result (self.new ≡ self.old) }
    {
        self.text.push(character)?;
        Ok(())
    }

    pub fn push_str(&mut self, more: &str) -> Result<(), Oom>
        ensures ok { OnOk result (self.new ≡ self.old ++ chars more.now) }
        ensures ascii { OnOk result (IsTrue (is_ascii more.now) → self.new ≡ self.old ++ more.now) }
        ensures err { OnErr result (self.new ≡ self.old) }
    {
        self.text.push_str(more)?;
        Ok(())
    }

    pub fn push_text(&mut self, more: &Txt) -> Result<(), Oom>
        ensures ok { OnOk result (self.new ≡ self.old ++ more.now) }
        ensures err { OnErr result (self.new ≡ self.old) }
    {
        self.text.push_str(more.as_str())?;
        Ok(())
    }
}

impl From<String> for Txt {
    ghost use Rattle.std.specs.Prelude.{◌≡◌, string_bytes};
    ghost use Rattle.std.specs.Str.{chars};

    ghost from_gives = { λ s t. t ≡ chars (string_bytes s) };

    fn from(text: String) -> Self {
        Txt { text }
    }
}

impl Clone for Txt {
    ghost use Rattle.std.specs.Prelude.{◌≡◌};

    ghost is_clone = { λ text copy. copy ≡ text };

    fn clone(&self) -> Result<Self, AllocError> {
        Ok(Txt {
            text: self.text.clone()?,
        })
    }
}

impl PartialEq for Txt {
    ghost use Rattle.std.specs.Str.{bytes_eq};
    ghost use Rattle.std.specs.Cmp.{partial_equiv_from_equiv};
    ghost use Rattle.std.specs.Cmp.Lexicographic.{nat_list_eq_equiv};

    ghost eq = { λ a b. bytes_eq a b };

    ghost laws = { partial_equiv_from_equiv nat_list_eq_equiv };

    fn eq(&self, other: &Self) -> bool {
        self.text == other.text
    }
}

impl Eq for Txt {
    ghost use Rattle.std.specs.Cmp.Lexicographic.{nat_list_eq_equiv};

    ghost laws = { nat_list_eq_equiv };
}

impl PartialOrd for Txt {
    ghost use Rattle.std.specs.Prelude.{Some};
    ghost use Rattle.std.specs.Ordering.{nat_cmp};
    ghost use Rattle.std.specs.Cmp.Lexicographic.{slice_cmp, texts_po};

    ghost partial_cmp = { λ a b. Some (slice_cmp nat_cmp a b) };

    ghost laws = { texts_po };

    fn partial_cmp(&self, other: &Self) -> Option<Ordering> {
        Some(self.cmp(other))
    }
}

// Texts are ordered by their characters, the first that differ.
impl Ord for Txt {
    ghost use Rattle.std.proofs.Common.{refl};
    ghost use Rattle.std.specs.Ordering.{nat_cmp};
    ghost use Rattle.std.specs.Cmp.Lexicographic.{slice_cmp, nat_list_cmp_total, texts_ties};

    ghost cmp = { λ a b. slice_cmp nat_cmp a b };

    ghost total = { nat_list_cmp_total };

    ghost matches_partial_cmp = { λ a b. refl };

    ghost matches_eq = { λ a b. texts_ties a b };

    fn cmp(&self, other: &Self) -> Ordering {
        self.as_str().chars().cmp(other.as_str().chars())
    }
}
