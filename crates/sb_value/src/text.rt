//! Texts.

ghost use Rattle.std.specs.Prelude.{◌≡◌, ◌==◌, length, IfOk, IsSome, IfSome, IsUtf8, ◌↔◌, string_bytes};

use std::alloc::{AllocError, Global};
use std::marker::Model;

/// A text in UTF-8. Clauses see its bytes.
#[derive(Drop)]
pub struct Str {
    text: String,
}

impl Model for Str {
    ghost use Rattle.std.specs.Prelude.{List, ℕ, string_bytes};

    ghost Value = { List ℕ };

    ghost view = { λ s. string_bytes s.text };
}

impl Str {
    /// The text of these bytes, where they are UTF-8.
    pub fn from_utf8(alloc: Global, bytes: &[u8]) -> Result<Option<Str>, AllocError>
        ensures found { IfOk result (λ r. IsSome r ↔ IsUtf8 bytes.now) }
        ensures same { IfOk result (λ r. IfSome r (λ s. s ≡ bytes.now)) }
    {
        match std::str::from_utf8(bytes) {
            Ok(text) => Ok(Some(Str {
                text: String::from_str(alloc, text)?,
            })),
            Err(_) => Ok(None),
        }
    }

    pub fn from_string(text: String) -> Str
        ensures { result ≡ string_bytes text }
    {
        Str { text }
    }

    pub fn into_string(self) -> String
        ensures { string_bytes result ≡ self }
    {
        self.text
    }

    pub fn as_str(&self) -> &str
        ensures { result.now ≡ self.now }
    {
        self.text.as_str()
    }

    pub fn as_bytes(&self) -> &[u8]
        ensures { result.now ≡ self.now }
    {
        self.text.as_bytes()
    }

    /// The number of bytes.
    pub fn len(&self) -> usize
        ensures { result ≡ length self.now }
    {
        self.text.len()
    }

    pub fn is_empty(&self) -> bool
        ensures { result ≡ (length self.now == 0) }
    {
        self.text.is_empty()
    }

    pub fn copy(&self) -> Result<Str, AllocError>
        ensures { IfOk result (λ s. s ≡ self.now) }
    {
        Ok(Str {
            text: self.text.clone()?,
        })
    }
}
