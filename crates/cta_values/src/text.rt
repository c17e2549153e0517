// Texts.
ghost use Rattle.std.specs.Prelude.{◌≡◌, IfOk, bytes_eq, string_bytes};

use crate::no_memory::NoMemory;
use std::marker::Model;

/// A text in UTF-8. Contracts see its bytes.
#[derive(Drop)]
pub struct Text {
    inner: String,
}

impl Model for Text {
    ghost use Rattle.std.specs.Prelude.{List, ℕ, string_bytes};

    ghost Value = { List ℕ };

    ghost view = { λ t. string_bytes t.inner };
}

impl Text {
    /// The text of this string. It takes no memory and constant time.
    pub fn of(text: String) -> Text
        ensures { result ≡ string_bytes text }
    {
        Text { inner: text }
    }

    /// The text as a string slice, in constant time.
    pub fn as_str(&self) -> &str
        ensures { result.now ≡ self.now }
    {
        self.inner.as_str()
    }

    /// The bytes of the text, in constant time.
    pub fn as_bytes(&self) -> &[u8]
        ensures { result.now ≡ self.now }
    {
        self.inner.as_str().as_bytes()
    }

    /// Whether the text has exactly these bytes. Its cost is at most their number.
    pub fn is(&self, bytes: &[u8]) -> bool
        ensures { result ≡ bytes_eq self.now bytes.now }
    {
        self.inner.as_str().as_bytes() == bytes
    }

    /// The same text once more. Its cost is the number of bytes; NoMemory changes nothing.
    pub fn copy(&self) -> Result<Text, NoMemory>
        ensures { IfOk result (λ text. text ≡ self.now) }
    {
        let inner = self.inner.clone()?;
        Ok(Text { inner })
    }
}
