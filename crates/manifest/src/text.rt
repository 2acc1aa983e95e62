//! Texts that are kept.

ghost use Rattle.std.specs.Prelude.{◌≡◌, ℕ, List, string_bytes};

use std::marker::Model;

/// A text. Contracts see its bytes.
#[derive(Drop)]
pub struct Text {
    text: String,
}

impl Model for Text {
    ghost Value = { List ℕ };

    ghost view = { λ t. string_bytes t.text };
}

impl Text {
    /// The text of a string. It takes no memory.
    pub fn new(text: String) -> Text
        ensures { result ≡ string_bytes text }
    {
        Text { text }
    }

    /// The text as it stands.
    pub fn as_str(&self) -> &str
        ensures { result.now ≡ self.now }
    {
        self.text.as_str()
    }

    /// The string that was kept. It takes no memory.
    pub fn into_string(self) -> String
        ensures { string_bytes result ≡ self }
    {
        self.text
    }
}
