//! The text inside a call, an entry or a reply.

ghost use Rattle.std.specs.Prelude.{◌≡◌, IfOk, List};

use std::alloc::{AllocError, Global};
use std::marker::Model;

/// A text that contracts see as its bytes.
#[derive(Debug)]
pub struct Text {
    text: String,
}

/// Written out, for a derived one is proved anew in each crate that lets such a value go.
impl Drop for Text {
    fn drop(self) {
        let Text { text: _ } = self;
    }
}

impl Model for Text {
    ghost use Rattle.std.specs.Prelude.{ℕ, List, string_bytes};

    ghost Value = { List ℕ };

    ghost view = { λ t. string_bytes t.text };
}

impl Text {
    /// The text of these characters.
    pub fn new(alloc: Global, text: &str) -> Result<Text, AllocError>
        ensures { IfOk result (λ t. t ≡ text.now) }
    {
        Ok(Text {
            text: String::from_str(alloc, text)?,
        })
    }

    /// The characters, to be read.
    pub fn as_str(&self) -> &str
        ensures { result.now ≡ self.now }
    {
        self.text.as_str()
    }
}

/// What a desk names a change by: 1 to 40 bytes from 0x21 to 0x7E. A desk uses a key once.
pub type Key = Text;

/// A name or a heading that is shown.
pub type Label = Text;
