//! What one event printed.

ghost use Rattle.std.specs.Prelude.{◌≡◌};

use std::marker::Model;

/// What one event printed: the text of its lines. A contract sees the list of its bytes.
#[derive(Drop)]
pub struct Lines {
    text: Vec<u8>,
}

impl Model for Lines {
    ghost use Rattle.std.specs.Prelude.{ℕ, List};

    ghost Value = { List ℕ };

    ghost view = { λ l. l.text.items };
}

impl Lines {
    pub(crate) fn of(text: Vec<u8>) -> Lines
        ensures { result ≡ text.items }
    {
        Lines { text }
    }

    /// The bytes of the text, each line with its newline. It takes no memory.
    pub fn bytes(&self) -> &[u8]
        ensures { result.now ≡ self.now }
    {
        &self.text
    }
}
