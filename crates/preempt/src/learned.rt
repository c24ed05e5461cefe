//! What searches found out, for as long as nothing changes by which it may be otherwise.

ghost use Rattle.std.specs.Prelude.{◌≡◌, ℕ, Bool, List};
ghost use Rattle.fuxi_terms.specs.Keys.{Pair};
ghost use Rattle.grant_table.specs.GrantTables.{TableRecord};
ghost use Rattle.preempt.specs.Learning.{IsTrue};

/// What searches found out. It is kept beside a table and the one who asks, and is true of these (`IsTrue`): where
/// one of them changes, whoever keeps it forgets it.
#[derive(Clone, Copy, Debug)]
pub struct Learned {
    /// No pair has victims.
    pub(crate) nobody: bool,
}

impl Learned {
    /// Nothing, which is true of every table and whoever asks.
    pub fn nothing() -> Learned
        ensures { (t : TableRecord) (usable : ℕ → ℕ → ℕ → Bool) (line : List Pair) → IsTrue t usable line result }
    {
        Learned { nobody: false }
    }
}
