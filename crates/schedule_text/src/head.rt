//! Which line of a table the words of a line are.

ghost use Rattle.std.specs.Prelude.{◌≡◌, true, IfOk, IfSome, map};
ghost use Rattle.std.specs.List.{find, list_any};
ghost use Rattle.schedule_text.specs.LineHeads.{is_head, head_of};

use crate::event::LineFault;

/// One kind of line of a text.
pub trait LineHead: Copy {
    ghost use Rattle.std.specs.Prelude.{◌≡◌, ℕ, Bool, List, map};

    /// Whether these words begin such a line.
    ghost begun: { Self → List (List ℕ) → Bool };

    /// Whether they are as many as such a line has.
    ghost counted: { Self → List (List ℕ) → Bool };

    /// Whether these words begin such a line.
    fn is_begun(self, words: &[&[u8]]) -> bool
        ensures { result ≡ begun self (map (λ w. w.now) words.now) };

    /// Whether they are as many as such a line has.
    fn is_counted(self, words: &[&[u8]]) -> bool
        ensures { result ≡ counted self (map (λ w. w.now) words.now) };
}

/// Which of these lines it is.
pub fn head_of<H: LineHead>(heads: &[H], words: &[&[u8]]) -> Result<H, LineFault>
    ensures value { result ≡ head_of H.begun H.counted heads.now (map (λ w. w.now) words.now) }
    ensures count { IfOk result (λ head. H.counted head (map (λ w. w.now) words.now) ≡ true) }
{
    match find_head(heads, words) {
        Some(head) => Ok(head),
        None if is_begun(heads, words) => Err(LineFault::WrongCount),
        None => Err(LineFault::UnknownWord),
    }
}

fn find_head<H: LineHead>(heads: &[H], words: &[&[u8]]) -> Option<H>
    ensures value { result ≡ find (is_head H.begun H.counted (map (λ w. w.now) words.now)) heads.now }
    ensures count { IfSome result (λ head. H.counted head (map (λ w. w.now) words.now) ≡ true) }
{
    heads.iter().copied().find(|head| is_head(*head, words))
}

// Whether one of these lines begins with these words.
fn is_begun<H: LineHead>(heads: &[H], words: &[&[u8]]) -> bool
    ensures { result ≡ list_any (λ head. H.begun head (map (λ w. w.now) words.now)) heads.now }
{
    heads.iter().any(|head| head.is_begun(words))
}

// The words are counted first, since lines that begin alike mostly differ in their count.
fn is_head<H: LineHead>(head: H, words: &[&[u8]]) -> bool
    ensures { result ≡ is_head H.begun H.counted (map (λ w. w.now) words.now) head }
{
    head.is_counted(words) && head.is_begun(words)
}
