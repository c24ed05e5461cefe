//! The laws. Each function does nothing; its contract is a law of the definitions.

ghost use Rattle.std.specs.Prelude.{◌≡◌, ℕ, cond, map, nat_lt};
ghost use Rattle.fuxi_terms.specs.declared.answers.What.TheVariants.{Stale};
ghost use Rattle.delta_channel.specs.Hearing.{verdict_of};
ghost use Rattle.full_sync.specs.Turns.{turn_of, acked_after};
ghost use Rattle.spec_net.specs.Net.{Party, Id, Link, Packet, Kind, Delta, Full, met, acknowledge, word_of, turn_packets};
ghost use Rattle.channel_refinement.specs.Alike.{place_at, met_place, place_of, stamp_of, told_as, mark_as};

/// What one turn of a net sends is what one turn of both directions sends, note by note.
pub fn turns_are_one()
    ensures { (p : Party) (q : Id) (last : ℕ) (l : Link) → map mark_as (turn_packets p q last l) ≡ turn_of last l.acked (place_at l) }
{}

/// A receiver's verdict on a Full or a Delta is the word of the net for it, at the place to which the receiver has come;
/// an earlier sender is stale in both.
pub fn words_are_one()
    ensures full { (own : ℕ) (l : Link) (x : Packet) → x.kind ≡ Full → told_as (verdict_of own (place_at l) (stamp_of x)) ≡ cond (nat_lt x.from.inc l.known) Stale (word_of Full own l x) }
    ensures delta { (own : ℕ) (l : Link) (x : Packet) → x.kind ≡ Delta → told_as (verdict_of own (place_at l) (stamp_of x)) ≡ cond (nat_lt x.from.inc l.known) Stale (word_of Delta own l x) }
{}

/// Meeting a new incarnation moves the place in both alike, and so does an acknowledgement the acknowledged index.
pub fn links_are_one()
    ensures met { (l : Link) (inc : ℕ) → met_place (place_at l) inc ≡ place_at (met l inc) }
    ensures acked { (own last : ℕ) (l : Link) (x : Packet) → (acknowledge own last l x).acked ≡ acked_after own last l.acked (place_of x) }
{}
