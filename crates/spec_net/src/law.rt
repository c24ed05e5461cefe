//! The laws. Each function does nothing; its contract is a law of the definitions.

ghost use Rattle.std.specs.Prelude.{◌≡◌};
ghost use Rattle.spec_net.specs.Net.{Net, Move, move};
ghost use Rattle.spec_net.specs.Ledgers.{Ledger};
ghost use Rattle.spec_net.specs.Channels.{shape};
ghost use Rattle.spec_net.specs.Sound.{Allowed, Bounded, Sound};

/// Each move that is allowed keeps a net sound: places, acknowledged indices and packets name entries that are
/// there, with heads that are the incarnation of the other side, and heads never fall (`sound`). No move lets a
/// place, an acknowledged index or a packet be past the end of the history that it names (`bounded`).
pub fn moves_keep_nets_sound()
    ensures bounded { (net : Net Ledger) (m : Move Ledger) → Bounded net → Bounded (move net m) }
    ensures sound { (net : Net Ledger) (m : Move Ledger) → Allowed shape net m → Sound shape net → Sound shape (move net m) }
{}
