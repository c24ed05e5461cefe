//! What all three parties do alike, as laws of the definitions.

ghost use Rattle.std.specs.Prelude.{◌≡◌, false, Bool, ◌&&◌, Option};
ghost use Rattle.fuxi_terms.specs.declared.answers.What.TheVariants.{Stranger};
ghost use Rattle.fuxi_terms.specs.declared.vectors.Res.{Res};
ghost use Rattle.fuxi_terms.specs.declared.vectors.Sum.{Sum};
ghost use Rattle.spec_net.specs.Net.{Party, same_id};
ghost use Rattle.spec_net.specs.Ledgers.{Ledger};
ghost use Rattle.spec_net.specs.Sides.{Side, Parcel, hears_side};

/// A packet that is for another party, or of one to which this party does not talk, is a stranger's and changes nothing of
/// the side. It does nothing; its contract is this law.
pub fn strangers_change_nothing()
    ensures { (p : Party) (talks : Bool) (excess : Ledger → Option (Sum × Res)) (e : Side) (x : Parcel) → (same_id x.packet.to.id p.id && talks) ≡ false
        → hears_side p talks excess e x ≡ record { fresh = false; what = Stranger; side = e } }
{}
