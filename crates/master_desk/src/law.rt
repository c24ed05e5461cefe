//! Laws of the definitions, as contracts. What stands here does nothing.

ghost use Rattle.std.specs.Prelude.{◌≡◌, ℕ, List};
ghost use Rattle.spec_roles.specs.MasterRoles.{MasterRole};
ghost use Rattle.master_desk.specs.CallBytes.{Says};
ghost use Rattle.master_desk.specs.Desks.{Desk, IsDeskRun};
ghost use Rattle.master_desk.specs.declared.call.Decoded.{Decoded as AnyDecoded};

/// Bytes say one thing alone.
pub fn one_call()
    ensures { (bytes : List ℕ) (x y : AnyDecoded) → Says bytes x → Says bytes y → x ≡ y }
{
    wire_frames::law::one_reading();
}

/// A master, its sessions and an order of their calls have one history: one master behind the last call, and one journal.
pub fn one_history()
    ensures { (r : MasterRole) (sessions : List (List (List ℕ))) (order : List ℕ) (x y : Desk) → IsDeskRun r sessions order x → IsDeskRun r sessions order y → x ≡ y }
{
    one_call();
}
