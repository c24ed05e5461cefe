//! What holds of every history of a lease, as laws of the definitions. Each function here does nothing; its contract is a law.

ghost use Rattle.std.specs.Prelude.{ℕ, List, ◌≤◌, length, Some, ◌≡◌};
ghost use Rattle.fuxi_io.specs.Disks.{Moment};
ghost use Rattle.hard_state.specs.HardFiles.{IsAtRest};
ghost use Rattle.epoch_lease.specs.Files.{Endures, KeptLease};
ghost use Rattle.epoch_lease.specs.Histories.{all_tenures, state_behind, AreBetween, EpochsRise, HasOneHolder, KeepHold, Episode};
ghost use Rattle.epoch_lease.specs.Leases.{LeaseState};

/// Over every history of events, of ends with a new process behind them and of stops within a writing, each epoch granted is above every
/// one before it (`rises`), so it is granted once and to one holder alone (`one`); and it is at most the last epoch that is kept
/// (`between`). While nobody lets go, one epoch at most is granted (`single`).
pub fn epochs_rise()
    ensures rises { (s : LeaseState) (episodes : List Episode) → EpochsRise (all_tenures s episodes) }
    ensures one { (s : LeaseState) (episodes : List Episode) → HasOneHolder (all_tenures s episodes) }
    ensures between { (s : LeaseState) (episodes : List Episode) → AreBetween s.last (state_behind s episodes).last (all_tenures s episodes) }
    ensures single { (s : LeaseState) (episodes : List Episode) → KeepHold episodes → length (all_tenures s episodes) ≤ 1 }
{}

/// Where the file stands for what is kept and nothing is pending, whatever file a crash leaves opens as the lease.
pub fn leases_at_rest_endure()
    ensures { (k : KeptLease) (moment : Moment) → IsAtRest k.hard moment → Endures k moment }
{}
