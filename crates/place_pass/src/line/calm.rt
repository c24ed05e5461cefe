//! Of which jobs something was told since the line was brought up to date.

ghost use Rattle.std.specs.Prelude.{◌≡◌, ℕ, ◌≤◌, ◌&&◌, ◌||◌, false, not, nat_lt, length};
ghost use Rattle.std.proofs.Common.{get_or};

use fuxi_terms::OutOfMemory;
use fuxi_terms::limits::MOST_JOBS;
use schedule_unit::AppNo;
use std::alloc::Global;
use std::marker::Model;

/// By job number whether nothing was told of the job since the line was brought up to date, and between which numbers
/// the others are, so that a walk over these passes only what is between.
#[derive(Drop)]
pub(crate) struct Calm {
    flags: Vec<bool>,
    /// Each job below this number is calm.
    low: u32,
    /// Each job from this number on is calm.
    high: u32,
}

impl Model for Calm {
    ghost use Rattle.std.specs.Prelude.{List, Bool};
    ghost use Rattle.place_pass.specs.WaitingLines.{IsCalm};

    ghost Value = { List Bool };

    ghost view = { λ c. c.flags.items };

    ghost invariant = { λ c. IsCalm c.flags.items c.low c.high };
}

impl Calm {
    ghost use Rattle.std.specs.Prelude.{◌≡◌, ℕ, ◌<◌, ◌≤◌, ◌&&◌, true, false, not, nat_eq, IfOk};
    ghost use Rattle.std.proofs.Common.{get_or};
    ghost use Rattle.fuxi_terms.specs.Limits.{most_jobs};

    /// All jobs are calm.
    pub(crate) fn new(alloc: Global) -> Result<Calm, OutOfMemory>
        ensures { IfOk result (λ calm. (a : ℕ) → a < most_jobs → get_or calm a false ≡ true) }
    {
        let flags = Vec::from_elem(alloc, true, MOST_JOBS as usize)?;
        Ok(Calm {
            flags,
            low: MOST_JOBS,
            high: 0,
        })
    }

    /// Something was told of a job: its units may begin to wait or have nothing out any more.
    pub(crate) fn stir(&mut self, app: AppNo)
        requires { app.0 < most_jobs }
        ensures { (a : ℕ) → get_or self.new a false ≡ (not (nat_eq app.0 a) && get_or self.old a false) }
    {
        self.flags[app.0 as usize] = false;
        self.low = self.low.min(app.0);
        self.high = self.high.max(app.0 + 1);
    }

    /// The line is that of what was told.
    pub(crate) fn calm_all(&mut self)
        ensures { (a : ℕ) → a < most_jobs → get_or self.new a false ≡ true }
    {
        calm_between(&mut self.flags, self.low, self.high);
        self.low = MOST_JOBS;
        self.high = 0;
    }

    /// Whether nothing was told of the job since the line was brought up to date.
    pub(crate) fn is_calm(&self, app: AppNo) -> bool
        ensures { result ≡ get_or self.now app.0 false }
    {
        let number = app.0 as usize;
        number < self.flags.len() && self.flags[number]
    }

    /// Each job below this number is calm.
    pub(crate) fn low(&self) -> u32
        ensures { (a : ℕ) → a < result → a < most_jobs → get_or self.now a false ≡ true }
    {
        self.low
    }

    /// Each job from this number on is calm.
    pub(crate) fn high(&self) -> u32
        ensures { (a : ℕ) → result ≤ a → a < most_jobs → get_or self.now a false ≡ true }
    {
        self.high
    }
}

// The jobs from a number on and below another one are calm.
fn calm_between(flags: &mut Vec<bool>, low: u32, high: u32)
    requires { high ≤ length flags.old.items }
    ensures long { length flags.new.items ≡ length flags.old.items }
    ensures calm { (a : ℕ) → get_or flags.new.items a false ≡ (get_or flags.old.items a false || (not (nat_lt a low) && nat_lt a high)) }
{
    for number in low..high {
        flags[number as usize] = true;
    }
}
