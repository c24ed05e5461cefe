//! What is asked for a job, before it is tested.

ghost use Rattle.std.specs.Prelude.{◌≡◌, ◌++◌, [], ◌∷◌, is_ok, if◌then◌else◌};

use fuxi_terms::OutOfMemory;
use std::alloc::Global;
use std::marker::Model;

/// The quantities that are asked of the resources, in their order. Seen as the list of them.
#[derive(Debug, Drop)]
pub struct Quantities {
    quantities: Vec<u64>,
}

impl Model for Quantities {
    ghost use Rattle.std.specs.Prelude.{List, ℕ};

    ghost Value = { List ℕ };

    ghost view = { λ q. q.quantities.items };
}

impl Quantities {
    /// No quantities; takes no memory yet.
    pub fn new(alloc: Global) -> Quantities
        ensures { result ≡ [] }
    {
        Quantities {
            quantities: Vec::new(alloc),
        }
    }

    /// One quantity more. Unchanged where memory was refused.
    pub fn push(&mut self, quantity: u64) -> Result<(), OutOfMemory>
        ensures { self.new ≡ (if is_ok result then self.old ++ quantity ∷ [] else self.old) }
    {
        self.quantities.push(quantity)?;
        Ok(())
    }

    /// The quantities, in their order.
    pub fn as_slice(&self) -> &[u64]
        ensures { result.now ≡ self.now }
    {
        self.quantities.as_slice()
    }
}

/// What is asked for one unit.
#[derive(Debug, Drop)]
pub struct Ask {
    /// Any number: whether it is in range is tested when the job is made.
    pub priority: u64,
    /// One for each resource, likewise untested.
    pub quantities: Quantities,
    /// The greatest number of grants on one machine, likewise untested.
    pub most: u64,
}

/// What is asked for the units of a job, in their order. Seen as the list of it.
#[derive(Debug, Drop)]
pub struct Asks {
    asks: Vec<Ask>,
}

impl Model for Asks {
    ghost use Rattle.std.specs.Prelude.{List};
    ghost use Rattle.schedule_unit.specs.declared.asks.Ask.{Ask};

    ghost Value = { List Ask };

    ghost view = { λ a. a.asks.items };
}

impl Asks {
    /// Nothing asked; takes no memory yet.
    pub fn new(alloc: Global) -> Asks
        ensures { result ≡ [] }
    {
        Asks {
            asks: Vec::new(alloc),
        }
    }

    /// One unit more. Unchanged where memory was refused.
    pub fn push(&mut self, ask: Ask) -> Result<(), OutOfMemory>
        ensures { self.new ≡ (if is_ok result then self.old ++ ask ∷ [] else self.old) }
    {
        self.asks.push(ask)?;
        Ok(())
    }

    /// What is asked for each unit, in their order.
    pub fn as_slice(&self) -> &[Ask]
        ensures { result.now ≡ self.now }
    {
        self.asks.as_slice()
    }
}
