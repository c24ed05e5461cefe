//! A storm without steps, by computation.

ghost use Rattle.std.specs.Prelude.{◌≡◌, Ok, codes, ℕ, List};
ghost use Rattle.storm_run.specs.Generators.{number};
ghost use Rattle.storm_run.specs.Summaries.{storm_of};
ghost use Rattle.storm_run.specs.StormEnds.{EndsQuiet};

/// The first number that is drawn from the seed 1, and the text of its storm without steps.
pub fn calm_storm()
    ensures first { number 1 ≡ 908834774 }
    ensures text { storm_of 1 0 ≡ Ok (codes "storm 1 0\nevents 129\npackets 209\nfence 1\ngranted 0 0\ngranted 1 0\ngranted 2 0\nheld 0 0\nheld 1 0\nheld 2 0\nrows 0 0\nrows 1 0\nrows 2 0\nrows 3 0\nrows 4 0\nrows 5 0\nrows 6 0\nrows 7 0\nquiet yes\n") }
{}

/// Whatever its seed and however many its steps: a storm that passes no limit is quiet at its end, so the last line of its text is
/// `quiet yes`.
pub fn storms_end_quiet()
    ensures { (seed steps : ℕ) (text : List ℕ) → storm_of seed steps ≡ Ok text → EndsQuiet text }
{
    spec_progress::law::calm_rounds_bring_quiet();
}
