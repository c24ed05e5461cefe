//! Laws of placing. Each does nothing; its contract is the law.

ghost use Rattle.std.specs.Prelude.{◌≡◌, ℕ, ◌≤◌, List, Some, T, true};
ghost use Rattle.std.specs.FinMap.Entries.{is_sorted};
ghost use Rattle.std.specs.Option.{option_map};
ghost use Rattle.fuxi_terms.specs.Counts.{count, set_count};
ghost use Rattle.fuxi_terms.specs.Keys.{Pair, Spot, spot_cmp};
ghost use Rattle.fuxi_terms.specs.Tables.{Table};
ghost use Rattle.spec_roles.specs.Masters.{level_of};
ghost use Rattle.spec_roles.specs.Placing.{Board, first_in, placeable_in};
ghost use Rattle.fuxi_terms.specs.Jobs.{KnownJob, job_of, unit_count};
ghost use Rattle.grant_table.specs.GrantTables.{TableRecord, as_known};
ghost use Rattle.place_pass.specs.Placers.{PlacerRecord, IsLevelWith, job_seen, units_seen};

/// A placer that is level with a table has its cluster, its jobs, and as many units of each.
pub fn levels()
    ensures cluster { (p : PlacerRecord) (t : TableRecord) → IsLevelWith p t → p.seen.cluster ≡ t.cluster }
    ensures jobs { (p : PlacerRecord) (t : TableRecord) (a : ℕ) → IsLevelWith p t → job_seen p.seen a ≡ option_map (λ (k : KnownJob). k.job) (job_of (as_known t.jobs) a) }
    ensures units { (p : PlacerRecord) (t : TableRecord) (a : ℕ) → IsLevelWith p t → units_seen p.seen a ≡ unit_count (as_known t.jobs) a }
{}

/// The placeable pair of first rank stays the first by grants of itself, as long as it may be placed again and its level is the same.
pub fn first_stays()
    ensures { (b : Board) (es : Table) (line : List Pair) (x : Spot) (n : ℕ) → T (is_sorted spot_cmp es) → count spot_cmp es x ≤ n → first_in b es line ≡ Some x
        → placeable_in b (set_count spot_cmp es x n) x.job x.unit x.machine ≡ true → level_of b.cluster b.asks (set_count spot_cmp es x n) x.job x.unit x.machine ≡ level_of b.cluster b.asks es x.job x.unit x.machine
        → first_in b (set_count spot_cmp es x n) line ≡ Some x }
{}
