//! What the numbers that are set have to be, so that a peer is shown what it should hold.

ghost use Rattle.std.specs.Prelude.{◌≡◌, ℕ, true, nat_eq, T, List};
ghost use Rattle.std.specs.FinMap.Entries.{is_sorted};
ghost use Rattle.std.specs.List.{AllByRecursion};
ghost use Rattle.fuxi_terms.specs.Counts.{count, AreCounts};
ghost use Rattle.fuxi_terms.specs.Jobs.{KnownJob};
ghost use Rattle.fuxi_terms.specs.Keys.{RowKey, row_cmp, key_cmp};
ghost use Rattle.fuxi_terms.specs.Rows.{greatest_row};
ghost use Rattle.fuxi_terms.specs.TallyKeys.{greatest_grant, credited_what};
ghost use Rattle.fuxi_terms.specs.declared.Key.{Key};
ghost use Rattle.fuxi_terms.specs.NumbersSet.{numbers_set, AreNumbers};
ghost use Rattle.fuxi_terms.specs.Tables.{Table};
ghost use Rattle.ledger_updates.specs.Projections.{row_of, RowFollows, grant_entries, HasNumbers, after_setting, GrantsFollow};

/// Where the numbers are those of the spots that were touched on a machine, and all other spots there have the count that they had, the
/// row of the old table with the numbers set is the row of the new one.
pub(crate) fn rows_follow_tables()
    ensures { (jobs : List KnownJob) (m : ℕ) (old new : Table) (ns : List (RowKey × ℕ)) → AreCounts row_cmp greatest_row (row_of jobs m old) → AreCounts row_cmp greatest_row (row_of jobs m new) → AreNumbers row_cmp greatest_row ns
        → RowFollows jobs m old new ns → numbers_set row_cmp (row_of jobs m old) ns ≡ row_of jobs m new }
{}

/// The same of the entries of grants: where each machine that is reported, each count of the job and each credited number is what it was,
/// or what is set.
pub(crate) fn grants_follow_tables()
    ensures { (a : ℕ) (es ns : List (Key × ℕ)) (reported : List ℕ) (table : Table) (credited : List (Key × ℕ)) → AreCounts key_cmp greatest_grant es → AreCounts key_cmp greatest_grant (grant_entries a reported table credited) → AreNumbers key_cmp greatest_grant ns
        → GrantsFollow a es ns reported table credited → numbers_set key_cmp es ns ≡ grant_entries a reported table credited }
{}

/// What is found in the entries of grants at a key of each kind, where what is credited is of its kind.
pub(crate) fn grants_have_numbers()
    ensures { (a : ℕ) (reported : List ℕ) (table : Table) (credited : List (Key × ℕ)) → AllByRecursion (λ e. nat_eq e.0.what credited_what ≡ true) credited → HasNumbers a reported table credited }
{}

/// What the entries of grants have at each key once numbers are set, and that they are in order still.
pub(crate) fn numbers_are_set()
    ensures numbers { (es ns : List (Key × ℕ)) → T (is_sorted key_cmp ns) → (q : Key) → count key_cmp (numbers_set key_cmp es ns) q ≡ after_setting es ns q }
    ensures counts { (es ns : List (Key × ℕ)) → AreCounts key_cmp greatest_grant es → AreNumbers key_cmp greatest_grant ns → AreCounts key_cmp greatest_grant (numbers_set key_cmp es ns) }
{}
