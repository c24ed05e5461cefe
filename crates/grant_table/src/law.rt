//! Laws of a table's sums and of its jobs. Each function does nothing: its contract is the law.

ghost use Rattle.std.specs.Prelude.{◌≡◌, ℕ, ◌+◌, ◌*◌, cond, nat_eq, ◌&&◌, T, false, Some, List, map};
ghost use Rattle.std.specs.FinMap.Entries.{is_sorted};
ghost use Rattle.fuxi_terms.specs.Cluster.{ClusterRecord, JobRecord, rack_of};
ghost use Rattle.fuxi_terms.specs.Keys.{Spot, spot_cmp};
ghost use Rattle.fuxi_terms.specs.Counts.{count, set_count};
ghost use Rattle.fuxi_terms.specs.Jobs.{KnownJob, job_of, is_known, job_numbers, group_of, size_at};
ghost use Rattle.fuxi_terms.specs.Tables.{held, held_in, total_at, usage_at, Table};
ghost use Rattle.grant_table.specs.GrantTables.{as_known, with_admitted, AreJobs};

/// How the sums over a map change when the number at one spot is set.
pub fn set_numbers()
    ensures held { (es : Table) (s : Spot) (n a u : ℕ) → T (is_sorted spot_cmp es) → held (set_count spot_cmp es s n) a u + cond (nat_eq s.job a && nat_eq s.unit u) (count spot_cmp es s) 0 ≡ held es a u + cond (nat_eq s.job a && nat_eq s.unit u) n 0 }
    ensures in_rack { (c : ClusterRecord) (es : Table) (s : Spot) (n a u r : ℕ) → T (is_sorted spot_cmp es)
        → held_in c (set_count spot_cmp es s n) a u r + cond (nat_eq s.job a && (nat_eq s.unit u && nat_eq (rack_of c s.machine) r)) (count spot_cmp es s) 0 ≡ held_in c es a u r + cond (nat_eq s.job a && (nat_eq s.unit u && nat_eq (rack_of c s.machine) r)) n 0 }
    ensures total { (jobs : List KnownJob) (es : Table) (s : Spot) (n m i : ℕ) → T (is_sorted spot_cmp es)
        → total_at jobs m i (set_count spot_cmp es s n) + cond (nat_eq s.machine m) (count spot_cmp es s * size_at jobs s.job s.unit i) 0 ≡ total_at jobs m i es + cond (nat_eq s.machine m) (n * size_at jobs s.job s.unit i) 0 }
    ensures usage { (jobs : List KnownJob) (es : Table) (s : Spot) (n g i : ℕ) → T (is_sorted spot_cmp es)
        → usage_at jobs g i (set_count spot_cmp es s n) + cond (nat_eq (group_of jobs s.job) g) (count spot_cmp es s * size_at jobs s.job s.unit i) 0 ≡ usage_at jobs g i es + cond (nat_eq (group_of jobs s.job) g) (n * size_at jobs s.job s.unit i) 0 }
{}

/// What is found among jobs after one is admitted, that they stay in order, and that their numbers stand in it.
pub fn admitted_jobs()
    ensures found { (j : JobRecord) (ks : List JobRecord) (a : ℕ) → is_known (as_known ks) j.number ≡ false
        → job_of (as_known (with_admitted j ks)) a ≡ cond (nat_eq j.number a) (Some (record { job = j; ended = false })) (job_of (as_known ks) a) }
    ensures numbers { (ks : List JobRecord) → AreJobs ks → job_numbers (as_known ks) ≡ map (λ (j : JobRecord). j.number) ks }
{}
