//! Laws of plans. Each function does nothing: its contract is the law.

ghost use Rattle.std.specs.Prelude.{◌≡◌, ℕ, ◌+◌, ◌<◌, ◌≤◌, true, false, List, Some, None};
ghost use Rattle.std.specs.List.{AllByRecursion};
ghost use Rattle.fuxi_terms.specs.Cluster.{limit_at};
ghost use Rattle.fuxi_terms.specs.Counts.{AreCounts};
ghost use Rattle.fuxi_terms.specs.Keys.{spot_cmp, Pair};
ghost use Rattle.fuxi_terms.specs.Limits.{greatest_count};
ghost use Rattle.fuxi_terms.specs.Tables.{held_on, usage_by, without_grants, Table};
ghost use Rattle.spec_roles.specs.Placing.{Board, has_pair};
ghost use Rattle.spec_roles.specs.Preemption.{plan_in, tried_in, victims_in, part_by};
ghost use Rattle.spec_roles.specs.Preemption.{Plan as WrittenPlan};
ghost use Rattle.preempt.specs.declared.plan.Victim.{Victim};
ghost use Rattle.preempt.specs.Plans.{IsFirstPlan, is_unit, losers_of, without_victims};

/// The plan of a board is that of the first candidate that has victims (`first`), and there is none exactly where no
/// candidate has any (`none`, `passed`). A victim of the served group has a lower priority (`lower`). What the served
/// group uses and the grant that is made are together within its limit, once its own victims are taken
/// (`limit`).
pub fn planning()
    ensures first { (B : Board) (es : Table) (line : List Pair) (p : WrittenPlan) → plan_in B es line ≡ Some p → IsFirstPlan B es (tried_in B es line) p }
    ensures none { (B : Board) (es : Table) (line : List Pair) → plan_in B es line ≡ None → AllByRecursion (λ s. victims_in B es s ≡ None) (tried_in B es line) }
    ensures passed { (B : Board) (es : Table) (line : List Pair) → AllByRecursion (λ s. victims_in B es s ≡ None) (tried_in B es line) → plan_in B es line ≡ None }
    ensures lower { (B : Board) (es : Table) (line : List Pair) (p : WrittenPlan) → plan_in B es line ≡ Some p
        → AllByRecursion (λ s. B.groups s.job ≡ B.groups p.served.job → B.priorities s.job s.unit < B.priorities p.served.job p.served.unit) p.losers }
    ensures limit { (B : Board) (es : Table) (line : List Pair) (p : WrittenPlan) (i : ℕ) → plan_in B es line ≡ Some p → i < B.cluster.resources
        → usage_by B.groups B.sizes (B.groups p.served.job) i es + B.sizes p.served.job p.served.unit i ≤ limit_at B.cluster (B.groups p.served.job) i + part_by B.groups B.sizes (B.groups p.served.job) i p.losers }
{}

/// Taking victims unit by unit takes their single grants (`singly`), and leaves every other unit what it has
/// (`others`).
pub fn taking()
    ensures singly { (es : Table) (m : ℕ) (vs : List Victim) → AreCounts spot_cmp (λ s. greatest_count) es → without_victims es m vs ≡ without_grants es (losers_of m vs) }
    ensures others { (es : Table) (m n a u : ℕ) (vs : List Victim) → AllByRecursion (λ v. is_unit a u v ≡ false) vs → held_on (without_victims es m vs) a u n ≡ held_on es a u n }
{}

/// Each pair of a line names a unit that is there, if every pair that is found in the line does: what a line
/// that is up to date says, in the form of the condition of `find`.
pub fn lines()
    ensures { (line : List Pair) (units : ℕ → ℕ) → ((a u : ℕ) → has_pair (a, u) line ≡ true → u < units a) → AllByRecursion (λ p. p.1 < units p.0) line }
{}
