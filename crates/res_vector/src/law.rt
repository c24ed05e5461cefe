//! The laws of vectors, over plain lists of numbers. Each function does nothing: its contract is the law.

ghost use Rattle.std.specs.Prelude.{◌≡◌, ◌↔◌, ◌+◌, ◌-◌, ◌*◌, ◌<◌, ◌≤◌, ◌^◌, IsTrue, List, ℕ, length, replicate, take};
ghost use Rattle.std.specs.List.{All, AllByRecursion, sum_by};
ghost use Rattle.fuxi_terms.specs.Vectors.{at_place, fits, minus, plus, times};
ghost use Rattle.fuxi_terms.specs.Cluster.{are_quantities};
ghost use Rattle.fuxi_terms.specs.Padded.{padded};
ghost use Rattle.fuxi_terms.specs.Totals.{total_of};

/// What a vector is made of, is at each place. A place that it does not have is 0.
pub fn places()
    ensures fits { (a b : List ℕ) → IsTrue (fits a b) ↔ ((i : ℕ) → at_place a i ≤ at_place b i) }
    ensures plus { (a b : List ℕ) (i : ℕ) → at_place (plus a b) i ≡ at_place a i + at_place b i }
    ensures minus { (a b : List ℕ) (i : ℕ) → at_place (minus a b) i ≡ at_place a i - at_place b i }
    ensures times { (n : ℕ) (a : List ℕ) (i : ℕ) → at_place (times n a) i ≡ n * at_place a i }
    ensures same { (a b : List ℕ) → length a ≡ length b → ((i : ℕ) → at_place a i ≡ at_place b i) → a ≡ b }
{}

/// The results are as long as what they are made of.
pub fn lengths()
    ensures plus { (a b : List ℕ) → length a ≡ length b → length (plus a b) ≡ length a }
    ensures minus { (a b : List ℕ) → length (minus a b) ≡ length a }
    ensures times { (n : ℕ) (a : List ℕ) → length (times n a) ≡ length a }
{}

/// To fit is an order, with the vector of zeros below all others.
pub fn fits_is_an_order()
    ensures reflexive { (a : List ℕ) → IsTrue (fits a a) }
    ensures transitive { (a b c : List ℕ) → IsTrue (fits a b) → IsTrue (fits b c) → IsTrue (fits a c) }
    ensures antisymmetric { (a b : List ℕ) → length a ≡ length b
        → IsTrue (fits a b) → IsTrue (fits b a) → a ≡ b }
    ensures least { (n : ℕ) (a : List ℕ) → IsTrue (fits (replicate n 0) a) }
{}

/// Sums and differences undo each other, in their ranges.
pub fn sums_and_differences()
    ensures plus_commutes { (a b : List ℕ) → plus a b ≡ plus b a }
    ensures plus_associates { (a b c : List ℕ) → plus (plus a b) c ≡ plus a (plus b c) }
    ensures plus_zero { (a : List ℕ) → plus a (replicate (length a) 0) ≡ a }
    ensures minus_plus { (a b : List ℕ) → length a ≡ length b → minus (plus a b) b ≡ a }
    ensures plus_minus { (a b : List ℕ) → length a ≡ length b
        → IsTrue (fits b a) → plus (minus a b) b ≡ a }
{}

/// How sums and differences fit.
pub fn fits_of_sums()
    ensures addend { (a b : List ℕ) → IsTrue (fits a (plus a b)) }
    ensures rest { (a b : List ℕ) → IsTrue (fits (minus a b) a) }
    ensures plus { (a b c d : List ℕ) → IsTrue (fits a b) → IsTrue (fits c d)
        → IsTrue (fits (plus a c) (plus b d)) }
    ensures minus { (a b c d : List ℕ) → IsTrue (fits a b) → IsTrue (fits d c)
        → IsTrue (fits (minus a c) (minus b d)) }

    // A size fits what is free exactly where it fits beside what is used.
    ensures free { (size used has : List ℕ) → IsTrue (fits used has)
        → fits size (minus has used) ≡ fits (plus used size) has }
{}

/// Multiples of a vector.
pub fn multiples()
    ensures none { (a : List ℕ) → times 0 a ≡ replicate (length a) 0 }
    ensures one { (a : List ℕ) → times 1 a ≡ a }
    ensures more { (m n : ℕ) (a : List ℕ) → times (m + n) a ≡ plus (times m a) (times n a) }
    ensures fewer { (m n : ℕ) (a : List ℕ) → n ≤ m → minus (times m a) (times n a) ≡ times (m - n) a }
    ensures sum { (n : ℕ) (a b : List ℕ) → length a ≡ length b
        → times n (plus a b) ≡ plus (times n a) (times n b) }
    ensures fits { (m n : ℕ) (a b : List ℕ) → m ≤ n → IsTrue (fits a b)
        → IsTrue (fits (times m a) (times n b)) }
{}

/// The zeros behind the quantities of fewer resources change nothing.
pub fn paddings()
    ensures length { (a : List ℕ) → length a ≤ 8 → length (padded a) ≡ 8 }
    ensures back { (a : List ℕ) → take (length a) (padded a) ≡ a }
    ensures places { (a : List ℕ) (i : ℕ) → at_place (padded a) i ≡ at_place a i }
    ensures fits { (a b : List ℕ) → fits (padded a) (padded b) ≡ fits a b }
    ensures plus { (a b : List ℕ) → length a ≡ length b → plus (padded a) (padded b) ≡ padded (plus a b) }
    ensures minus { (a b : List ℕ) → length a ≡ length b → minus (padded a) (padded b) ≡ padded (minus a b) }
    ensures times { (n : ℕ) (a : List ℕ) → times n (padded a) ≡ padded (times n a) }
    ensures quantities { (a : List ℕ) → are_quantities (padded a) ≡ are_quantities a }
{}

/// How great the places of a result are.
pub fn ranges()
    ensures fits { (bound : ℕ) (a b : List ℕ) → 0 < bound → IsTrue (fits a b)
        → All (λ n. n < bound) b → All (λ n. n < bound) a }
    ensures plus { (j k : ℕ) (a b : List ℕ) → All (λ n. n ≤ j) a → All (λ n. n ≤ k) b
        → All (λ n. n ≤ j + k) (plus a b) }
    ensures times { (m k : ℕ) (a : List ℕ) → All (λ n. n ≤ k) a → All (λ n. n ≤ m * k) (times m a) }

    // A total of at most 2^40 grants fits 128 bits.
    ensures total { (counted : List (ℕ × List ℕ)) → sum_by (λ e. e.0) counted ≤ 2 ^ 40
        → AllByRecursion (λ e. IsTrue (are_quantities e.1)) counted → All (λ n. n < 2 ^ 128) (total_of counted) }
{}
