//! The laws of the definitions. Each function does nothing; its contract is a law.

ghost use Rattle.std.specs.Prelude.{◌≡◌, ℕ, true, List, Ok};
ghost use Rattle.fuxi_terms.specs.Cluster.{ClusterRecord, is_valid_cluster};
ghost use Rattle.cluster_desc.specs.ClusterLine.{cluster_of};

/// The cluster of a line is valid.
pub fn cluster_lines_are_valid()
    ensures { (line : List ℕ) (c : ClusterRecord) → cluster_of line ≡ Ok c → is_valid_cluster c ≡ true }
{}
