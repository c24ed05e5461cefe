//! The keys of the line that describes a cluster. A status of a command names them too.

ghost use Rattle.std.specs.Prelude.{◌≡◌};
ghost use Rattle.fuxi_terms.specs.ClusterKeys.{word_of};

/// A key of the line that describes the cluster; `Cluster` is the whole of it.
#[derive(Clone, Copy, Debug, Drop, PartialEq, Eq)]
pub enum ClusterKey {
    Cluster,
    Resources,
    Machines,
    Groups,
    Rack,
    Has,
    Quota,
    Limit,
}

impl ClusterKey {
    /// The key as it is written.
    pub fn word(&self) -> &'static str
        ensures { result.now ≡ word_of self.now }
    {
        match self {
            ClusterKey::Cluster => "cluster",
            ClusterKey::Resources => "resources",
            ClusterKey::Machines => "machines",
            ClusterKey::Groups => "groups",
            ClusterKey::Rack => "rack",
            ClusterKey::Has => "has",
            ClusterKey::Quota => "quota",
            ClusterKey::Limit => "limit",
        }
    }
}
