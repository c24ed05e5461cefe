//! The cluster of a storm.

ghost use Rattle.std.specs.Prelude.{◌≡◌, IfOk};
ghost use Rattle.storm_run.specs.Clusters.{storm_cluster};

use cluster_desc::{Cluster, read_cluster};
use fuxi_terms::OutOfMemory;
use std::alloc::Global;

const CLUSTER_LINE: &[u8] =
    br#"{"resources":2,"machines":[{"rack":0,"has":[1000,4000]},{"rack":0,"has":[1000,4000]},{"rack":1,"has":[1000,4000]},{"rack":1,"has":[1000,4000]},{"rack":2,"has":[1000,4000]},{"rack":2,"has":[1000,4000]},{"rack":3,"has":[1000,4000]},{"rack":3,"has":[1000,4000]}],"groups":[{"quota":[4000,16000],"limit":[8000,32000]},{"quota":[4000,16000],"limit":[6000,24000]}]}"#;

// The cluster of a storm. Its line has no fault, so a refusal is want of memory.
pub(crate) fn make_cluster(alloc: Global) -> Result<Cluster, OutOfMemory>
    ensures { IfOk result (λ cluster. cluster ≡ storm_cluster) }
{
    match read_cluster(alloc, CLUSTER_LINE) {
        Ok(cluster) => Ok(cluster),
        Err(_) => Err(OutOfMemory),
    }
}
