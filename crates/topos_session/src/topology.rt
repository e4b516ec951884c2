// The topology of a document.
ghost use Rattle.std.specs.Prelude.{◌≡◌, [], None, IfOk, IfErr};
ghost use Rattle.topos_model.specs.topologies.TopologyFaults.{topology_fault};
ghost use Rattle.topologies.specs.Topologies.{site_of, IsTopologyOn};
ghost use Rattle.topologies.specs.ListedFaults.{IsFaultOf};
ghost use Rattle.topos_session.specs.Ranges.{is_single};
ghost use Rattle.topos_session.specs.Topologies.{declared_site, IsTopologyListing};

use fin_category::Cat;
use std::alloc::Global;
use topologies::{TopFault, Topology};
use topos_model::TopDecl;

/// Whether there is one topology.
pub(crate) fn is_single(tops: &[TopDecl]) -> bool
    ensures { result ≡ is_single tops.now }
{
    match tops {
        [_] => true,
        _ => false,
    }
}

/// The topology that is declared: the dense one, or that of the listed families, or its first fault.
pub(crate) fn declared_topology(
    alloc: Global,
    cat: &Cat,
    top: &TopDecl,
) -> Result<Topology, TopFault>
    requires listing { IsTopologyListing cat.now top.now }
    ensures site { IfOk result (λ t. site_of cat.now t ≡ declared_site cat.now top.now) }
    ensures topology { IfOk result (λ t. IsTopologyOn cat.now t) }
    ensures lawful { IfOk result (λ t. topology_fault (declared_site cat.now top.now) 0 ≡ None) }
    ensures fault { IfErr result (λ fault. IsFaultOf (declared_site cat.now top.now) fault) }
{
    if top.dense {
        cat.laws();
        return Ok(Topology::dense(alloc, cat)?);
    }
    Topology::listed(alloc, cat, top.covers.as_slice())
}
