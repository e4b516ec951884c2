// Sites.
ghost use Rattle.std.specs.Prelude.{◌≡◌};
ghost use Rattle.topologies.specs.Topologies.{site_of, IsTopologyOn};

use crate::Topology;
use fin_category::Cat;
use std::marker::Model;

/// A category and a topology on it.
#[derive(Drop)]
pub struct Site {
    cat: Cat,
    top: Topology,
}

impl Model for Site {
    ghost use Rattle.topos_model.specs.topologies.Cover.{Site as SiteValue};
    ghost use Rattle.topologies.specs.Topologies.{site_of, IsTopologyOn};

    ghost Value = { SiteValue };

    ghost view = { λ s. site_of s.cat s.top };

    ghost invariant = { λ s. IsTopologyOn s.cat s.top };
}

impl Site {
    /// The category with the topology.
    pub fn new(cat: Cat, top: Topology) -> Site
        requires { IsTopologyOn cat top }
        ensures { result ≡ site_of cat top }
    {
        Site { cat, top }
    }

    /// Its category.
    pub fn cat(&self) -> &Cat
        ensures { result.now ≡ self.now.category }
    {
        &self.cat
    }

    /// Its topology.
    pub fn top(&self) -> &Topology
        ensures site { site_of self.now.category result.now ≡ self.now }
        ensures topology { IsTopologyOn self.now.category result.now }
    {
        &self.top
    }
}
