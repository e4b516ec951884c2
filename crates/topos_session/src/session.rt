// A document that is run statement by statement.
ghost use Rattle.std.specs.Prelude.{◌≡◌, ◌≤◌, ◌<◌, ◌+◌, true, false, leb, length, IfOk, IfErr, OnErr};
ghost use Rattle.natural_maps.specs.Room.{max_room};
ghost use Rattle.topos_model.specs.statements.Declarations.{cells_so_far};
ghost use Rattle.topos_session.specs.Steps.{category_stop, topology_stop};

use crate::answer::answer;
use crate::declarations::Declarations;
use crate::maps::DeclaredMaps;
use crate::range::has_range;
use crate::topology::{declared_topology, is_single};
use crate::{SiteStop, Stop};
use fin_category::{Cat, CatFault};
use sealed_world::SealedWorld;
use std::alloc::Global;
use std::marker::Model;
use topologies::{Site, TopFault};
use topos_model::{Answer, Doc, Fault};

// The fault of the category refuses the document.
fn category_stop(doc: Doc, fault: CatFault) -> SiteStop
    ensures { result ≡ category_stop doc fault }
{
    match fault {
        CatFault::CompositeMissing { g, f } => {
            SiteStop::Refused(doc, Fault::CompositeMissing { g, f })
        }
        CatFault::CompositeTwice { g, f } => SiteStop::Refused(doc, Fault::CompositeTwice { g, f }),
        CatFault::CompositeEnds { g, f, h } => {
            SiteStop::Refused(doc, Fault::CompositeEnds { g, f, h })
        }
        CatFault::NotAssociative { h, g, f } => {
            SiteStop::Refused(doc, Fault::NotAssociative { h, g, f })
        }
        CatFault::NoMemory => SiteStop::NoMemory,
    }
}

// The fault of the topology refuses the document.
fn topology_stop(doc: Doc, fault: TopFault) -> SiteStop
    ensures { result ≡ topology_stop doc fault }
{
    match fault {
        TopFault::NotStable { at, cover, f } => SiteStop::Refused(
            doc,
            Fault::NotStable {
                under: 0,
                at,
                cover,
                f,
            },
        ),
        TopFault::NotTransitive { at, cover, other } => SiteStop::Refused(
            doc,
            Fault::NotTransitive {
                under: 0,
                at,
                cover,
                other,
            },
        ),
        TopFault::NoMemory => SiteStop::NoMemory,
    }
}

/// A document whose site is lawful, and how far its statements are answered.
#[derive(Drop)]
pub struct Session {
    alloc: Global,
    doc: Doc,
    so: Declarations,
    answered: usize,
    live: bool,
}

impl Model for Session {
    ghost use Rattle.topos_session.specs.Progress.{Progress, declared_by, IsUnderWay};

    ghost Value = { Progress };

    ghost use Rattle.topos_model.specs.contracts.ty.Ty as ty;
    ghost use Rattle.topos_model.specs.contracts.term.Term as term;
    ghost use Rattle.topos_model.specs.contracts.value.Val as value;
    ghost use Rattle.std.specs.Coded.{codes};

    ghost coded = { Prim.hlevel (codes, ty.the_row.coded, term.the_row.coded, value.the_row.coded) };

    ghost view = { λ s. record { doc = s.doc; budget = s.so.world.budget; declared = declared_by s.doc s.so s.answered; answered = s.answered; live = s.live } };

    ghost invariant = { λ s. IsUnderWay s.doc s.so s.answered s.live };
}

impl Session {
    ghost use Rattle.topos_session.specs.Steps.{IsOpened, IsSiteStop, IsStep, IsStop};

    /// Begins a document with a budget in cells for all its statements together: nothing is answered yet. A document whose numbers are out of range is refused as not built; then the category's first fault refuses it,
    /// then it is refused as not built where there is more than one topology, and then the topology's first fault refuses it. A refused document is handed back; where no memory is left it is given up.
    pub fn new(alloc: Global, doc: Doc, budget: u64) -> Result<Session, SiteStop>
        requires budget { budget ≤ max_room }
        ensures opened { IfOk result (λ session. IsOpened doc budget session) }
        ensures stop { IfErr result (λ stop. IsSiteStop doc stop) }
    {
        if !has_range(alloc, &doc)? {
            return Err(SiteStop::Refused(doc, Fault::NotBuilt));
        }
        let cat = match Cat::check(alloc, &doc.cat) {
            Ok(cat) => cat,
            Err(fault) => return Err(category_stop(doc, fault)),
        };
        if !is_single(doc.tops.as_slice()) {
            return Err(SiteStop::Refused(doc, Fault::NotBuilt));
        }
        let top = match declared_topology(alloc, &cat, doc.tops.get(0)) {
            Ok(top) => top,
            Err(fault) => return Err(topology_stop(doc, fault)),
        };
        let world = SealedWorld::new(alloc, Site::new(cat, top), budget)?;
        let _room = world.room();
        Ok(Session {
            alloc,
            doc,
            so: Declarations {
                world,
                maps: DeclaredMaps::new(alloc),
            },
            answered: 0,
            live: true,
        })
    }

    /// Whether each statement so far gave an answer. A session that is not live goes no further.
    pub fn live(&self) -> bool
        ensures { result ≡ self.now.live }
    {
        self.live
    }

    /// The cells of what the statements so far declare and count.
    pub fn cells(&self) -> u64
        requires live { self.now.live ≡ true }
        ensures { result ≡ cells_so_far self.now.doc self.now.declared }
    {
        self.so.world.cells()
    }

    /// Whether no statement is left.
    pub fn is_done(&self) -> bool
        ensures { result ≡ leb (length self.now.doc.stmts) self.now.answered }
    {
        self.doc.stmts.len() <= self.answered
    }

    /// The number of the next statement. Statements are numbered from 1, those of the site before all others.
    pub fn next(&self) -> u32
        ensures { result ≡ self.now.doc.site_len + self.now.answered + 1 }
    {
        self.doc.site_len + self.answered as u32 + 1
    }

    /// The document.
    pub fn doc(&self) -> &Doc
        ensures { result.now ≡ self.now.doc }
    {
        &self.doc
    }

    /// The document, handed back.
    pub fn into_doc(self) -> Doc
        ensures { result ≡ self.doc }
    {
        self.doc
    }

    /// Answers the next statement. Where it is refused, or the cells so far are more than the budget, or no memory is left for it, the session is as before and no longer live.
    pub fn step(&mut self) -> Result<Answer, Stop>
        requires live { self.old.live ≡ true }
        requires left { self.old.answered < length self.old.doc.stmts }
        ensures answer { IfOk result (λ answer. IsStep self.old answer self.new) }
        ensures stop { IfErr result (λ stop. IsStop self.old stop) }
        ensures ended { OnErr result (self.new ≡ record self.old { live = false }) }
    {
        let stmt = self.doc.stmts.get(self.answered);
        match answer(self.alloc, &mut self.so, stmt) {
            Ok(answer) => {
                self.answered += 1;
                Ok(answer)
            }
            Err(stop) => {
                self.live = false;
                Err(stop)
            }
        }
    }
}
