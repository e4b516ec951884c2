// A site with presheaves and types in a store.
ghost use Rattle.std.specs.Prelude.{◌≡◌, ℕ, ◌+◌, ◌^◌, ◌<◌, ◌≤◌, ◌++◌, ◌∷◌, [], length, is_none, IfOk, OnOk, OnErr, Some};
ghost use denote.Bor.{Bor};
ghost use Rattle.std.specs.List.{flat_map};
ghost use Rattle.finite_lists.specs.Members.{In};
ghost use Rattle.topos_model.specs.declared.ty.Ty.{Base, Omega as OmegaType};
ghost use Rattle.topos_model.specs.Laws.{IsFunctor};
ghost use Rattle.topos_model.specs.topologies.Sheaves.{sheaf_fault};
ghost use Rattle.topos_model.specs.types.Types.{Presheaf, functor};
ghost use Rattle.topos_model.specs.statements.Needs.{parts};
ghost use Rattle.topos_model.specs.statements.Cells.{presheaf_cells};
ghost use Rattle.sealed_functors.specs.Rows.{IsOverExactly};
ghost use Rattle.omega_object.specs.declared.omega.Omega.{Omega as TruthValues};
ghost use Rattle.omega_object.specs.Tables.{IsOmegaOn};
ghost use Rattle.site_stages.specs.Stages.{AreStages};
ghost use Rattle.sealed_world.specs.SealedWorlds.{bare_world, world_cells, cells_with, with_presheaf, with_charges, IsGrown, IsGrownBy, IsStoreOf};

use crate::ends::ends_of;
use crate::marks::Marks;
use crate::omega::has_omega;
use exponentials::need;
use functor_store::{FunctorStore, Over, StoreFault};
use named_functors::seal_functor;
use omega_object::Omega;
use presheaf_core::Functor;
use sheaf_test::{SheafVerdict, test};
use site_stages::Stages;
use std::alloc::Global;
use std::marker::Model;
use topologies::Site;
use topos_model::{NoMemory, Row, Ty};

/// A site with the presheaves that are declared over it, each sealed under its number, and the types that are counted, each sealed once with its elements in order.
#[derive(Drop)]
pub struct SealedWorld {
    site: Site,
    // Laid out once, since each formula is read along them.
    stages: Stages,
    functors: Row<Functor>,
    store: FunctorStore,
    // Where they are sealed.
    truth_values: Option<Omega>,
    // Which presheaves are known to be sheaves.
    sheaves: Marks,
}

impl Model for SealedWorld {
    ghost use Rattle.site_stages.specs.Stages.{AreStages};
    ghost use Rattle.sealed_world.specs.SealedWorlds.{CountedWorld, IsInStore, HasTruthValues, AreSheaves, seen, types_in};

    ghost Value = { CountedWorld };

    ghost use Rattle.topos_model.specs.contracts.ty.Ty as ty;
    ghost use Rattle.std.specs.Coded.{codes};

    ghost coded = { Prim.hlevel (codes, ty.the_row.coded) };

    ghost view = { λ w. seen (record { site = w.site; functors = w.functors; store = w.store }) };

    ghost invariant = { λ w. IsInStore (record { site = w.site; functors = w.functors; store = w.store }) × HasTruthValues w.site (types_in w.store) w.truth_values × AreSheaves w.site w.functors w.sheaves × AreStages w.site w.stages };
}

impl SealedWorld {
    /// A site whose presheaves and types may have so many cells. Nothing is declared yet.
    pub fn new(alloc: Global, site: Site, budget: u64) -> Result<SealedWorld, NoMemory>
        requires budget { budget ≤ 64_000_000 }
        ensures value { IfOk result (λ world. world ≡ bare_world site budget) }
    {
        site.cat().laws();
        let stages = Stages::of(alloc, &site)?;
        let ends = ends_of(alloc, site.cat())?;
        let store = FunctorStore::new(alloc, site.cat().objects(), ends, budget)?;
        Ok(SealedWorld {
            site,
            stages,
            functors: Row::new(alloc),
            store,
            truth_values: None,
            sheaves: Marks::new(alloc),
        })
    }

    /// The site.
    pub fn site(&self) -> &Site
        ensures { result.now ≡ self.now.site }
    {
        &self.site
    }

    /// The arrows into each object of the site.
    pub fn stages(&self) -> &Stages
        ensures stages { AreStages self.now.site result.now }
    {
        &self.stages
    }

    /// The presheaves, by their numbers.
    pub fn functors(&self) -> &[Functor]
        ensures { result.now ≡ self.now.functors }
    {
        self.functors.as_slice()
    }

    /// The presheaf of a number.
    pub fn functor(&self, number: u32) -> &Functor
        requires number { number < length self.now.functors }
        ensures value { result.now ≡ functor self.now.site self.now.functors number }
        ensures lawful { IsFunctor self.now.site.category result.now }
    {
        self.functors.get(number as usize)
    }

    /// The store, which is faithful to the site and holds each presheaf under its number.
    pub fn store(&self) -> &FunctorStore
        ensures store { IsStoreOf self.now result.now }
    {
        &self.store
    }

    /// The truth values of the site: they are there where they are counted.
    pub fn truth_values(&self) -> Option<&Omega>
        ensures lawful { (Ω : Bor TruthValues) → result ≡ Some Ω → IsOmegaOn self.now.site Ω.now }
        ensures counted { In self.now.types OmegaType → (Ω : Bor TruthValues) × (result ≡ Some Ω) }
    {
        match &self.truth_values {
            Some(values) => Some(values),
            None => None,
        }
    }

    /// Whether the presheaf of a number is a sheaf for the site's topology. One that is a sheaf is tested once.
    pub fn is_sheaf(&mut self, alloc: Global, number: u32) -> Result<bool, NoMemory>
        requires number { number < length self.old.functors }
        ensures sheaf { IfOk result (λ b. b ≡ is_none (sheaf_fault self.old.site (functor self.old.site self.old.functors number))) }
        ensures unchanged { self.new ≡ self.old }
    {
        if self.sheaves.is_marked(number) {
            return Ok(true);
        }
        match test(alloc, &self.site, self.functors.get(number as usize))? {
            SheafVerdict::Sheaf => {
                self.sheaves.mark(number)?;
                Ok(true)
            }
            SheafVerdict::Fails { .. } => Ok(false),
        }
    }

    /// The cells of the presheaves and of the sealed types, and of the charges.
    pub fn cells(&self) -> u64
        ensures cells { result ≡ world_cells self.now }
    {
        self.store.cells()
    }

    /// How many cells more the budget allows. A presheaf more adds its own cells.
    pub fn room(&self) -> u64
        ensures room { result + world_cells self.now ≡ self.now.budget }
        ensures bounded { self.now.budget ≤ 64_000_000 }
        ensures next { (X : Presheaf) → world_cells (with_presheaf self.now X) ≡ world_cells self.now + presheaf_cells self.now.site.category X }
    {
        self.store.room()
    }

    /// Counts cells that no presheaf and no type holds, or answers that they exceed the budget.
    pub fn charge(&mut self, cells: u64) -> Result<(), Over>
        ensures ok { OnOk result ((self.new ≡ with_charges self.old cells) × (world_cells self.old + cells ≤ self.old.budget)) }
        ensures over { OnErr result ((self.new ≡ self.old) × (self.old.budget < world_cells self.old + cells)) }
    {
        self.store.charge(cells)
    }

    /// Declares a presheaf, the next one. `Over` says that its cells and those of the world exceed the budget. After a fault the world is as before.
    pub fn declare(&mut self, alloc: Global, functor: Functor) -> Result<(), StoreFault>
        requires functor { IsFunctor self.old.site.category functor }
        requires few { length self.old.functors < 2 ^ 32 }
        ensures ok { OnOk result (self.new ≡ with_presheaf self.old functor) }
        ensures err { OnErr result (self.new ≡ self.old) }
        ensures over { IsOverExactly result (self.old.budget < world_cells (with_presheaf self.old functor)) }
    {
        let number = self.functors.len();
        self.functors.push(functor)?;
        let declared = self.functors.get(number);
        if let Err(fault) = seal_functor(
            alloc,
            &mut self.store,
            &self.site,
            number as u32,
            declared,
        ) {
            self.functors.truncate(number);
            return Err(fault);
        }
        Ok(())
    }

    // Seals the type of truth values, where it is not there.
    fn need_omega(&mut self, alloc: Global) -> Result<(), StoreFault>
        ensures ok { OnOk result (IsGrownBy (OmegaType ∷ []) self.old self.new) }
        ensures err { OnErr result (self.new ≡ self.old) }
        ensures over { IsOverExactly result (self.old.budget < cells_with self.old (OmegaType ∷ [])) }
    {
        let _room = self.room();
        if self.store.find(&Ty::Omega).is_some() {
            return Ok(());
        }
        match Omega::need(alloc, &mut self.store, &self.site) {
            Ok(values) => {
                self.truth_values = Some(values);
                Ok(())
            }
            Err(fault) => Err(fault),
        }
    }

    // Seals a type with its parts, of which the type of truth values is there.
    fn need_parts(&mut self, alloc: Global, ty: &Ty) -> Result<(), StoreFault>
        requires named { (n : ℕ) → In (parts ty.now) (Base n) → n < length self.old.functors }
        requires omega { In (parts ty.now) OmegaType → In self.old.types OmegaType }
        ensures ok { OnOk result (IsGrownBy (parts ty.now) self.old self.new) }
        ensures err { OnErr result (IsGrown (parts ty.now) self.old self.new) }
        ensures over { IsOverExactly result (self.old.budget < cells_with self.old (parts ty.now)) }
    {
        if let Err(fault) = need(alloc, &mut self.store, &self.site, ty) {
            return Err(fault);
        }
        Ok(())
    }

    // Seals a type with its parts.
    fn need_type(&mut self, alloc: Global, ty: &Ty) -> Result<(), StoreFault>
        requires named { (n : ℕ) → In (parts ty.now) (Base n) → n < length self.old.functors }
        ensures ok { OnOk result (IsGrownBy (parts ty.now) self.old self.new) }
        ensures err { OnErr result (IsGrown (parts ty.now) self.old self.new) }
        ensures over { IsOverExactly result (self.old.budget < cells_with self.old (parts ty.now)) }
    {
        if !has_omega(ty) {
            return self.need_parts(alloc, ty);
        }
        if let Err(fault) = self.need_omega(alloc) {
            return Err(fault);
        }
        self.need_parts(alloc, ty)
    }

    /// Seals the types of a list and all their parts, each once. `Over` says that the cells of these and of the world exceed the budget. After a fault each of them is sealed whole or
    /// not at all, and all else is as before.
    pub fn need(&mut self, alloc: Global, types: &[Ty]) -> Result<(), StoreFault>
        requires named { (n : ℕ) → In (flat_map parts types.now) (Base n) → n < length self.old.functors }
        ensures ok { OnOk result (IsGrownBy (flat_map parts types.now) self.old self.new) }
        ensures err { OnErr result (IsGrown (flat_map parts types.now) self.old self.new) }
        ensures over { IsOverExactly result (self.old.budget < cells_with self.old (flat_map parts types.now)) }
    {
        for ty in types {
            if let Err(fault) = self.need_type(alloc, ty) {
                return Err(fault);
            }
        }
        let _room = self.room();
        Ok(())
    }
}
