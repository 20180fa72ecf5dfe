// The ground problems of obligations: lazy, or whole, as the kernel takes them.
ghost use Rattle.std.specs.Prelude.{◌≡◌, IfOk};
ghost use Rattle.spec_core.specs.Specification.{Specification};
ghost use Rattle.obligation_list.specs.declared.obligation.Obligation.{Obligation as TheObligation};
ghost use Rattle.obligation_list.specs.Obligations.{IsObligation};
ghost use Rattle.ground_numbers.specs.Problem.{problem_of};
ghost use Rattle.proof_kernel.specs.Rules.{start};
ghost use Rattle.instances.specs.{Ground.{IsGrounded}, Entry.{HasEntry, HasEntryClauses}};
ghost use Rattle.lazy_ground.specs.{Lazy.{IsLazyGround}, Kept.{HasLazyKept}, Cache.{AreKept}};
ghost use Rattle.report_verifier.specs.{Rules.{has_many}, Posing.{IsPosed}};

use ground_numbers::law_obligation_fits;
use instances::{GroundRefused, Grounded};
use lazy_ground::{EitherGround, KeptCache, LazyGround, ground_lazily_from};
use obligation_list::Obligation;
use proof_kernel::Kernel;
use proof_lines::Problem;
use spec_core::Spec;
use std::alloc::{AllocError, Global};

/// The ground problem of an obligation, lazy or whole; nothing of it where the obligation has too many formulas.
#[derive(Drop)]
pub enum Posed {
    Many,
    Lazy(LazyGround),
    Whole(Grounded),
}

fn clauses_of(
    alloc: Global,
    spec: &Spec,
    ob: &Obligation,
    ground: &Grounded,
) -> Result<Problem, AllocError>
    requires ground { IsGrounded spec.now ob.now ground.now }
    requires clauses { HasEntryClauses ground.now }
    ensures { IfOk result (λ p. p ≡ problem_of spec.now ob.now) }
{
    law_obligation_fits();
    ground.problem(alloc)
}

// The kernel before the first line of a log on an obligation, whose ground problem is there.
fn kernel_of(
    alloc: Global,
    spec: &Spec,
    ob: &Obligation,
    ground: &Grounded,
) -> Result<Kernel, AllocError>
    requires ground { IsGrounded spec.now ob.now ground.now }
    requires entry { HasEntry spec.now ground.now }
    ensures { IfOk result (λ kernel. kernel ≡ start (problem_of spec.now ob.now)) }
{
    ground.law_clauses();
    let problem = clauses_of(alloc, spec, ob, ground)?;
    Kernel::new(alloc, problem)
}

/// Poses the problems of obligations one after another. What some of them share is kept.
#[derive(Drop)]
pub struct Poser {
    pub alloc: Global,
    pub cache: KeptCache,
}

impl Posed {
    /// Whether there are too many formulas.
    pub fn is_many(&self) -> bool
        ensures { (d : Specification) (ob : TheObligation) → IsPosed d ob self.now
            → result ≡ has_many d ob }
    {
        match self {
            Posed::Many => true,
            Posed::Lazy(_) => false,
            Posed::Whole(_) => false,
        }
    }
}

impl Poser {
    /// Nothing is kept yet.
    pub fn new(alloc: Global, spec: &Spec) -> Poser
        ensures { AreKept spec.now result.cache }
    {
        let _spec = spec;
        Poser {
            alloc,
            cache: KeptCache::new(alloc),
        }
    }

    /// The ground problem of an obligation, lazy where most of its formulas needn't be made.
    pub fn pose(&mut self, spec: &Spec, ob: &Obligation) -> Result<Posed, AllocError>
        requires member { IsObligation spec.now ob.now }
        requires kept { AreKept spec.now self.old.cache }
        ensures posed { IfOk result (IsPosed spec.now ob.now) }
        ensures kept { AreKept spec.now self.new.cache }
    {
        let kept = self.cache.take(self.alloc, spec, ob);
        match ground_lazily_from(self.alloc, spec, ob, kept) {
            Ok(EitherGround::Whole(ground)) => Ok(Posed::Whole(ground)),
            Ok(EitherGround::Lazy(ground)) => Ok(Posed::Lazy(ground)),
            Ok(EitherGround::TooMany(left)) => {
                self.cache.put(spec, left);
                Ok(Posed::Many)
            }
            Err(GroundRefused::TooMany) => Ok(Posed::Many),
            Err(GroundRefused::Memory) => Err(AllocError),
        }
    }

    /// Keeps what a lazy problem leaves for others.
    pub fn keep(&mut self, spec: &Spec, ground: LazyGround)
        requires left { HasLazyKept spec.now ground }
        requires kept { AreKept spec.now self.old.cache }
        ensures { AreKept spec.now self.new.cache }
    {
        self.cache.put(spec, ground.into_kept());
    }

    // Keeps what a whole problem leaves for others.
    fn keep_whole(&mut self, spec: &Spec, ground: Grounded)
        requires left { HasEntry spec.now ground }
        requires kept { AreKept spec.now self.old.cache }
        ensures { AreKept spec.now self.new.cache }
    {
        self.cache
            .put(spec, EitherGround::Whole(ground).into_kept());
    }

    /// The kernel before the first line of a log on an obligation, whose lazy ground problem is completed.
    pub fn complete(
        &mut self,
        spec: &Spec,
        ob: &Obligation,
        ground: LazyGround,
    ) -> Result<Kernel, AllocError>
        requires ground { IsLazyGround spec.now ob.now ground }
        requires left { HasLazyKept spec.now ground }
        requires kept { AreKept spec.now self.old.cache }
        ensures kernel { IfOk result (λ kernel. kernel ≡ start (problem_of spec.now ob.now)) }
        ensures kept { AreKept spec.now self.new.cache }
    {
        let whole = ground.into_whole(self.alloc, spec, ob)?;
        let made = kernel_of(self.alloc, spec, ob, &whole.ground);
        self.cache.put(spec, whole.into_kept());
        made
    }

    /// The same of a whole ground problem.
    pub fn kernel(
        &mut self,
        spec: &Spec,
        ob: &Obligation,
        ground: Grounded,
    ) -> Result<Kernel, AllocError>
        requires ground { IsGrounded spec.now ob.now ground }
        requires left { HasEntry spec.now ground }
        requires kept { AreKept spec.now self.old.cache }
        ensures kernel { IfOk result (λ kernel. kernel ≡ start (problem_of spec.now ob.now)) }
        ensures kept { AreKept spec.now self.new.cache }
    {
        let made = kernel_of(self.alloc, spec, ob, &ground);
        self.keep_whole(spec, ground);
        made
    }

    /// Keeps what a problem leaves for others, where no log is on it.
    pub fn let_go(&mut self, spec: &Spec, ob: &Obligation, posed: Posed)
        requires posed { IsPosed spec.now ob.now posed }
        requires kept { AreKept spec.now self.old.cache }
        ensures { AreKept spec.now self.new.cache }
    {
        let _ob = ob;
        match posed {
            Posed::Many => {}
            Posed::Lazy(ground) => self.keep(spec, ground),
            Posed::Whole(ground) => self.keep_whole(spec, ground),
        }
    }
}
