// What is true at the entry, made once for obligations that share it.
//
// The obligations of one operation, of two, or of any whose parameters are alike, begin with the same invariants at the same constants,
// under the same numbers. What was made of them is cut back to where an obligation's own formulas begin, and goes on from there.
ghost use Rattle.std.specs.Prelude.{◌≡◌, [], true, false, length, map, take, List, Some, None};
ghost use Rattle.std.specs.{Prelude.{IfOk, IfSome, IsTrue}, List.{list_all}};
ghost use Rattle.obligation_list.specs.Obligations.{IsObligation};
ghost use Rattle.ground_problem.specs.Constants.{constants_of};
ghost use Rattle.ground_problem.specs.Entry as entry;
ghost use Rattle.ground_numbers.specs.Numbered.{Numbered, is_below};
ghost use Rattle.ground_atoms.specs.{Formulas.{form_of}, Sizes.{size_of, cut_back}};
ghost use Rattle.ground_groups.specs.{Calls.{constants_in, numbered_arguments}, Limited.{Appends}};
ghost use Rattle.clausify.specs.Kept.{AreClausesOf};
ghost use Rattle.instances.specs.Entry.{known_from, HasClausesOf, IsEntry, IsSharedOr, IsBegunOr};
ghost use Rattle.instances.specs.Entry.{IsCutBack};

use clausify::{KeptClauses, keep_clauses};
use ground_atoms::{Atoms, GroundFormula, KnownSize};
use ground_groups::entry::add_invariants;
use ground_groups::{GroundRefused, Grounding, Named};
use items::Items;
use obligation_list::Obligation;
use spec_core::Spec;
use std::alloc::{AllocError, Global};

/// How much of what was made belongs to the entry: the whole numbers among the arguments of calls, what is known, and the formulas.
#[derive(Clone, Copy)]
pub struct EntrySize {
    pub arguments: usize,
    pub known: KnownSize,
    pub formulas: usize,
}

/// The size of an entry, and the clauses of its formulas.
#[derive(Drop)]
pub struct EntryPart {
    pub size: EntrySize,
    pub clauses: KeptClauses,
}

/// The clauses that are kept, and of how many of the first formulas they are.
pub fn kept_clauses(part: &Option<EntryPart>) -> Option<(&KeptClauses, usize)>
    ensures { (fs : List Numbered) → IfSome part.now (HasClausesOf fs)
        → IfSome result (λ found. AreClausesOf (take found.1 fs) found.0.now) }
{
    match part {
        Some(part) => Some((&part.clauses, part.size.formulas)),
        None => None,
    }
}

/// The invariants at constants of these sorts, made and numbered. What was appended to them since stands behind.
#[derive(Drop)]
pub struct Entry {
    pub sorts: Items<u8>,
    pub atoms: Atoms,
    pub formulas: Items<GroundFormula>,
    pub part: EntryPart,
}

/// A grounding once what is true at the entry of an obligation is made; nothing of it is shared in the initial state. It is cut where it
/// was cut back from an entry that was kept.
#[derive(Drop)]
pub struct Begun {
    pub grounding: Grounding,
    pub part: Option<EntryPart>,
    pub is_cut: bool,
}

/// Whether an entry is for constants of these sorts and for calls with these whole numbers among their arguments.
pub fn is_alike(entry: &Entry, sorts: &[u8], arguments: &Atoms) -> bool
    ensures sorts { IsTrue result → entry.now.sorts ≡ sorts.now }
    ensures count { IsTrue result
        → entry.now.part.size.arguments ≡ length arguments.now.table.ints }
    ensures arguments { IsTrue result
        → take (length arguments.now.table.ints) entry.now.atoms.table.ints
        ≡ arguments.now.table.ints }
{
    arguments.size().ints == entry.part.size.arguments
        && entry.sorts.as_slice() == sorts
        && entry.atoms.begins_with_arguments(arguments)
}

// How much there is.
fn size_of(arguments: usize, grounding: &Grounding) -> EntrySize
    ensures arguments { result.arguments ≡ arguments }
    ensures known { result.known ≡ size_of grounding.now.atoms }
    ensures formulas { result.formulas ≡ length grounding.now.formulas }
{
    EntrySize {
        arguments,
        known: grounding.atoms.size(),
        formulas: grounding.formulas.len(),
    }
}

// An entry without what was appended to it.
fn cut(alloc: Global, entry: Entry) -> Begun
    ensures atoms { result.grounding.atoms ≡ cut_back entry.part.size.known entry.atoms }
    ensures formulas { map form_of result.grounding.formulas
        ≡ take entry.part.size.formulas (map form_of entry.formulas) }
    ensures part { IfSome result.part (λ p. (p.size.arguments ≡ entry.part.size.arguments)
        × (p.size.known ≡ size_of result.grounding.atoms)
        × (p.size.formulas ≡ length result.grounding.formulas) × (p.clauses ≡ entry.part.clauses)) }
{
    let Entry {
        sorts,
        atoms,
        formulas,
        part,
    } = entry;
    drop(sorts);
    let EntryPart { size, clauses } = part;
    let atoms = atoms.cut_back(size.known);
    let mut list = formulas.into_vec();
    list.truncate(size.formulas);
    let grounding = Grounding {
        atoms,
        formulas: Items::from_vec(list),
        alloc,
    };
    let size = size_of(size.arguments, &grounding);
    Begun {
        grounding,
        part: Some(EntryPart { size, clauses }),
        is_cut: true,
    }
}

// The clauses of the formulas that were made. The atoms that name their parts come behind those that are known.
fn clauses_of(grounding: &Grounding) -> Result<KeptClauses, AllocError>
    requires { list_all (is_below (length grounding.now.atoms.table.atoms))
        (map form_of grounding.now.formulas) ≡ true }
    ensures { IfOk result (AreClausesOf (map form_of grounding.now.formulas)) }
{
    let Ok(first) = u32::try_from(grounding.atoms.size().atoms) else {
        return Err(AllocError);
    };
    keep_clauses(grounding.alloc, first, grounding.formulas.as_slice())
}

// The invariants at some constants, made of what is known.
fn made(alloc: Global, spec: &Spec, named: &Named, arguments: Atoms) -> Result<Begun, GroundRefused>
    ensures shared { IsSharedOr spec.now arguments named.now.sorts result }
    ensures cut { IfOk result (λ b. b.is_cut ≡ false) }
{
    let count = arguments.size().ints;
    let mut grounding = Grounding::new(alloc, arguments);
    let added = add_invariants(&mut grounding, spec, named);
    or_drop!(added; grounding);
    let Ok(clauses) = clauses_of(&grounding) else {
        drop(grounding);
        return Err(GroundRefused::Memory);
    };
    let size = size_of(count, &grounding);
    Ok(Begun {
        grounding,
        part: Some(EntryPart { size, clauses }),
        is_cut: false,
    })
}

// The invariants at some constants, made of what is known, or cut back from what was kept.
fn shared(
    alloc: Global,
    spec: &Spec,
    named: &Named,
    arguments: Atoms,
    kept: Option<Entry>,
) -> Result<Begun, GroundRefused>
    requires arguments { arguments ≡ known_from arguments.table.ints }
    requires kept { IfSome kept (IsEntry spec.now) }
    ensures shared { IsSharedOr spec.now arguments named.now.sorts result }
    ensures cut { IfOk result (IsCutBack kept) }
{
    match kept {
        Some(entry) => {
            if is_alike(&entry, named.sorts.as_slice(), &arguments) {
                drop(arguments);
                return Ok(cut(alloc, entry));
            }
            drop(entry);
            made(alloc, spec, named, arguments)
        }
        None => made(alloc, spec, named, arguments),
    }
}

/// What is true at the entry of an obligation, made: cut back from what was kept of another one, where this one's constants and
/// arguments are like its.
pub fn begin(
    alloc: Global,
    spec: &Spec,
    ob: &Obligation,
    named: &Named,
    arguments: Atoms,
    kept: Option<Entry>,
) -> Result<Begun, GroundRefused>
    requires member { IsObligation spec.now ob.now }
    requires constants { constants_in named.now ≡ constants_of spec.now ob.now }
    requires arguments { arguments ≡ numbered_arguments spec.now ob.now }
    requires kept { IfSome kept (IsEntry spec.now) }
    ensures begun { IsBegunOr spec.now ob.now result }
    ensures cut { IfOk result (IsCutBack kept) }
{
    match ob {
        Obligation::Init { .. } => {
            drop(kept);
            Ok(Begun {
                grounding: Grounding::new(alloc, arguments),
                part: None,
                is_cut: false,
            })
        }
        Obligation::Safety { .. } => shared(alloc, spec, named, arguments, kept),
        Obligation::Commute { .. } => shared(alloc, spec, named, arguments, kept),
        Obligation::Stable { .. } => shared(alloc, spec, named, arguments, kept),
    }
}
