// The formulas of an obligation before those on equal readings, and the readings at the entry.
ghost use Rattle.std.specs.Prelude.{◌≡◌, IfSome};
ghost use Rattle.obligation_list.specs.Breaking as breaking;
ghost use Rattle.obligation_list.specs.Obligations.{IsObligation};
ghost use Rattle.ground_problem.specs.Constants.{constants_of};
ghost use Rattle.ground_atoms.specs.Calls.{calls_of};
ghost use Rattle.ground_groups.specs.Calls.{constants_in};
ghost use Rattle.instances.specs.Entry.{IsBegun};
ghost use Rattle.lazy_ground.specs.{Pairs.{AllNumbered}, Kept.{IsKeptPairs, IsKept}};
ghost use Rattle.lazy_ground.specs.Front.{IsFrontOr};

use crate::grounding::Kept;
use crate::keeping::{EntryReadings, KeptPairs, entry_readings, standing};
use crate::pairs::ReadingPairs;
use ground_atoms::NamedReading;
use ground_groups::{GroundRefused, Grounding, Named, constants, operations_of};
use instances::entry::{Begun, begin};
use instances::grounding::numbered;
use instances::listing::add_all_defined;
use instances::{EntryPart, add_equality};
use items::Items;
use obligation_list::Obligation;
use spec_core::Spec;
use std::alloc::Global;

/// The constants of an obligation, its grounding so far, the readings at the entry, and how much of the grounding is the entry's.
#[derive(Drop)]
pub struct Front {
    pub named: Named,
    pub grounding: Grounding,
    pub readings: Items<NamedReading>,
    pub part: Option<EntryPart>,
}

/// The front; and the pairs of its readings that were kept, where it has the readings that they were made of.
#[derive(Drop)]
pub struct FrontAndPairs {
    pub front: Front,
    pub pairs: Option<Items<ReadingPairs>>,
}

// These formulas, of which those that are true at the entry are made: the rest of what is stated and defined, and then that equality goes
// over constants. The readings are those before equality, which names none.
fn after_entry(
    spec: &Spec,
    ob: &Obligation,
    ops: &[u8],
    named: Named,
    begun: Begun,
    kept: Option<KeptPairs>,
) -> Result<FrontAndPairs, GroundRefused>
    requires member { IsObligation spec.now ob.now }
    requires ops { ops.now ≡ breaking.operations_of ob.now }
    requires calls { named.calls ≡ calls_of spec.now ob.now }
    requires constants { constants_in named ≡ constants_of spec.now ob.now }
    requires begun { IsBegun spec.now ob.now begun }
    requires kept { IfSome kept IsKeptPairs }
    requires numbers { IfSome kept (λ k. AllNumbered begun.grounding.atoms.table k.pairs) }
    ensures { IsFrontOr spec.now ob.now result }
{
    let Begun {
        mut grounding,
        part,
        ..
    } = begun;
    let defined = add_all_defined(&mut grounding, spec, ob, ops, &named);
    or_drop!(defined; kept, part, named, grounding);
    let Ok(read) = entry_readings(grounding.alloc, &grounding.atoms, kept) else {
        drop(part);
        drop(named);
        drop(grounding);
        return Err(GroundRefused::Memory);
    };
    let equated = add_equality(&mut grounding, named.sorts.as_slice());
    or_drop!(equated; read, part, named, grounding);
    let EntryReadings { readings, pairs } = read;
    Ok(FrontAndPairs {
        front: Front {
            named,
            grounding,
            readings,
            part,
        },
        pairs,
    })
}

// These formulas, where these are the operations that are called.
fn front_at(
    alloc: Global,
    spec: &Spec,
    ob: &Obligation,
    ops: &[u8],
    kept: Kept,
) -> Result<FrontAndPairs, GroundRefused>
    requires member { IsObligation spec.now ob.now }
    requires ops { ops.now ≡ breaking.operations_of ob.now }
    requires kept { IsKept spec.now kept }
    ensures { IsFrontOr spec.now ob.now result }
{
    let Kept { entry, pairs } = kept;
    let Ok(arguments) = numbered(alloc, spec, ob, ops) else {
        drop(entry);
        drop(pairs);
        return Err(GroundRefused::Memory);
    };
    let Ok(named) = constants(alloc, spec, ob) else {
        drop(entry);
        drop(pairs);
        drop(arguments);
        return Err(GroundRefused::Memory);
    };
    let begun = or_drop!(begin(alloc, spec, ob, &named, arguments, entry); pairs, named);
    let pairs = standing(&begun, pairs);
    after_entry(spec, ob, ops, named, begun, pairs)
}

/// These formulas of an obligation of the specification; too many where the whole list has too many. They go on from what was kept, where
/// this obligation has the same entry.
pub fn make_front(
    alloc: Global,
    spec: &Spec,
    ob: &Obligation,
    kept: Kept,
) -> Result<FrontAndPairs, GroundRefused>
    requires member { IsObligation spec.now ob.now }
    requires kept { IsKept spec.now kept }
    ensures { IsFrontOr spec.now ob.now result }
{
    let Ok(ops) = operations_of(alloc, ob) else {
        drop(kept);
        return Err(GroundRefused::Memory);
    };
    let result = front_at(alloc, spec, ob, ops.as_slice(), kept);
    drop(ops);
    result
}
