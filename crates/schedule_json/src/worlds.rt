// The world of a schedule.

ghost use Rattle.std.specs.Prelude.{◌≡◌, ◌⊎◌, true, option_map, Ok, Err, IfOk, IfErr, codes};
ghost use Rattle.std.specs.{List.{list_all}, Str.{is_utf8}};
ghost use Rattle.serde_json.specs.{View.{view}, Find.{get}};
ghost use Rattle.schedule_json.specs.Worlds.{number_below as number_below_of, sizes_at, sizes_of};
ghost use Rattle.schedule_json.specs.Worlds.{elements_at, elements_of, const_names, world_of};

use crate::parts::{is_keyed_by_constants, is_keyed_by_names, member, natural};
use crate::refusal::{Fault, Path, ScheduleRefused};
use items::Items;
use serde_json::Value;
use spec_core::{Const, Name, Spec, World};
use std::alloc::Global;

/// A size is at most 64.
const SIZE_LIMIT: u32 = 65;

/// A whole number that isn't negative, below a limit.
fn number_below(value: Option<&Value>, limit: u32) -> Result<u32, Fault>
    ensures { result ≡ number_below_of limit (option_map (λ v. view v.now) value.entry) }
{
    match value.and_then(natural) {
        None => Err(Fault::Shape),
        Some(number) => {
            if number < limit as u64 {
                Ok(number as u32)
            } else {
                Err(Fault::Size)
            }
        }
    }
}

/// The size of each sort.
fn read_each_size(
    alloc: Global,
    names: &[Name],
    value: &Value,
) -> Result<Items<u32>, ScheduleRefused>
    requires { list_all is_utf8 names.now ≡ true }
    ensures ok { IfOk result (λ sizes. sizes_at names.now (view value.now) ≡ Ok sizes) }
    ensures err { IfErr result
        (λ why. (why ≡ ScheduleRefused.Memory) ⊎ (sizes_at names.now (view value.now) ≡ Err why)) }
{
    let mut sizes = Items::new(alloc);
    for name in names {
        match number_below(member(value, name.bytes()), SIZE_LIMIT) {
            Ok(size) => sizes.push(size)?,
            Err(fault) => return Err(fault.at(Path::Size(Name::new(alloc, name.bytes())?))),
        }
    }
    Ok(sizes)
}

/// The element of each constant, where the sorts have these sizes.
fn read_each_element(
    alloc: Global,
    sizes: &[u32],
    consts: &[Const],
    value: &Value,
) -> Result<Items<u32>, ScheduleRefused>
    requires { list_all is_utf8 (const_names consts.now) ≡ true }
    ensures ok { IfOk result
        (λ elements. elements_at sizes.now consts.now (view value.now) ≡ Ok elements) }
    ensures err { IfErr result
        (λ why. (why ≡ ScheduleRefused.Memory)
        ⊎ (elements_at sizes.now consts.now (view value.now) ≡ Err why)) }
{
    let mut elements = Items::new(alloc);
    for one in consts {
        let limit = sizes.get(one.sort as usize).copied().unwrap_or(0);
        match number_below(member(value, one.name.bytes()), limit) {
            Ok(element) => elements.push(element)?,
            Err(fault) => {
                return Err(fault.at(Path::Constant(Name::new(alloc, one.name.bytes())?)));
            }
        }
    }
    Ok(elements)
}

/// The sizes, from what stands at their key.
fn read_sizes(
    alloc: Global,
    spec: &Spec,
    value: Option<&Value>,
) -> Result<Items<u32>, ScheduleRefused>
    ensures ok { IfOk result
        (λ sizes. sizes_of spec.now (option_map (λ v. view v.now) value.entry) ≡ Ok sizes) }
    ensures err { IfErr result
        (λ why. (why ≡ ScheduleRefused.Memory)
        ⊎ (sizes_of spec.now (option_map (λ v. view v.now) value.entry) ≡ Err why)) }
{
    spec.well_formed();
    match value {
        Some(value) if is_keyed_by_names(value, spec.sorts.as_slice()) => {
            read_each_size(alloc, spec.sorts.as_slice(), value)
        }
        _ => Err(ScheduleRefused::Shape { path: Path::Sizes }),
    }
}

/// The elements of the constants, from what stands at their key, where the sorts have these sizes.
fn read_elements(
    alloc: Global,
    spec: &Spec,
    sizes: &[u32],
    value: Option<&Value>,
) -> Result<Items<u32>, ScheduleRefused>
    ensures ok { IfOk result
        (λ elements. elements_of spec.now sizes.now (option_map (λ v. view v.now) value.entry)
        ≡ Ok elements) }
    ensures err { IfErr result
        (λ why. (why ≡ ScheduleRefused.Memory)
        ⊎ (elements_of spec.now sizes.now (option_map (λ v. view v.now) value.entry) ≡ Err why)) }
{
    spec.well_formed();
    match value {
        Some(value) if is_keyed_by_constants(value, spec.consts.as_slice()) => {
            read_each_element(alloc, sizes, spec.consts.as_slice(), value)
        }
        _ => Err(ScheduleRefused::Shape {
            path: Path::Constants,
        }),
    }
}

/// The world of a schedule.
pub fn read_world(alloc: Global, spec: &Spec, value: &Value) -> Result<World, ScheduleRefused>
    ensures ok { IfOk result (λ world. world_of spec.now (view value.now) ≡ Ok world) }
    ensures err { IfErr result
        (λ why. (why ≡ ScheduleRefused.Memory) ⊎ (world_of spec.now (view value.now) ≡ Err why)) }
{
    let sizes = read_sizes(alloc, spec, value.get("sizes"))?;
    let consts = read_elements(alloc, spec, sizes.as_slice(), value.get("constants"))?;
    Ok(World { sizes, consts })
}
