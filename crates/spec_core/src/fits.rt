// Which worlds and calls fit a specification. Nothing here takes memory.

ghost use Rattle.std.specs.{Prelude.{◌≡◌, map, nat_le}, List.{list_all}};
ghost use Rattle.spec_core.specs.Limits.{most_elements};
ghost use Rattle.spec_core.specs.Fits.{fits_places, is_argument, are_arguments, in_state_range};
ghost use Rattle.spec_core.specs.Fits.{world_fits, call_fits};

use crate::limits::{GREATEST_VALUE, MOST_ELEMENTS};
use crate::operation::{Kind, Param};
use crate::spec::{Const, Spec};
use crate::world::{Call, World};

/// Whether a whole number is in the range of a state, -10^15 to 10^15.
pub fn is_in_state_range(value: i64) -> bool
    ensures { result ≡ in_state_range value }
{
    value.unsigned_abs() <= GREATEST_VALUE
}

fn argument_fits(world: &World, kind: Kind, value: i64) -> bool
    ensures { result ≡ is_argument world.now kind value }
{
    match kind {
        Kind::Sort(sort) => 0 <= value && value.unsigned_abs() < world.size(sort) as u64,
        Kind::Int => true,
    }
}

fn arguments_fit(world: &World, params: &[Param], values: &[i64]) -> bool
    ensures { result ≡ are_arguments world.now params.now values.now }
{
    match params {
        [] => values.is_empty(),
        [param, params @ ..] => match values {
            [] => false,
            [value, values @ ..] => argument_fits(world, param.kind, *value)
                && arguments_fit(world, params, values),
        },
    }
}

fn all_small(sizes: &[u32]) -> bool
    ensures { result ≡ list_all (λ n. nat_le n most_elements) sizes.now }
{
    sizes.iter().all(|size| *size <= MOST_ELEMENTS)
}

fn all_in_range(values: &[i64]) -> bool
    ensures { result ≡ list_all in_state_range values.now }
{
    values.iter().all(|value| is_in_state_range(*value))
}

impl World {
    /// Whether these are elements of the sorts, one for each.
    pub fn has_tuple(&self, sorts: &[u8], tuple: &[u32]) -> bool
        ensures { result ≡ fits_places self.now sorts.now tuple.now }
    {
        match sorts {
            [] => tuple.is_empty(),
            [sort, sorts @ ..] => match tuple {
                [] => false,
                [element, tuple @ ..] => *element < self.size(*sort)
                    && self.has_tuple(sorts, tuple),
            },
        }
    }

    fn has_consts(&self, consts: &[Const], elements: &[u32]) -> bool
        ensures { result ≡ fits_places self.now (map (λ c. c.sort) consts.now) elements.now }
    {
        match consts {
            [] => elements.is_empty(),
            [one, consts @ ..] => match elements {
                [] => false,
                [element, elements @ ..] => *element < self.size(one.sort)
                    && self.has_consts(consts, elements),
            },
        }
    }

    /// Whether there is one size of at most 100 for each sort, and one element of its sort for each constant.
    pub fn fits(&self, spec: &Spec) -> bool
        ensures { result ≡ world_fits spec.now self.now }
    {
        self.sizes.len() == spec.sorts.len()
            && self.has_consts(spec.consts.as_slice(), self.consts.as_slice())
            && all_small(self.sizes.as_slice())
    }
}

impl Call {
    /// Whether the operation exists and has these arguments: elements below their sizes, and numbers in the range of a state.
    pub fn fits(&self, spec: &Spec, world: &World) -> bool
        ensures { result ≡ call_fits spec.now world.now self.now }
    {
        match spec.operations.as_slice().get(self.op as usize) {
            Some(operation) => {
                arguments_fit(world, operation.params.as_slice(), self.args.as_slice())
                    && all_in_range(self.args.as_slice())
            }
            None => false,
        }
    }
}
