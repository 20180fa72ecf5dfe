// Spans of elements, and what a reading and an update leave to a variable.

ghost use Rattle.std.specs.Prelude.{◌≡◌, ℕ};
ghost use Rattle.spec_core.specs.World.{size_of};
ghost use Rattle.touched_lines.specs.Touched.{single, is_var, span_at};

use spec_core::{Elem, Spot, World, elem_at};

/// The elements from a first one on, below an end.
#[derive(Clone, Copy)]
pub struct Span {
    pub from: u32,
    pub to: u32,
}

fn single(value: u64, size: u32) -> Span
    ensures { result ≡ single value size }
{
    if value < size as u64 {
        Span {
            from: value as u32,
            to: value as u32 + 1,
        }
    } else {
        Span { from: 0, to: 0 }
    }
}

fn is_var(number: u8, elem: Elem) -> bool
    ensures { result ≡ is_var number elem }
{
    match elem {
        Elem::Const(_) => false,
        Elem::Param(_) => false,
        Elem::Var(k) => k == number,
    }
}

fn span_at(
    world: &World,
    args: &[i64],
    size: u32,
    number: u8,
    elems: &[Elem],
    spots: &[Spot],
) -> Span
    ensures { result ≡ span_at world.now args.now size number elems.now spots.now }
{
    match elems {
        [] => Span { from: 0, to: size },
        [elem, elems @ ..] => match spots {
            [] => Span { from: 0, to: size },
            [spot, spots @ ..] => {
                if !is_var(number, *elem) {
                    return span_at(world, args, size, number, elems, spots);
                }
                match spot {
                    Spot::Every => span_at(world, args, size, number, elems, spots),
                    Spot::One(named) => single(elem_at(world, args, &[], *named), size),
                }
            }
        },
    }
}

/// What the spots of an update leave to the variable of that number and sort, in a reading at these places.
pub fn span_of(
    world: &World,
    args: &[i64],
    sort: u8,
    number: u8,
    elems: &[Elem],
    spots: &[Spot],
) -> Span
    ensures { result ≡ span_at world.now args.now
        (size_of world.now sort) number elems.now spots.now }
{
    span_at(world, args, world.size(sort), number, elems, spots)
}
