// The vertex of a tableau: the values of the names where each slack that isn't basic is at its bound.
use crate::number::{Number, at, put};
use crate::tableau::{Equation, Tableau};
use std::alloc::Global;

/// A fraction for each name. The denominators are positive, and divide the common one.
#[derive(Drop)]
pub struct Vertex<N> {
    pub numerators: Vec<N>,
    pub denominators: Vec<N>,
    pub common: N,
}

// Writes the value of a basic name.
fn put_value<N: Number>(vertex: &mut Vertex<N>, equation: &Equation<N>) -> Option<()> {
    if equation.denominator.is_one() {
        put(
            vertex.numerators.as_mut_slice(),
            equation.basic,
            equation.value,
        );
        return Some(());
    }
    let common = equation.value.divisor(equation.denominator);
    let numerator = equation.value.over(common)?;
    let denominator = equation.denominator.over(common)?;
    put(vertex.numerators.as_mut_slice(), equation.basic, numerator);
    put(
        vertex.denominators.as_mut_slice(),
        equation.basic,
        denominator,
    );
    let shared = vertex.common.divisor(denominator);
    vertex.common = vertex.common.over(shared)?.times(denominator)?;
    Some(())
}

fn put_values<N: Number>(vertex: &mut Vertex<N>, tableau: &Tableau<N>) -> Option<()> {
    for equation in tableau.equations.as_slice() {
        if equation.basic < tableau.names {
            put_value(vertex, equation)?;
        }
    }
    Some(())
}

/// The values of the names.
pub fn vertex_of<N: Number>(tableau: &Tableau<N>, alloc: Global) -> Option<Vertex<N>> {
    let numerators = vec![in alloc; N::zero(); tableau.names].ok()?;
    let denominators = vec![in alloc; N::one(); tableau.names].ok()?;
    let mut vertex = Vertex {
        numerators,
        denominators,
        common: N::one(),
    };
    match put_values(&mut vertex, tableau) {
        Some(()) => Some(vertex),
        None => {
            drop(vertex);
            None
        }
    }
}

/// The numerator of a name's value over the common denominator.
pub fn numerator_at<N: Number>(vertex: &Vertex<N>, name: usize) -> Option<N> {
    let numerator = at(vertex.numerators.as_slice(), name);
    let denominator = at(vertex.denominators.as_slice(), name);
    numerator.times(vertex.common.over(denominator)?)
}
