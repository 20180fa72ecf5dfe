// The constants at each place of some tuples, each constant once. It needs no contract: what is gathered is tested (src/equal.rt).
use items::Items;
use std::alloc::{AllocError, Global};

// A constant among others, unless it is there.
fn with_constant(constants: &mut Items<u32>, constant: u32) -> Result<(), AllocError> {
    if constants.as_slice().contains(&constant) {
        return Ok(());
    }
    constants.push(constant)
}

// The constants at a place.
fn column_at(alloc: Global, tuples: &[Items<u32>], place: usize) -> Result<Items<u32>, AllocError> {
    let mut constants = Items::new(alloc);
    for tuple in tuples {
        if let Some(constant) = tuple.get(place) {
            with_constant(&mut constants, *constant)?;
        }
    }
    Ok(constants)
}

/// The constants at each place that the first of these tuples has.
pub fn columns_of(alloc: Global, tuples: &[Items<u32>]) -> Result<Items<Items<u32>>, AllocError> {
    let mut columns = Items::new(alloc);
    let places = match tuples.first() {
        Some(tuple) => tuple.len(),
        None => 0,
    };
    for place in 0..places {
        columns.push(column_at(alloc, tuples, place)?)?;
    }
    Ok(columns)
}
