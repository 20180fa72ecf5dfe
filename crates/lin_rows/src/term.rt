// Terms of a row.

/// A coefficient at a place. The places are numbers of integer names.
#[derive(Clone, Copy, PartialEq, Eq, Debug)]
pub struct RowTerm {
    pub place: u32,
    pub coef: i128,
}
