// A lazy ground problem with its sizes.
use crate::Layout;
use crate::counting::Sizes;
use lazy_ground::LazyGround;

/// A lazy ground problem that was measured: how many atoms and clauses the whole problem has, and where the clauses of its pairs stand.
#[derive(Clone, Copy)]
pub struct Measured<'a> {
    pub ground: &'a LazyGround,
    pub sizes: &'a Sizes,
    pub layout: &'a Layout,
}
