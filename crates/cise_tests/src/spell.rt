// The layout that `spell` writes.
use crate::examples::ODD;
use crate::printing::prints;
use example_specs::{DEPOSITS, FLAG, PURSES, ROOMS, SETS, SHOP, TOURNAMENTS, WITHDRAWALS};

/// Texts that are in the layout already.
const LAID_OUT: [&[u8]; 9] = [
    FLAG,
    ODD,
    DEPOSITS,
    WITHDRAWALS,
    PURSES,
    SETS,
    TOURNAMENTS,
    ROOMS,
    SHOP,
];

#[test]
fn spells_what_is_laid_out_as_it_is(rt: HostRuntime) {
    for bytes in &LAID_OUT {
        let same = prints(&rt, rt.alloc(), "spell", bytes, 0, bytes);
        assert!(rt; same);
    }
}

// A text that isn't.
#[test]
fn spells_in_the_layout(rt: HostRuntime) {
    let flat = b"cise 1 relation up initially up true # flag";
    let text = b"cise 1\nrelation up\ninitially up true\n";
    let same = prints(&rt, rt.alloc(), "spell", flat, 0, text);
    assert!(rt; same);
}
