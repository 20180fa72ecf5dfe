// The generated specifications beside a text, and how many obligations they have.

use crate::reading::{reading_of, spec_of};
use crate::sameness::same_spec;
use obligation_list::list;
use sample_specs::sample_spec;
use std::alloc::Global;
use std::process::Abort;

fn second() -> &'static [u8] {
    b"cise 1
sort Item
relation r0 ( Item )
relation r1 ( Item )
token t ( Item )
conflict t ( x ) t ( x )
invariant needs1 forall x : Item . ( r1 ( x ) implies r0 ( x ) )
operation add0 ( x : Item )
  insert r0 ( x )
  takes t ( x )
end
operation del0 ( x : Item )
  requires not r1 ( x )
  remove r0 ( x )
  takes t ( x )
end
operation add1 ( x : Item )
  requires r0 ( x )
  insert r1 ( x )
  takes t ( x )
end
operation del1 ( x : Item )
  remove r1 ( x )
  takes t ( x )
end"
}

#[test]
fn the_second_is_what_its_text_says(rt: HostRuntime) {
    let reading = reading_of(&rt, rt.alloc(), second());
    let written = spec_of(&rt, &reading);
    let made = sample_spec(rt.alloc(), 2).expect(&rt, "memory");
    let same = same_spec(written, &made);
    reading.let_go();
    drop(made);
    assert!(rt; same);
}

#[test]
fn the_second_and_the_third_differ(rt: HostRuntime) {
    let second = sample_spec(rt.alloc(), 2).expect(&rt, "memory");
    let third = sample_spec(rt.alloc(), 3).expect(&rt, "memory");
    let same = same_spec(&second, &third);
    drop(second);
    drop(third);
    assert!(rt; !same);
}

/// How many obligations a generated specification has.
fn obligations(rt: &impl Abort, alloc: Global, n: u8) -> usize {
    assert!(rt; 1 <= n && n <= 12);
    let spec = sample_spec(alloc, n).expect(rt, "memory");
    let found = list(alloc, &spec).expect(rt, "memory").len();
    drop(spec);
    found
}

#[test]
fn they_have_so_many_obligations(rt: HostRuntime) {
    assert!(rt; obligations(&rt, rt.alloc(), 1) == 3);
    assert!(rt; obligations(&rt, rt.alloc(), 2) == 27);
    assert!(rt; obligations(&rt, rt.alloc(), 12) == 1367);
}
