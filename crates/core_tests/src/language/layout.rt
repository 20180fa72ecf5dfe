// The layout in which trees are spelled.
use crate::language::reading::is_spelled;

static CASES: [(&[u8], &[u8]); 4] = [
    (b"cise 1", b"cise 1\n"),
    (
        b"cise 1 relation up initially up true # flag",
        b"cise 1\nrelation up\ninitially up true\n",
    ),
    (
        b"cise 1 sort A counter c(A)operation f(a:A,n:int)requires forall b:A.(2*c(b)-n>=0)add c(a)-n when(a!=b)set c(*) 10 end",
        b"cise 1\nsort A\ncounter c ( A )\noperation f ( a : A , n : int )\n  requires forall b : A . ( 2 * c ( b ) - n >= 0 )\n  add c ( a ) - n when ( a != b )\n  set c ( * ) 10\nend\n",
    ),
    (
        b"cise 2 token t conflict t t operation f observes r takes t shared end",
        b"cise 2\ntoken t\nconflict t t\noperation f\n  observes r\n  takes t shared\nend\n",
    ),
];

#[test]
fn trees_are_spelled_in_the_layout(rt: HostRuntime) {
    for (text, layout) in &CASES {
        let spelled = is_spelled(rt.alloc(), text, layout);
        let stays = is_spelled(rt.alloc(), layout, layout);
        assert!(rt; spelled && stays);
    }
}
