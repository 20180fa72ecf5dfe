// What stops a run: words that aren't accepted, and a source or a sink that fails.
use crate::printing::prints_despite;
use example_specs::FLAG;

/// A command for a specification of one flag, at a source and a sink that fail at these calls.
#[derive(Clone, Copy)]
struct Run {
    command: &'static str,
    read_fails: &'static [u32],
    write_fails: &'static [u32],
    status: u8,
    text: &'static [u8],
}

const RUNS: [Run; 5] = [
    Run {
        command: "chek",
        read_fails: &[],
        write_fails: &[],
        status: 2,
        text: b"refused words\n",
    },
    Run {
        command: "check",
        read_fails: &[0],
        write_fails: &[],
        status: 6,
        text: b"",
    },
    Run {
        command: "spell",
        read_fails: &[3],
        write_fails: &[],
        status: 6,
        text: b"",
    },
    Run {
        command: "check",
        read_fails: &[],
        write_fails: &[1],
        status: 7,
        text: b"cise rep",
    },
    Run {
        command: "spell",
        read_fails: &[],
        write_fails: &[0],
        status: 7,
        text: b"",
    },
];

#[test]
fn names_what_stopped_it(rt: HostRuntime) {
    for it in &RUNS {
        let same = prints_despite(
            &rt,
            rt.alloc(),
            it.command,
            FLAG,
            it.read_fails,
            it.write_fails,
            it.status,
            it.text,
        );
        assert!(rt; same);
    }
}
