// Simulations of recorded schedules under the token protocol: what they print, and what is no schedule.
use crate::replay::{NOTHING, TWO_WITHDRAWALS};
use crate::running::ends_with;
use example_specs::{FLAG, NO_FLAG, PURSES, WITHDRAWALS};

/// A schedule of a specification, with the status and the text that its simulation comes to.
#[derive(Clone, Copy)]
struct Row {
    spec: &'static [u8],
    schedule: &'static [u8],
    status: u8,
    text: &'static [u8],
}

/// A withdrawal that waits for another, and is tried again when that one was taken.
pub const GRANTED: &[u8] = b"{\"sizes\":{\"Account\":1},\"constants\":{},\"replicas\":2,\"steps\":[
{\"replica\":0,\"call\":\"deposit\",\"args\":[0,100]},{\"replica\":1,\"take\":0},
{\"replica\":0,\"call\":\"withdraw\",\"args\":[0,60]},
{\"replica\":1,\"call\":\"withdraw\",\"args\":[0,70]},{\"replica\":1,\"take\":1}]}";

const ROWS: [Row; 5] = [
    Row {
        spec: PURSES,
        schedule: GRANTED,
        status: 0,
        text: b"cise simulate 1
step 0 replica 0 call 0
step 1 replica 1 take 0
step 2 replica 0 call 1
step 3 replica 1 awaits 0 1
step 4 replica 1 take 1
step 4 replica 1 void precondition 2
done 5
replica 0 taken 2
count balance 0 40
replica 1 taken 2
count balance 0 40
",
    },
    Row {
        spec: PURSES,
        schedule: TWO_WITHDRAWALS,
        status: 4,
        text: b"cise simulate 1
step 0 replica 0 call 0
step 1 replica 1 take 0
step 2 replica 0 call 1
step 3 replica 1 awaits 0 1
refused 4 noevent
replica 0 taken 2
count balance 0 40
replica 1 taken 1
count balance 0 100
",
    },
    Row {
        spec: WITHDRAWALS,
        schedule: TWO_WITHDRAWALS,
        status: 1,
        text: b"cise simulate 1
step 0 replica 0 call 0
step 1 replica 1 take 0
step 2 replica 0 call 1
step 3 replica 1 call 2
step 4 replica 0 take 2
broken 4 solvent
replica 0 taken 3
count balance 0 -30
replica 1 taken 2
count balance 0 30
",
    },
    Row {
        spec: NO_FLAG,
        schedule: NOTHING,
        status: 1,
        text: b"cise simulate 1
broken start alive
replica 0 taken 0
",
    },
    Row {
        spec: FLAG,
        schedule: b"[",
        status: 4,
        text: b"refused schedule json\n",
    },
];

pub const SIMULATE: &[&str] = &["simulate", "s.cise", "s.json"];

#[test]
fn prints_what_replicas_do_by_the_protocol(rt: HostRuntime) {
    for row in &ROWS {
        let (spec, schedule) = (row.spec, row.schedule);
        let same = ends_with(
            &rt,
            rt.alloc(),
            SIMULATE,
            spec,
            schedule,
            row.status,
            row.text,
        );
        assert!(rt; same);
    }
}
