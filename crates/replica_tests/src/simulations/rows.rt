// Schedules, with the status and the text that each comes to.

use crate::simulations::examples::{no_flag, purses, withdrawals};
use crate::specifications::{read, spec_of};
use byte_ports::Answer;
use schedule_json::MOST_SCHEDULE_BYTES;
use simulate_text::simulate_bytes;
use spec_core::Spec;
use std::alloc::Global;
use std::process::Abort;

/// A schedule, with what it comes to.
struct Row {
    schedule: &'static [u8],
    status: u8,
    text: &'static [u8],
}

/// Simulations with accounts that a token guards.
static WITH_PURSES: &[Row] = &[
    // a withdrawal waits for another, and is run when that was taken
    Row {
        schedule: b"{\"sizes\":{\"Account\":1},\"constants\":{},\"replicas\":2,\"steps\":[
{\"replica\":0,\"call\":\"deposit\",\"args\":[0,100]},{\"replica\":1,\"take\":0},
{\"replica\":0,\"call\":\"withdraw\",\"args\":[0,60]},
{\"replica\":1,\"call\":\"withdraw\",\"args\":[0,30]},{\"replica\":1,\"take\":1}]}",
        status: 0,
        text: b"cise simulate 1
step 0 replica 0 call 0
step 1 replica 1 take 0
step 2 replica 0 call 1
step 3 replica 1 awaits 0 1
step 4 replica 1 take 1
step 4 replica 1 call 2
done 5
replica 0 taken 2
count balance 0 40
replica 1 taken 3
count balance 0 10
",
    },
    // or it becomes void
    Row {
        schedule: b"{\"sizes\":{\"Account\":1},\"constants\":{},\"replicas\":2,\"steps\":[
{\"replica\":0,\"call\":\"deposit\",\"args\":[0,100]},{\"replica\":1,\"take\":0},
{\"replica\":0,\"call\":\"withdraw\",\"args\":[0,60]},
{\"replica\":1,\"call\":\"withdraw\",\"args\":[0,70]},{\"replica\":1,\"take\":1}]}",
        status: 0,
        text: b"cise simulate 1
step 0 replica 0 call 0
step 1 replica 1 take 0
step 2 replica 0 call 1
step 3 replica 1 awaits 0 1
step 4 replica 1 take 1
step 4 replica 1 void precondition 2
done 5
replica 0 taken 2
count balance 0 40
replica 1 taken 2
count balance 0 40
",
    },
    // an event is taken once
    Row {
        schedule: b"{\"sizes\":{\"Account\":1},\"constants\":{},\"replicas\":2,\"steps\":[
{\"replica\":0,\"call\":\"deposit\",\"args\":[0,100]},{\"replica\":1,\"take\":0},
{\"replica\":0,\"call\":\"withdraw\",\"args\":[0,60]},
{\"replica\":1,\"call\":\"withdraw\",\"args\":[0,30]},{\"replica\":1,\"take\":1},{\"replica\":1,\"take\":0}]}",
        status: 0,
        text: b"cise simulate 1
step 0 replica 0 call 0
step 1 replica 1 take 0
step 2 replica 0 call 1
step 3 replica 1 awaits 0 1
step 4 replica 1 take 1
step 4 replica 1 call 2
step 5 replica 1 old 0
done 6
replica 0 taken 2
count balance 0 40
replica 1 taken 3
count balance 0 10
",
    },
    // an event comes early, and a replica whose call waits is called
    Row {
        schedule: b"{\"sizes\":{\"Account\":1},\"constants\":{},\"replicas\":2,\"steps\":[
{\"replica\":0,\"call\":\"deposit\",\"args\":[0,9]},{\"replica\":0,\"call\":\"withdraw\",\"args\":[0,1]},
{\"replica\":1,\"take\":1},{\"replica\":1,\"call\":\"withdraw\",\"args\":[0,0]},
{\"replica\":1,\"call\":\"deposit\",\"args\":[0,1]}]}",
        status: 4,
        text: b"cise simulate 1
step 0 replica 0 call 0
step 1 replica 0 call 1
step 2 replica 1 early 0
step 3 replica 1 awaits 0 1
refused 4 waiting
replica 0 taken 2
count balance 0 8
replica 1 taken 0
",
    },
    // a value is beyond the range of a state: of a call, which is void, and of an event that is taken
    Row {
        schedule: b"{\"sizes\":{\"Account\":1},\"constants\":{},\"replicas\":2,\"steps\":[
{\"replica\":0,\"call\":\"deposit\",\"args\":[0,1000000000000000]},{\"replica\":0,\"call\":\"deposit\",\"args\":[0,1]},
{\"replica\":1,\"call\":\"deposit\",\"args\":[0,1]},{\"replica\":1,\"take\":0}]}",
        status: 4,
        text: b"cise simulate 1
step 0 replica 0 call 0
step 1 replica 0 void range balance 0 1000000000000001
step 2 replica 1 call 1
refused 3 range balance 0 1000000000000001
replica 0 taken 1
count balance 0 1000000000000000
replica 1 taken 1
count balance 0 1
",
    },
    Row {
        schedule: b"{\"sizes\":{\"Account\":1},\"constants\":{},\"replicas\":1,\"steps\":[{\"replica\":0,\"take\":0}]}",
        status: 4,
        text: b"cise simulate 1
refused 0 noevent
replica 0 taken 0
",
    },
    Row {
        schedule: b"{\"sizes\":{\"Account\":1},\"constants\":{},\"replicas\":1,\"steps\":[{\"replica\":1,\"call\":\"give\",\"args\":[]}]}",
        status: 4,
        text: b"cise simulate 1
refused 0 replica
replica 0 taken 0
",
    },
    Row {
        schedule: b"{\"sizes\":{\"Account\":1},\"constants\":{},\"replicas\":1,\"steps\":[{\"replica\":0,\"call\":\"give\",\"args\":[]}]}",
        status: 4,
        text: b"cise simulate 1
refused 0 operation
replica 0 taken 0
",
    },
    Row {
        schedule: b"{\"sizes\":{\"Account\":1},\"constants\":{},\"replicas\":1,\"steps\":[{\"replica\":0,\"call\":\"deposit\",\"args\":[1,1]}]}",
        status: 4,
        text: b"cise simulate 1
refused 0 arguments
replica 0 taken 0
",
    },
    Row {
        schedule: b"{}",
        status: 4,
        text: b"refused schedule shape top
",
    },
];

/// A simulation in which nothing orders two withdrawals.
static WITH_WITHDRAWALS: &[Row] = &[Row {
    schedule: b"{\"sizes\":{\"Account\":1},\"constants\":{},\"replicas\":2,\"steps\":[
{\"replica\":0,\"call\":\"deposit\",\"args\":[0,100]},{\"replica\":1,\"take\":0},
{\"replica\":0,\"call\":\"withdraw\",\"args\":[0,60]},
{\"replica\":1,\"call\":\"withdraw\",\"args\":[0,70]},{\"replica\":0,\"take\":2}]}",
    status: 1,
    text: b"cise simulate 1
step 0 replica 0 call 0
step 1 replica 1 take 0
step 2 replica 0 call 1
step 3 replica 1 call 2
step 4 replica 0 take 2
broken 4 solvent
replica 0 taken 3
count balance 0 -30
replica 1 taken 2
count balance 0 30
",
}];

/// A simulation whose initial state breaks an invariant.
static WITH_NO_FLAG: &[Row] = &[Row {
    schedule: b"{\"sizes\":{},\"constants\":{},\"replicas\":1,\"steps\":[]}",
    status: 1,
    text: b"cise simulate 1
broken start alive
replica 0 taken 0
",
}];

fn comes_to(report: &Answer, row: &Row) -> bool {
    report.status == row.status && report.text.as_slice() == row.text
}

fn check_row(rt: &impl Abort, alloc: Global, spec: &Spec, row: &Row) {
    assert!(rt; row.schedule.len() <= MOST_SCHEDULE_BYTES);
    let report = simulate_bytes(alloc, spec, row.schedule).expect(rt, "memory");
    let so = comes_to(&report, row);
    drop(report);
    assert!(rt; so);
}

fn check(rt: &impl Abort, alloc: Global, text: &[u8], rows: &[Row]) {
    let reading = read(rt, alloc, text);
    let spec = spec_of(rt, &reading);
    for row in rows {
        check_row(rt, alloc, spec, row);
    }
    reading.let_go();
}

#[test]
fn waits_runs_voids_and_refuses(rt: HostRuntime) {
    check(&rt, rt.alloc(), purses(), WITH_PURSES);
}

#[test]
fn stops_where_a_state_breaks(rt: HostRuntime) {
    check(&rt, rt.alloc(), withdrawals(), WITH_WITHDRAWALS);
}

#[test]
fn stops_where_the_first_state_breaks(rt: HostRuntime) {
    check(&rt, rt.alloc(), no_flag(), WITH_NO_FLAG);
}
