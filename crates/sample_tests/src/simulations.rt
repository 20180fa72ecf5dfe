// Simulations of schedules of the bank, with the texts that were worked out by hand.
use crate::replays::{
    OUT_OF_RANGE, Row, TAKEN_TOO_EARLY, TWO_DEPOSITS, TWO_WITHDRAWALS, check_all,
};

/// A withdrawal that waits for another one, and is run when that was taken.
const GRANTED: &[u8] = b"{\"sizes\":{\"Account\":1},\"constants\":{},\"replicas\":2,\"steps\":[
{\"replica\":0,\"call\":\"deposit\",\"args\":[0,100]},{\"replica\":1,\"take\":0},
{\"replica\":0,\"call\":\"withdraw\",\"args\":[0,60]},
{\"replica\":1,\"call\":\"withdraw\",\"args\":[0,30]},{\"replica\":1,\"take\":1}]}";

/// The same, but that withdrawal is of more than the other one leaves.
const TOO_MUCH: &[u8] = b"{\"sizes\":{\"Account\":1},\"constants\":{},\"replicas\":2,\"steps\":[
{\"replica\":0,\"call\":\"deposit\",\"args\":[0,100]},{\"replica\":1,\"take\":0},
{\"replica\":0,\"call\":\"withdraw\",\"args\":[0,60]},
{\"replica\":1,\"call\":\"withdraw\",\"args\":[0,70]},{\"replica\":1,\"take\":1}]}";

/// The first one again, and then an event is taken a second time.
const TAKEN_AGAIN: &[u8] = b"{\"sizes\":{\"Account\":1},\"constants\":{},\"replicas\":2,\"steps\":[
{\"replica\":0,\"call\":\"deposit\",\"args\":[0,100]},{\"replica\":1,\"take\":0},
{\"replica\":0,\"call\":\"withdraw\",\"args\":[0,60]},
{\"replica\":1,\"call\":\"withdraw\",\"args\":[0,30]},{\"replica\":1,\"take\":1},
{\"replica\":1,\"take\":0}]}";

/// A withdrawal of more than there is, a deposit of less than nothing, and a withdrawal that leaves nothing.
const VOID_CALLS: &[u8] = b"{\"sizes\":{\"Account\":1},\"constants\":{},\"replicas\":2,\"steps\":[
{\"replica\":0,\"call\":\"deposit\",\"args\":[0,5]},
{\"replica\":0,\"call\":\"withdraw\",\"args\":[0,6]},
{\"replica\":1,\"call\":\"deposit\",\"args\":[0,-1]},
{\"replica\":0,\"call\":\"withdraw\",\"args\":[0,5]}]}";

/// A deposit at a replica that isn't there.
const NO_REPLICA: &[u8] = b"{\"sizes\":{\"Account\":1},\"constants\":{},\"replicas\":1,\"steps\":[
{\"replica\":0,\"call\":\"deposit\",\"args\":[0,5]},
{\"replica\":1,\"call\":\"deposit\",\"args\":[0,7]}]}";

static ROWS: &[Row] = &[
    Row {
        schedule: GRANTED,
        status: 0,
        text: b"cise simulate 1
step 0 replica 0 call 0
step 1 replica 1 take 0
step 2 replica 0 call 1
step 3 replica 1 awaits 0 1
step 4 replica 1 take 1
step 4 replica 1 call 2
done 5
replica 0 taken 2
count balance 0 40
replica 1 taken 3
count balance 0 10
",
    },
    Row {
        schedule: TOO_MUCH,
        status: 0,
        text: b"cise simulate 1
step 0 replica 0 call 0
step 1 replica 1 take 0
step 2 replica 0 call 1
step 3 replica 1 awaits 0 1
step 4 replica 1 take 1
step 4 replica 1 void precondition 2
done 5
replica 0 taken 2
count balance 0 40
replica 1 taken 2
count balance 0 40
",
    },
    Row {
        schedule: TAKEN_AGAIN,
        status: 0,
        text: b"cise simulate 1
step 0 replica 0 call 0
step 1 replica 1 take 0
step 2 replica 0 call 1
step 3 replica 1 awaits 0 1
step 4 replica 1 take 1
step 4 replica 1 call 2
step 5 replica 1 old 0
done 6
replica 0 taken 2
count balance 0 40
replica 1 taken 3
count balance 0 10
",
    },
    Row {
        schedule: TWO_WITHDRAWALS,
        status: 4,
        text: b"cise simulate 1
step 0 replica 0 call 0
step 1 replica 1 take 0
step 2 replica 0 call 1
step 3 replica 1 awaits 0 1
refused 4 noevent
replica 0 taken 2
count balance 0 40
replica 1 taken 1
count balance 0 100
",
    },
    Row {
        schedule: TWO_DEPOSITS,
        status: 0,
        text: b"cise simulate 1
step 0 replica 0 call 0
step 1 replica 1 call 1
step 2 replica 0 take 1
step 3 replica 1 take 0
done 4
replica 0 taken 2
count balance 0 5
count balance 1 7
replica 1 taken 2
count balance 0 5
count balance 1 7
replica 2 taken 0
",
    },
    Row {
        schedule: TAKEN_TOO_EARLY,
        status: 0,
        text: b"cise simulate 1
step 0 replica 0 call 0
step 1 replica 1 call 1
step 2 replica 0 take 1
step 3 replica 1 take 0
step 4 replica 1 call 2
step 5 replica 2 early 1
done 6
replica 0 taken 2
count balance 0 5
count balance 1 7
replica 1 taken 3
count balance 0 2
count balance 1 7
replica 2 taken 0
",
    },
    Row {
        schedule: VOID_CALLS,
        status: 0,
        text: b"cise simulate 1
step 0 replica 0 call 0
step 1 replica 0 void precondition 2
step 2 replica 1 void precondition 1
step 3 replica 0 call 1
done 4
replica 0 taken 2
replica 1 taken 0
",
    },
    Row {
        schedule: OUT_OF_RANGE,
        status: 0,
        text: b"cise simulate 1
step 0 replica 0 call 0
step 1 replica 0 void range balance 0 1000000000000001
done 2
replica 0 taken 1
count balance 0 1
",
    },
    Row {
        schedule: NO_REPLICA,
        status: 4,
        text: b"cise simulate 1
step 0 replica 0 call 0
refused 1 replica
replica 0 taken 1
count balance 0 5
",
    },
    Row {
        schedule: b"[",
        status: 4,
        text: b"refused schedule json\n",
    },
];

#[test]
fn simulations_come_to_their_texts(rt: HostRuntime) {
    check_all(&rt, rt.alloc(), &["simulate", "schedule.json"], ROWS);
}
