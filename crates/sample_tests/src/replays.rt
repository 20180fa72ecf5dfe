// Replays of schedules of the bank, with the texts that were worked out by hand.
use crate::running::{Port, ends_with};
use std::alloc::Global;
use std::process::Abort;

/// Two withdrawals from one account, of which the second doesn't know the first.
pub const TWO_WITHDRAWALS: &[u8] =
    b"{\"sizes\":{\"Account\":1},\"constants\":{},\"replicas\":2,\"steps\":[
{\"replica\":0,\"call\":\"deposit\",\"args\":[0,100]},{\"replica\":1,\"take\":0},
{\"replica\":0,\"call\":\"withdraw\",\"args\":[0,60]},
{\"replica\":1,\"call\":\"withdraw\",\"args\":[0,70]},{\"replica\":0,\"take\":2}]}";

/// Two deposits, which two of three replicas take in different orders.
pub const TWO_DEPOSITS: &[u8] =
    b"{\"sizes\":{\"Account\":2},\"constants\":{},\"replicas\":3,\"steps\":[
{\"replica\":0,\"call\":\"deposit\",\"args\":[0,5]},{\"replica\":1,\"call\":\"deposit\",\"args\":[1,7]},
{\"replica\":0,\"take\":1},{\"replica\":1,\"take\":0}]}";

/// The same, and then a withdrawal that the third replica takes before what it has seen.
pub const TAKEN_TOO_EARLY: &[u8] =
    b"{\"sizes\":{\"Account\":2},\"constants\":{},\"replicas\":3,\"steps\":[
{\"replica\":0,\"call\":\"deposit\",\"args\":[0,5]},{\"replica\":1,\"call\":\"deposit\",\"args\":[1,7]},
{\"replica\":0,\"take\":1},{\"replica\":1,\"take\":0},
{\"replica\":1,\"call\":\"withdraw\",\"args\":[0,3]},{\"replica\":2,\"take\":2}]}";

/// A deposit that leaves a balance beyond 10^15.
pub const OUT_OF_RANGE: &[u8] =
    b"{\"sizes\":{\"Account\":1},\"constants\":{},\"replicas\":1,\"steps\":[
{\"replica\":0,\"call\":\"deposit\",\"args\":[0,1]},
{\"replica\":0,\"call\":\"deposit\",\"args\":[0,1000000000000000]}]}";

/// A schedule with the status and the text that it comes to.
#[derive(Clone, Copy)]
pub struct Row {
    pub schedule: &'static [u8],
    pub status: u8,
    pub text: &'static [u8],
}

static ROWS: &[Row] = &[
    Row {
        schedule: TWO_WITHDRAWALS,
        status: 4,
        text: b"cise replay 1
step 0 replica 0 call 0
step 1 replica 1 take 0
step 2 replica 0 call 1
refused 3 conflict 1
replica 0 taken 2
count balance 0 40
replica 1 taken 1
count balance 0 100
",
    },
    Row {
        schedule: TWO_DEPOSITS,
        status: 0,
        text: b"cise replay 1
step 0 replica 0 call 0
step 1 replica 1 call 1
step 2 replica 0 take 1
step 3 replica 1 take 0
done 4
replica 0 taken 2
count balance 0 5
count balance 1 7
replica 1 taken 2
count balance 0 5
count balance 1 7
replica 2 taken 0
",
    },
    Row {
        schedule: TAKEN_TOO_EARLY,
        status: 4,
        text: b"cise replay 1
step 0 replica 0 call 0
step 1 replica 1 call 1
step 2 replica 0 take 1
step 3 replica 1 take 0
step 4 replica 1 call 2
refused 5 missing 1
replica 0 taken 2
count balance 0 5
count balance 1 7
replica 1 taken 3
count balance 0 2
count balance 1 7
replica 2 taken 0
",
    },
    Row {
        schedule: OUT_OF_RANGE,
        status: 4,
        text: b"cise replay 1
step 0 replica 0 call 0
refused 1 range balance 0 1000000000000001
replica 0 taken 1
count balance 0 1
",
    },
];

/// Checks that a command comes to the status and the text of each row.
pub fn check_all(rt: &impl Abort, alloc: Global, words: &[&str], rows: &[Row]) {
    for row in rows {
        let same = ends_with(rt, alloc, words, row.schedule, None, row.status, row.text);
        assert!(rt; same);
    }
}

#[test]
fn schedules_come_to_their_texts(rt: HostRuntime) {
    check_all(&rt, rt.alloc(), &["replay", "schedule.json"], ROWS);
}

/// Words that aren't accepted.
static REFUSED: &[&[&str]] = &[
    &[],
    &["replay"],
    &["simulate"],
    &["check", "s"],
    &["replay", "s", "t"],
    &["simulate", "s", "t"],
];

#[test]
fn other_words_are_refused(rt: HostRuntime) {
    for words in REFUSED {
        let text = b"refused words\n";
        let same = ends_with(&rt, rt.alloc(), words, TWO_DEPOSITS, None, 2, text);
        assert!(rt; same);
    }
}

#[test]
fn a_fault_stops_a_run(rt: HostRuntime) {
    let words = &["replay", "schedule.json"];
    let unread = ends_with(
        &rt,
        rt.alloc(),
        words,
        TWO_DEPOSITS,
        Some(Port::Source),
        6,
        b"",
    );
    assert!(rt; unread);
    let unwritten = ends_with(
        &rt,
        rt.alloc(),
        words,
        TWO_DEPOSITS,
        Some(Port::Sink),
        7,
        b"",
    );
    assert!(rt; unwritten);
}
