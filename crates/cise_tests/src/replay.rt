// Replays of recorded schedules: what they print, and what is no schedule.
use crate::running::{add, bytes_of, ends_with};
use example_specs::{DEPOSITS, FLAG, NO_FLAG, PURSES, ROOMS, SHOP, TOURNAMENTS, WITHDRAWALS};
use std::alloc::Global;
use std::process::Abort;

/// A schedule of a specification, with the status and the text that its replay comes to.
#[derive(Clone, Copy)]
struct Row {
    spec: &'static [u8],
    schedule: &'static [u8],
    status: u8,
    text: &'static [u8],
}

/// One replica that does nothing.
pub const NOTHING: &[u8] = b"{\"sizes\":{},\"constants\":{},\"replicas\":1,\"steps\":[]}";

/// Two withdrawals that don't know of one another.
pub const TWO_WITHDRAWALS: &[u8] =
    b"{\"sizes\":{\"Account\":1},\"constants\":{},\"replicas\":2,\"steps\":[
{\"replica\":0,\"call\":\"deposit\",\"args\":[0,100]},{\"replica\":1,\"take\":0},
{\"replica\":0,\"call\":\"withdraw\",\"args\":[0,60]},
{\"replica\":1,\"call\":\"withdraw\",\"args\":[0,70]},{\"replica\":0,\"take\":2}]}";

/// What their replay prints where no token orders them.
const OVERDRAWN: &[u8] = b"cise replay 1
step 0 replica 0 call 0
step 1 replica 1 take 0
step 2 replica 0 call 1
step 3 replica 1 call 2
step 4 replica 0 take 2
broken 4 solvent
replica 0 taken 3
count balance 0 -30
replica 1 taken 2
count balance 0 30
";

const ROWS: [Row; 12] = [
    Row {
        spec: WITHDRAWALS,
        schedule: TWO_WITHDRAWALS,
        status: 1,
        text: OVERDRAWN,
    },
    Row {
        spec: PURSES,
        schedule: TWO_WITHDRAWALS,
        status: 4,
        text: b"cise replay 1
step 0 replica 0 call 0
step 1 replica 1 take 0
step 2 replica 0 call 1
refused 3 conflict 1
replica 0 taken 2
count balance 0 40
replica 1 taken 1
count balance 0 100
",
    },
    Row {
        spec: PURSES,
        schedule: b"{\"sizes\":{\"Account\":2},\"constants\":{},\"replicas\":3,\"steps\":[
{\"replica\":0,\"call\":\"deposit\",\"args\":[0,5]},{\"replica\":1,\"call\":\"deposit\",\"args\":[1,7]},
{\"replica\":0,\"take\":1},{\"replica\":1,\"take\":0}]}",
        status: 0,
        text: b"cise replay 1
step 0 replica 0 call 0
step 1 replica 1 call 1
step 2 replica 0 take 1
step 3 replica 1 take 0
done 4
replica 0 taken 2
count balance 0 5
count balance 1 7
replica 1 taken 2
count balance 0 5
count balance 1 7
replica 2 taken 0
",
    },
    Row {
        spec: PURSES,
        schedule: b"{\"sizes\":{\"Account\":2},\"constants\":{},\"replicas\":3,\"steps\":[
{\"replica\":0,\"call\":\"deposit\",\"args\":[0,5]},{\"replica\":1,\"call\":\"deposit\",\"args\":[1,7]},
{\"replica\":0,\"take\":1},{\"replica\":1,\"take\":0},
{\"replica\":1,\"call\":\"withdraw\",\"args\":[0,3]},{\"replica\":2,\"take\":2}]}",
        status: 4,
        text: b"cise replay 1
step 0 replica 0 call 0
step 1 replica 1 call 1
step 2 replica 0 take 1
step 3 replica 1 take 0
step 4 replica 1 call 2
refused 5 missing 1
replica 0 taken 2
count balance 0 5
count balance 1 7
replica 1 taken 3
count balance 0 2
count balance 1 7
replica 2 taken 0
",
    },
    Row {
        spec: ROOMS,
        schedule: b"{\"sizes\":{\"Room\":0},\"constants\":{},\"replicas\":1,\"steps\":[{\"replica\":0,\"call\":\"start\",\"args\":[]}]}",
        status: 4,
        text: b"cise replay 1
refused 0 precondition 1
replica 0 taken 0
",
    },
    Row {
        spec: DEPOSITS,
        schedule: b"{\"sizes\":{\"Account\":1},\"constants\":{},\"replicas\":1,\"steps\":[
{\"replica\":0,\"call\":\"deposit\",\"args\":[0,1000000000000000]},{\"replica\":0,\"call\":\"deposit\",\"args\":[0,1]}]}",
        status: 4,
        text: b"cise replay 1
step 0 replica 0 call 0
refused 1 range balance 0 1000000000000001
replica 0 taken 1
count balance 0 1000000000000000
",
    },
    Row {
        spec: TOURNAMENTS,
        schedule: b"{\"sizes\":{\"Player\":2,\"Tournament\":1},\"constants\":{},\"replicas\":2,\"steps\":[
{\"replica\":0,\"call\":\"add_player\",\"args\":[0]},{\"replica\":0,\"call\":\"add_tourn\",\"args\":[0]},
{\"replica\":0,\"call\":\"enroll\",\"args\":[0,0]},{\"replica\":1,\"call\":\"add_player\",\"args\":[1]},
{\"replica\":1,\"take\":0},{\"replica\":1,\"take\":1},{\"replica\":1,\"take\":2},{\"replica\":0,\"take\":3}]}",
        status: 0,
        text: b"cise replay 1
step 0 replica 0 call 0
step 1 replica 0 call 1
step 2 replica 0 call 2
step 3 replica 1 call 3
step 4 replica 1 take 0
step 5 replica 1 take 1
step 6 replica 1 take 2
step 7 replica 0 take 3
done 8
replica 0 taken 4
true player 0
true player 1
true tourn 0
true enrolled 0 0
count seats 0 9
replica 1 taken 4
true player 0
true player 1
true tourn 0
true enrolled 0 0
count seats 0 9
",
    },
    Row {
        spec: FLAG,
        schedule: NOTHING,
        status: 0,
        text: b"cise replay 1
done 0
replica 0 taken 0
true up
",
    },
    Row {
        spec: NO_FLAG,
        schedule: NOTHING,
        status: 1,
        text: b"cise replay 1
broken start alive
replica 0 taken 0
",
    },
    Row {
        spec: FLAG,
        schedule: b"{\"sizes\":{},\"constants\":{},\"replicas\":1,\"steps\":[{\"replica\":0,\"take\":7}]}",
        status: 4,
        text: b"cise replay 1
refused 0 noevent
replica 0 taken 0
true up
",
    },
    Row {
        spec: SHOP,
        schedule: b"{\"sizes\":{},\"constants\":{},\"replicas\":1,\"steps\":[
{\"replica\":0,\"call\":\"order\",\"args\":[5]},{\"replica\":0,\"call\":\"note\",\"args\":[4]}]}",
        status: 4,
        text: b"cise replay 1
step 0 replica 0 call 0
refused 1 observation 1
replica 0 taken 1
count price 5
count sold 5
",
    },
    Row {
        spec: SHOP,
        schedule: b"{\"sizes\":{},\"constants\":{},\"replicas\":2,\"steps\":[
{\"replica\":0,\"call\":\"order\",\"args\":[5]},{\"replica\":1,\"call\":\"order\",\"args\":[5]},
{\"replica\":1,\"call\":\"reprice\",\"args\":[7]}]}",
        status: 4,
        text: b"cise replay 1
step 0 replica 0 call 0
step 1 replica 1 call 1
refused 2 conflict 0
replica 0 taken 1
count price 5
count sold 5
replica 1 taken 1
count price 5
count sold 5
",
    },
];

/// The words of a replay.
pub const REPLAY: &[&str] = &["replay", "s.cise", "s.json"];

#[test]
fn prints_what_the_schedule_comes_to(rt: HostRuntime) {
    for row in &ROWS {
        let (spec, schedule) = (row.spec, row.schedule);
        let same = ends_with(
            &rt,
            rt.alloc(),
            REPLAY,
            spec,
            schedule,
            row.status,
            row.text,
        );
        assert!(rt; same);
    }
}

/// A schedule that is refused, and what is said of it.
type Refused = (&'static [u8], &'static [u8]);

/// A specification of one sort with a constant.
const HOME: &[u8] = b"cise 1 sort Room const home : Room";

/// No JSON, or another top.
fn of_tops() -> &'static [Refused] {
    &[
        (b"", b"json"),
        (b"{", b"json"),
        (b"\xff", b"json"),
        (b"[]", b"shape top"),
        (
            b"{\"sizes\":{},\"constants\":{},\"replicas\":1}",
            b"shape top",
        ),
        (
            b"{\"sizes\":{},\"constants\":{},\"replicas\":1,\"step\":[]}",
            b"shape top",
        ),
        (
            b"{\"sizes\":{},\"constants\":{},\"replicas\":1,\"steps\":[],\"more\":0}",
            b"shape top",
        ),
    ]
}

/// Sizes.
fn of_sizes() -> &'static [Refused] {
    &[
        (
            b"{\"sizes\":[],\"constants\":{},\"replicas\":0,\"steps\":[]}",
            b"shape sizes",
        ),
        (
            b"{\"sizes\":{},\"constants\":{},\"replicas\":0,\"steps\":[]}",
            b"shape sizes",
        ),
        (
            b"{\"sizes\":{\"room\":1},\"constants\":{},\"replicas\":0,\"steps\":[]}",
            b"shape sizes",
        ),
        (
            b"{\"sizes\":{\"Room\":-1},\"constants\":{},\"replicas\":0,\"steps\":[]}",
            b"shape sizes Room",
        ),
        (
            b"{\"sizes\":{\"Room\":1.0},\"constants\":{},\"replicas\":0,\"steps\":[]}",
            b"shape sizes Room",
        ),
        (
            b"{\"sizes\":{\"Room\":1e0},\"constants\":{},\"replicas\":0,\"steps\":[]}",
            b"shape sizes Room",
        ),
        (
            b"{\"sizes\":{\"Room\":-0},\"constants\":{},\"replicas\":0,\"steps\":[]}",
            b"shape sizes Room",
        ),
        (
            b"{\"sizes\":{\"Room\":9223372036854775808},\"constants\":{},\"replicas\":0,\"steps\":[]}",
            b"shape sizes Room",
        ),
        (
            b"{\"sizes\":{\"Room\":9223372036854775807},\"constants\":{},\"replicas\":0,\"steps\":[]}",
            b"size sizes Room",
        ),
        (
            b"{\"sizes\":{\"Room\":65},\"constants\":{},\"replicas\":0,\"steps\":[]}",
            b"size sizes Room",
        ),
    ]
}

/// Constants, and how many replicas there are.
fn of_constants() -> &'static [Refused] {
    &[
        (
            b"{\"sizes\":{\"Room\":64},\"constants\":{},\"replicas\":0,\"steps\":[]}",
            b"shape constants",
        ),
        (
            b"{\"sizes\":{\"Room\":65,\"Room\":2},\"constants\":{\"home\":2},\"replicas\":0,\"steps\":[]}",
            b"size constants home",
        ),
        (
            b"{\"sizes\":{\"Room\":2},\"constants\":{\"home\":\"\"},\"replicas\":0,\"steps\":[]}",
            b"shape constants home",
        ),
        (
            b"{\"sizes\":{\"Room\":2},\"constants\":{\"home\":1},\"replicas\":\"\",\"steps\":{}}",
            b"shape replicas",
        ),
        (
            b"{\"sizes\":{\"Room\":2},\"constants\":{\"home\":1},\"replicas\":0,\"steps\":{}}",
            b"size replicas",
        ),
        (
            b"{\"sizes\":{\"Room\":2},\"constants\":{\"home\":1},\"replicas\":-1,\"steps\":{}}",
            b"size replicas",
        ),
        (
            b"{\"sizes\":{\"Room\":2},\"constants\":{\"home\":1},\"replicas\":17,\"steps\":{}}",
            b"size replicas",
        ),
    ]
}

/// Steps.
fn of_steps() -> &'static [Refused] {
    &[
        (
            b"{\"sizes\":{\"Room\":2},\"constants\":{\"home\":1},\"replicas\":16,\"steps\":{}}",
            b"shape steps",
        ),
        (
            b"{\"sizes\":{\"Room\":2},\"constants\":{\"home\":1},\"replicas\":1,\"steps\":[{}]}",
            b"shape step 0",
        ),
        (
            b"{\"sizes\":{\"Room\":2},\"constants\":{\"home\":1},\"replicas\":1,\"steps\":[{\"replica\":0,\"take\":-1}]}",
            b"shape step 0",
        ),
        (
            b"{\"sizes\":{\"Room\":2},\"constants\":{\"home\":1},\"replicas\":1,\"steps\":[{\"replica\":0,\"take\":4294967296}]}",
            b"shape step 0",
        ),
        (
            b"{\"sizes\":{\"Room\":2},\"constants\":{\"home\":1},\"replicas\":1,\"steps\":[{\"replica\":0,\"take\":0,\"args\":[]}]}",
            b"shape step 0",
        ),
        (
            b"{\"sizes\":{\"Room\":2},\"constants\":{\"home\":1},\"replicas\":1,\"steps\":[{\"replica\":0,\"take\":0},{\"replica\":0,\"call\":\"\",\"args\":[]}]}",
            b"shape step 1",
        ),
        (
            b"{\"sizes\":{\"Room\":2},\"constants\":{\"home\":1},\"replicas\":1,\"steps\":[{\"replica\":0,\"call\":\"123456789012345678901234567890123\",\"args\":[]}]}",
            b"shape step 0",
        ),
        (
            b"{\"sizes\":{\"Room\":2},\"constants\":{\"home\":1},\"replicas\":1,\"steps\":[{\"replica\":0,\"call\":\"f\",\"args\":[1.5]}]}",
            b"shape step 0",
        ),
        (
            b"{\"sizes\":{\"Room\":2},\"constants\":{\"home\":1},\"replicas\":1,\"steps\":[{\"replica\":0,\"call\":\"f\",\"args\":{}}]}",
            b"shape step 0",
        ),
        (
            b"{\"sizes\":{\"Room\":2},\"constants\":{\"home\":1},\"replicas\":1,\"steps\":[7]}",
            b"shape step 0",
        ),
    ]
}

/// Whether some bytes are refused so, as a schedule of a specification of one sort with a constant.
fn bytes_refused(rt: &impl Abort, alloc: Global, bytes: &[u8], line: &[u8]) -> bool {
    let mut text = bytes_of(rt, alloc, b"refused schedule ");
    add(rt, &mut text, line);
    add(rt, &mut text, b"\n");
    let refused = ends_with(rt, alloc, REPLAY, HOME, bytes, 4, &text);
    drop(text);
    refused
}

#[test]
fn refuses_what_is_no_schedule(rt: HostRuntime) {
    for rows in [of_tops(), of_sizes(), of_constants(), of_steps()] {
        for (schedule, line) in rows {
            assert!(rt; bytes_refused(&rt, rt.alloc(), schedule, line));
        }
    }
}

/// A text that repeats parts so often.
fn repeated(
    rt: &impl Abort,
    alloc: Global,
    front: &[u8],
    part: &[u8],
    behind: &[u8],
    count: usize,
) -> Vec<u8> {
    let mut text = bytes_of(rt, alloc, front);
    for _ in 0..count {
        add(rt, &mut text, part);
    }
    for _ in 0..count {
        add(rt, &mut text, behind);
    }
    text
}

/// Whether a schedule with so many takings of the first event is refused so.
fn takings_refused(rt: &impl Abort, alloc: Global, count: usize, line: &[u8]) -> bool {
    let front = b"{\"sizes\":{\"Room\":2},\"constants\":{\"home\":1},\"replicas\":1,\"steps\":[7";
    let mut text = repeated(rt, alloc, front, b",7", b"", count.saturating_sub(1));
    add(rt, &mut text, b"]}");
    let refused = bytes_refused(rt, alloc, &text, line);
    drop(text);
    refused
}

/// Whether brackets that open and close so often are refused so.
fn brackets_refused(rt: &impl Abort, alloc: Global, depth: usize, line: &[u8]) -> bool {
    let text = repeated(rt, alloc, b"", b"[", b"]", depth);
    let refused = bytes_refused(rt, alloc, &text, line);
    drop(text);
    refused
}

#[test]
fn refuses_what_is_too_much(rt: HostRuntime) {
    assert!(rt; takings_refused(&rt, rt.alloc(), 10_000, b"shape step 0"));
    assert!(rt; takings_refused(&rt, rt.alloc(), 10_001, b"size steps"));
    assert!(rt; brackets_refused(&rt, rt.alloc(), 200, b"json"));
}
