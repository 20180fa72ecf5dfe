// Tables of steps, with what each answers.

use crate::tokens::examples::{purses, shop, tournaments};
use crate::tokens::setting::{Step, Want, check};

/// Accounts: operation 0 deposits, 1 withdraws. Three replicas.
static WITH_ACCOUNTS: &[(Step, Want)] = &[
    (Step::Begin(5, 1, &[7]), Want::NoReplica),
    (Step::Hear(5, 0), Want::NoReplica),
    (Step::Hear(0, 0), Want::NoMessage),
    (Step::Ask(0), Want::NoMessage),
    (Step::Begin(0, 0, &[1, 5]), Want::Arguments),
    // 0 0 is run at once, and its Done is message 0
    (Step::Begin(0, 0, &[0, 100]), Want::Ran(0)),
    (Step::Hear(0, 0), Want::Old),
    (Step::Hear(1, 0), Want::Took(0)),
    (Step::Hear(1, 0), Want::Old),
    // 0 1 and 1 0 wait; the grant of 0 1 is given twice
    (Step::Begin(0, 1, &[0, 60]), Want::Asked(0)),
    (Step::Begin(0, 0, &[7, 1]), Want::Arguments),
    (Step::Begin(0, 0, &[0, 1]), Want::Waiting(0, 1)),
    (Step::Begin(1, 1, &[0, 30]), Want::Asked(1)),
    (Step::Ask(0), Want::Granted(1)),
    (Step::Ask(1), Want::Granted(2)),
    (Step::Ask(0), Want::Granted(3)),
    (Step::Hear(1, 2), Want::Awaits(0, 1)),
    (Step::Hear(1, 1), Want::Old),
    (Step::Hear(0, 3), Want::Ran(1)),
    (Step::Hear(0, 1), Want::Old),
    (Step::Hear(1, 4), Want::Took(1)),
    (Step::Hear(1, 2), Want::Ran(2)),
    // replica 2 gets the Dones late and in the other order
    (Step::Hear(2, 5), Want::Awaits(0, 0)),
    (Step::Hear(2, 4), Want::Awaits(0, 0)),
    (Step::Hear(2, 0), Want::Took(0)),
    (Step::Hear(2, 5), Want::Awaits(0, 1)),
    (Step::Hear(2, 4), Want::Took(1)),
    (Step::Hear(2, 5), Want::Took(2)),
    (Step::Hear(0, 5), Want::Took(2)),
    // 1 1 is void
    (Step::Begin(1, 1, &[0, 70]), Want::Asked(2)),
    (Step::Ask(2), Want::Granted(6)),
    (Step::Hear(1, 6), Want::VoidRequires(2, 7)),
    (Step::Hear(1, 6), Want::Old),
    (Step::Hear(0, 7), Want::Noted),
    (Step::Hear(0, 7), Want::Old),
    (Step::Hear(1, 7), Want::Old),
    // 0 2 waits for the void 1 1 no longer
    (Step::Begin(0, 1, &[0, 10]), Want::Asked(3)),
    (Step::Ask(3), Want::Granted(8)),
    (Step::Hear(0, 8), Want::Ran(3)),
    // values beyond the range of a state
    (Step::Begin(0, 0, &[0, 1000000000000000]), Want::Ran(4)),
    (
        Step::Begin(0, 0, &[0, 1]),
        Want::VoidRange(1000000000000001, 11),
    ),
    (Step::Begin(1, 0, &[0, 4]), Want::Ran(5)),
    (Step::Hear(0, 12), Want::Range(1000000000000004)),
];

#[test]
fn accounts_answer_each_step(rt: HostRuntime) {
    check(
        &rt,
        rt.alloc(),
        purses(),
        &[1],
        3,
        WITH_ACCOUNTS,
        &[1000000000000000, 14, 10],
    );
}

/// Tournaments: operation 0 adds a player, 1 removes one, 2 adds a tournament, 4 enrolls a player. Three replicas.
static WITH_TOURNAMENTS: &[(Step, Want)] = &[
    // the first grant of 0 0 is lost
    (Step::Begin(0, 0, &[0]), Want::Asked(0)),
    (Step::Ask(0), Want::Granted(0)),
    (Step::Ask(0), Want::Granted(1)),
    (Step::Hear(0, 1), Want::Ran(0)),
    (Step::Begin(1, 2, &[0]), Want::Asked(1)),
    (Step::Ask(1), Want::Granted(3)),
    (Step::Hear(1, 3), Want::Ran(1)),
    // 2 0 enrolls once it has taken both
    (Step::Begin(2, 4, &[0, 0]), Want::Asked(2)),
    (Step::Ask(2), Want::Granted(5)),
    (Step::Hear(2, 5), Want::Awaits(0, 0)),
    (Step::Hear(2, 2), Want::Took(0)),
    (Step::Hear(2, 5), Want::Awaits(1, 0)),
    (Step::Hear(2, 4), Want::Took(1)),
    (Step::Hear(2, 5), Want::Ran(2)),
    // 0 1 removes the player, which is void since the player is enrolled
    (Step::Begin(0, 1, &[0]), Want::Asked(3)),
    (Step::Ask(3), Want::Granted(7)),
    (Step::Hear(0, 7), Want::Awaits(2, 0)),
    (Step::Hear(0, 6), Want::Awaits(1, 0)),
    (Step::Hear(0, 4), Want::Took(1)),
    (Step::Hear(0, 6), Want::Took(2)),
    (Step::Hear(0, 7), Want::VoidRequires(1, 8)),
    // 1 1 enrolls the player a second time
    (Step::Begin(1, 4, &[0, 0]), Want::Asked(4)),
    (Step::Ask(4), Want::Granted(9)),
    (Step::Hear(1, 9), Want::Awaits(0, 0)),
    (Step::Hear(1, 2), Want::Took(0)),
    (Step::Hear(1, 6), Want::Took(2)),
    (Step::Hear(1, 9), Want::Awaits(0, 1)),
    (Step::Hear(1, 8), Want::Noted),
    (Step::Hear(1, 9), Want::VoidRequires(4, 10)),
];

#[test]
fn tournaments_answer_each_step(rt: HostRuntime) {
    check(
        &rt,
        rt.alloc(),
        tournaments(),
        &[1, 1],
        3,
        WITH_TOURNAMENTS,
        &[9, 9, 9],
    );
}

/// A shop: operation 0 sets the price and takes the shop alone, 1 orders and shares it, 2 notes what is sold.
static IN_A_SHOP: &[(Step, Want)] = &[
    // orders don't wait for each other
    (Step::Begin(0, 1, &[5]), Want::Asked(0)),
    (Step::Begin(1, 1, &[5]), Want::Asked(1)),
    (Step::Ask(0), Want::Granted(0)),
    (Step::Ask(1), Want::Granted(1)),
    (Step::Hear(1, 1), Want::Ran(0)),
    (Step::Hear(0, 0), Want::Ran(1)),
    // a new price waits for both
    (Step::Begin(0, 0, &[7]), Want::Asked(2)),
    (Step::Ask(2), Want::Granted(4)),
    (Step::Hear(0, 4), Want::Awaits(1, 0)),
    (Step::Hear(0, 2), Want::Took(0)),
    (Step::Hear(0, 4), Want::Ran(2)),
    // what is sold is observed where the call is made
    (Step::Begin(1, 2, &[4]), Want::VoidObserves(1, 6)),
    (Step::Begin(1, 2, &[5]), Want::Ran(3)),
    (Step::Hear(0, 6), Want::Noted),
    (Step::Hear(0, 7), Want::Took(3)),
];

#[test]
fn a_shop_answers_each_step(rt: HostRuntime) {
    check(&rt, rt.alloc(), shop(), &[], 2, IN_A_SHOP, &[]);
}
