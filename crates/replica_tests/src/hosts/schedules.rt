// Schedules of the bank, with the texts that were worked out by hand.

use crate::hosts::bank::{TAKEN_TOO_EARLY, TWO_DEPOSITS, TWO_WITHDRAWALS};
use crate::hosts::running::hosted;
use std::alloc::Global;
use std::process::Abort;

/// A schedule of the bank comes to this status and this text.
fn check(rt: &impl Abort, alloc: Global, schedule: &[u8], status: u8, text: &[u8]) {
    let report = hosted(rt, alloc, schedule);
    let so = report.status == status && report.text.as_slice() == text;
    drop(report);
    assert!(rt; so);
}

#[test]
fn a_withdrawal_that_knows_too_little(rt: HostRuntime) {
    let text = b"cise replay 1
step 0 replica 0 call 0
step 1 replica 1 take 0
step 2 replica 0 call 1
refused 3 conflict 1
replica 0 taken 2
count balance 0 40
replica 1 taken 1
count balance 0 100
";
    check(&rt, rt.alloc(), TWO_WITHDRAWALS, 4, text);
}

#[test]
fn two_deposits_in_two_orders(rt: HostRuntime) {
    let text = b"cise replay 1
step 0 replica 0 call 0
step 1 replica 1 call 1
step 2 replica 0 take 1
step 3 replica 1 take 0
done 4
replica 0 taken 2
count balance 0 5
count balance 1 7
replica 1 taken 2
count balance 0 5
count balance 1 7
replica 2 taken 0
";
    check(&rt, rt.alloc(), TWO_DEPOSITS, 0, text);
}

#[test]
fn an_event_before_what_it_has_seen(rt: HostRuntime) {
    let text = b"cise replay 1
step 0 replica 0 call 0
step 1 replica 1 call 1
step 2 replica 0 take 1
step 3 replica 1 take 0
step 4 replica 1 call 2
refused 5 missing 1
replica 0 taken 2
count balance 0 5
count balance 1 7
replica 1 taken 3
count balance 0 2
count balance 1 7
replica 2 taken 0
";
    check(&rt, rt.alloc(), TAKEN_TOO_EARLY, 4, text);
}
