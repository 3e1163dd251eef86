use crate::cents::{add, bill, total};
use crate::credit::{Standing, settle};
use crate::usage::{Usage, charge, first_missing, last_missing};

const fn used(minutes: u16, rate: u16) -> Usage {
    Usage { minutes, rate }
}

#[test]
fn a_use_without_a_rate_is_a_fault(rt: HostRuntime) {
    assert_eq!(rt; charge(used(20, 0)), None);
    assert_eq!(rt; charge(used(0, 0)), None);
    assert_eq!(rt; charge(used(0, 1)), Some(0));
    assert_eq!(rt; charge(used(65535, 65535)), Some(4294836225));
}

#[test]
fn amounts_add_up_or_are_a_fault(rt: HostRuntime) {
    assert_eq!(rt; total(&[Some(200), Some(300)]), Some(500));
    assert_eq!(rt; add(Some(u64::MAX), Some(1)), None);
    assert_eq!(rt; add(Some(u64::MAX), Some(0)), Some(u64::MAX));
    assert_eq!(rt; total(&[]), Some(0));
    assert_eq!(rt; total(&[Some(1), None, Some(2)]), None);
}

#[test]
fn two_halves_of_a_log_make_one_total_in_either_order(rt: HostRuntime) {
    let log = [
        used(20, 15),
        used(10, 8),
        used(45, 40),
        used(5, 5),
        used(60, 25),
    ];
    let front = bill(&log[0..2]);
    let back = bill(&log[2..5]);
    assert_eq!(rt; bill(&log), Some(3705));
    assert_eq!(rt; add(front, back), bill(&log));
    assert_eq!(rt; add(back, front), bill(&log));
}

#[test]
fn a_credit_runs_out_at_the_first_record_that_it_does_not_pay_for(rt: HostRuntime) {
    let log = [
        used(40, 15),
        used(20, 20),
        used(1, 1),
        used(20, 0),
        used(9, 0),
    ];
    assert_eq!(rt; settle(1001, &log), Standing::Unknown(3));
    assert_eq!(rt; settle(1000, &log), Standing::RanOut(2));
    assert_eq!(rt; settle(599, &log), Standing::RanOut(0));
    assert_eq!(rt; settle(1000, &log[0..2]), Standing::Left(0));
    assert_eq!(rt; settle(7, &log[3..5]), Standing::Unknown(0));
    assert_eq!(rt; first_missing(&log), Some(3));
    assert_eq!(rt; last_missing(&log), Some(4));
    assert_eq!(rt; first_missing(&log[0..3]), None);
}
