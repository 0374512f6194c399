// Tests of the fixed plan, for trading days of one, two and ten calendar days and both groups.
use crate::shared::edges;
use entry::refusals::Refusal;
use plan::fixed::FixedPlan;
use plan::{Session, Slot};
use std::process::Abort;
use std::test::Fail;

const DAY: u32 = 86_400_000;

const WEEKEND: Slot = Slot::Bounded(Session::Weekend, 30);

const MORNING: Slot = Slot::Bounded(Session::Morning, 100);

const EVENING: Slot = Slot::Bounded(Session::Evening, 100);

const NONE: Slot = Slot::NoSession;

// Each edge of each window, with the main session's slot for the group.
fn each_edge(rt: &impl Abort, days: u32, group: u32, main: Slot) -> Result<(), Fail> {
    let plan = FixedPlan::new(days, group)?;
    let last = days.saturating_sub(1);
    let earlier_day = [
        (0, NONE, NONE),
        (36_000_000, NONE, WEEKEND),
        (85_800_000, WEEKEND, NONE),
    ];
    for day in 0..last {
        edges(rt, &plan, day.wrapping_mul(DAY), &earlier_day);
    }
    let last_day = [
        (0, NONE, NONE),
        (25_200_000, NONE, MORNING),
        (36_000_000, MORNING, main),
        (68_400_000, main, EVENING),
        (85_800_000, EVENING, NONE),
    ];
    edges(rt, &plan, last.wrapping_mul(DAY), &last_day);
    let next_day = [
        (0, NONE, NONE),
        (25_200_000, NONE, NONE),
        (36_000_000, NONE, NONE),
        (68_400_000, NONE, NONE),
    ];
    edges(rt, &plan, days.wrapping_mul(DAY), &next_day);
    edges(rt, &plan, u32::MAX, &[(0, NONE, NONE)]);
    Ok(())
}

#[test]
fn quoted_edges(rt: HostRuntime) -> Result<(), Fail> {
    for days in [1, 2, 10] {
        each_edge(&rt, days, 0, Slot::Free(Session::Main))?;
    }
    Ok(())
}

#[test]
fn unquoted_edges(rt: HostRuntime) -> Result<(), Fail> {
    for days in [1, 2, 10] {
        each_edge(&rt, days, 1, Slot::Bounded(Session::Main, 220))?;
    }
    Ok(())
}

// Days, a group, and what is answered: a plan, or the number of the refusal.
const MAKINGS: [(u32, u32, Result<(), u8>); 8] = [
    (0, 0, Err(1)),
    (11, 0, Err(1)),
    (u32::MAX, 1, Err(1)),
    (1, 2, Err(1)),
    (10, u32::MAX, Err(1)),
    (10, 1, Ok(())),
    (1, 0, Ok(())),
    (5, 1, Ok(())),
];

#[test]
fn days_and_groups(rt: HostRuntime) {
    for (days, group, answer) in MAKINGS {
        let made = FixedPlan::new(days, group);
        assert_eq!(rt;
            made.map(|_| ()).map_err(|refusal| refusal.number()),
            answer
        );
    }
}

#[test]
fn codes_of_sessions(rt: HostRuntime) {
    for code in 0..=255u8 {
        match Session::try_from(code) {
            Ok(session) => {
                assert!(rt; (1..=4).contains(&code));
                assert_eq!(rt; u8::from(session), code);
            }
            Err(refusal) => {
                assert!(rt; code == 0 || code > 4);
                assert_eq!(rt; refusal, Refusal::OutOfRange);
            }
        }
    }
}
