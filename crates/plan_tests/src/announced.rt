// Tests of the announced plan: windows that touch and overlap, figures out of range, and a full plan.
use crate::shared::{Edge, edges};
use plan::announced::AnnouncedPlan;
use plan::announced::calls::MOST_WINDOWS;
use plan::{Announcement, Bounding, Plan, Session, Slot, Window};
use std::process::Abort;

const NONE: Slot = Slot::NoSession;

const MAIN: Slot = Slot::Free(Session::Main);

const MORNING: Slot = Slot::Free(Session::Morning);

const EVENING: Slot = Slot::Bounded(Session::Evening, 100);

const WEEKEND: Slot = Slot::Free(Session::Weekend);

// Start, end, session, free or bounded, K, and what is answered: nothing, or the number of the refusal.
type Call = (u32, u32, u8, Bounding, u32, Result<(), u8>);

fn announce(rt: &impl Abort, plan: &mut AnnouncedPlan, calls: &[Call]) {
    for &(start, end, session, bounding, k, answer) in calls {
        let asked = Announcement {
            start,
            end,
            session,
            bounding,
            k,
        };
        assert_eq!(rt;
            plan.window(asked).map_err(|refusal| refusal.number()),
            answer
        );
    }
}

// Announces windows to a new plan, and then reads the slots around each time.
fn replay(rt: &impl Abort, calls: &[Call], rows: &[Edge]) {
    let mut records = [Window::default(); MOST_WINDOWS];
    let mut plan = AnnouncedPlan::new(&mut records);
    announce(rt, &mut plan, calls);
    edges(rt, &plan, 0, rows);
}

#[test]
fn blank_record(rt: HostRuntime) {
    let blank = Window {
        start: 0,
        end: 0,
        slot: Slot::NoSession,
    };
    assert_eq!(rt; Window::default(), blank);
}

#[test]
fn no_window(rt: HostRuntime) {
    replay(
        &rt,
        &[],
        &[
            (0, NONE, NONE),
            (36_000_000, NONE, NONE),
            (u32::MAX, NONE, NONE),
        ],
    );
}

const TOUCHING: [Call; 4] = [
    (40_000_000, 50_000_000, 3, Bounding::Bounded, 100, Ok(())),
    (36_000_000, 40_000_000, 2, Bounding::Free, 0, Ok(())),
    (30_000_000, 36_000_000, 1, Bounding::Free, 1_000, Ok(())),
    (50_000_000, 864_000_000, 4, Bounding::Free, 1_000, Ok(())),
];

#[test]
fn touching(rt: HostRuntime) {
    replay(
        &rt,
        &TOUCHING,
        &[
            (30_000_000, NONE, MORNING),
            (36_000_000, MORNING, MAIN),
            (40_000_000, MAIN, EVENING),
            (50_000_000, EVENING, WEEKEND),
            (864_000_000, WEEKEND, NONE),
        ],
    );
}

const OVERLAPPING: [Call; 10] = [
    (100, 200, 2, Bounding::Free, 0, Ok(())),
    (300, 400, 3, Bounding::Bounded, 100, Ok(())),
    (99, 101, 1, Bounding::Free, 0, Err(12)),
    (199, 201, 1, Bounding::Free, 0, Err(12)),
    (100, 200, 1, Bounding::Free, 0, Err(12)),
    (120, 130, 1, Bounding::Free, 0, Err(12)),
    (0, 500, 1, Bounding::Free, 0, Err(12)),
    (200, 301, 1, Bounding::Free, 0, Err(12)),
    (150, 300, 1, Bounding::Free, 0, Err(12)),
    (399, 401, 1, Bounding::Free, 0, Err(12)),
];

#[test]
fn overlapping(rt: HostRuntime) {
    let mut records = [Window::default(); MOST_WINDOWS];
    let mut plan = AnnouncedPlan::new(&mut records);
    announce(&rt, &mut plan, &OVERLAPPING);
    edges(
        &rt,
        &plan,
        0,
        &[
            (100, NONE, MAIN),
            (200, MAIN, NONE),
            (300, NONE, EVENING),
            (400, EVENING, NONE),
        ],
    );
    announce(&rt, &mut plan, &[(200, 300, 1, Bounding::Free, 0, Ok(()))]);
    edges(
        &rt,
        &plan,
        0,
        &[
            (100, NONE, MAIN),
            (200, MAIN, MORNING),
            (300, MORNING, EVENING),
            (400, EVENING, NONE),
        ],
    );
}

const OUT_OF_RANGE: [Call; 11] = [
    (100, 200, 2, Bounding::Free, 0, Ok(())),
    (100, 200, 0, Bounding::Free, 0, Err(1)),
    (100, 200, 5, Bounding::Free, 0, Err(1)),
    (300, 400, 2, Bounding::Free, 1_001, Err(1)),
    (300, 400, 2, Bounding::Bounded, 1_001, Err(1)),
    (300, 300, 2, Bounding::Free, 0, Err(1)),
    (400, 300, 2, Bounding::Free, 0, Err(1)),
    (300, 864_000_001, 2, Bounding::Free, 0, Err(1)),
    (u32::MAX, u32::MAX, 255, Bounding::Bounded, u32::MAX, Err(1)),
    (100, 200, 2, Bounding::Free, 1_000, Err(12)),
    (300, 864_000_000, 3, Bounding::Bounded, 100, Ok(())),
];

#[test]
fn out_of_range(rt: HostRuntime) {
    replay(
        &rt,
        &OUT_OF_RANGE,
        &[
            (100, NONE, MAIN),
            (200, MAIN, NONE),
            (300, NONE, EVENING),
            (864_000_000, EVENING, NONE),
        ],
    );
}

// The start of the window that is announced at a turn: one of 32 starts, each once, in no order.
fn start_at(turn: u32) -> u32 {
    turn.wrapping_mul(7).wrapping_rem(32).wrapping_mul(1_000)
}

const PAST_FULL: [Call; 3] = [
    (32_000, 33_000, 2, Bounding::Free, 0, Err(13)),
    (31_999, 33_000, 2, Bounding::Free, 0, Err(12)),
    (33_000, 32_000, 2, Bounding::Free, 0, Err(1)),
];

#[test]
fn full(rt: HostRuntime) {
    let mut records = [Window::default(); MOST_WINDOWS];
    let mut plan = AnnouncedPlan::new(&mut records);
    for turn in 0..32u32 {
        let start = start_at(turn);
        announce(
            &rt,
            &mut plan,
            &[(
                start,
                start.wrapping_add(1_000),
                2,
                Bounding::Bounded,
                turn,
                Ok(()),
            )],
        );
    }
    announce(&rt, &mut plan, &PAST_FULL);
    for turn in 0..32u32 {
        let slot = Slot::Bounded(Session::Main, turn);
        assert_eq!(rt; plan.slot(start_at(turn)), slot);
        assert_eq!(rt; plan.slot(start_at(turn).wrapping_add(999)), slot);
    }
    assert_eq!(rt; plan.slot(32_000), NONE);
}
