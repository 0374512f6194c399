// Tests of the limits at their edges.
use entry::Params;
use limits::{BoundedWindow, dynamic_limits, static_limits};

const MOST: u32 = 1_000_000_000;

// SP, L and the static limits.
const STATIC: [(u32, u32, (u64, u64)); 13] = [
    (1_000, 100, (200, 5_000)),
    (1_003, 10, (201, 5_015)),
    (1_000, 2_500, (0, 6_000)),
    (1_000, 400, (200, 5_000)),
    (1_000, 401, (198, 5_000)),
    (1_000, 2_000, (0, 5_000)),
    (1_000, 2_001, (0, 5_002)),
    (1, 0, (1, 5)),
    (5, 0, (1, 25)),
    (6, 0, (2, 30)),
    (MOST, 0, (200_000_000, 5_000_000_000)),
    (0, 0, (0, 0)),
    (u32::MAX, u32::MAX, (0, 21_474_836_475)),
];

#[test]
fn static_pairs(rt: HostRuntime) {
    for (sp, l, pair) in STATIC {
        let params = Params {
            sp,
            l,
            ur: 0,
            lr: 0,
        };
        assert_eq!(rt; static_limits(params), pair);
    }
}

// SP, UR, LR, the quotation and the dynamic limits with no bounds.
const FREE: [(u32, u32, u32, u32, (u64, u64)); 9] = [
    (1_000, 1_300, 700, 1_000, (940, 1_060)),
    (101, 200, 0, 100, (85, 115)),
    (1_000, 2_000, 0, 50, (0, 200)),
    (1_000, 1_609, 0, 1_000, (850, 1_150)),
    (1_000, 1_509, 0, 1_000, (850, 1_150)),
    (1_000, 1_499, 0, 1_000, (851, 1_149)),
    (1_000, 700, 700, 1_000, (1_000, 1_000)),
    (1_000, 700, 1_300, 1_000, (1_000, 1_000)),
    (MOST, MOST, 0, MOST, (900_000_000, 1_100_000_000)),
];

#[test]
fn free_pairs(rt: HostRuntime) {
    for (sp, ur, lr, quotation, pair) in FREE {
        let params = Params { sp, l: 0, ur, lr };
        assert_eq!(rt; dynamic_limits(params, quotation, None), pair);
    }
}

// The quotation, the session, K, LP, the days left upward and downward, and the dynamic limits with these bounds.
const BOUNDED: [(u32, u8, u32, u32, u8, u8, (u64, u64)); 16] = [
    (1_070, 1, 100, 1_000, 0, 0, (1_010, 1_100)),
    (1_200, 1, 100, 1_000, 0, 0, (1_140, 1_100)),
    (1_000, 1, 100, 1_200, 0, 0, (1_080, 1_060)),
    (1_003, 4, 30, 1_003, 0, 0, (973, 1_033)),
    (1_000, 3, 0, 1_000, 0, 0, (1_000, 1_000)),
    (40, 3, 1_000, 10, 0, 0, (0, 20)),
    (1_000, 3, u32::MAX, u32::MAX, 0, 0, (940, 1_060)),
    (1_080, 2, 220, 1_000, 2, 0, (1_020, 1_100)),
    (1_080, 2, 220, 1_000, 1, 0, (1_020, 1_100)),
    (1_080, 2, 220, 1_000, 0, 2, (1_020, 1_140)),
    (800, 2, 220, 1_000, 2, 0, (780, 860)),
    (800, 2, 220, 1_000, 0, 1, (900, 860)),
    (1_080, 2, 50, 1_000, 2, 2, (1_020, 1_050)),
    (1_080, 1, 220, 1_000, 2, 2, (1_020, 1_140)),
    (1_080, 3, 220, 1_000, 2, 2, (1_020, 1_140)),
    (1_080, 4, 220, 1_000, 2, 2, (1_020, 1_140)),
];

#[test]
fn bounded_pairs(rt: HostRuntime) {
    let params = Params {
        sp: 1_000,
        l: 100,
        ur: 1_300,
        lr: 700,
    };
    for (quotation, session, k, lp, up, down, pair) in BOUNDED {
        let window = BoundedWindow {
            session,
            k,
            lp,
            up,
            down,
        };
        assert_eq!(rt; dynamic_limits(params, quotation, Some(window)), pair);
    }
}
