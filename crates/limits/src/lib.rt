//! The static and the dynamic limits of a security: exact figures, rounded inward. Any figures get an answer.
#![tactic(auto)]

ghost use Rattle.std.specs.Prelude.{◌≡◌, ◌≤◌};
ghost use Rattle.limits.specs.Rounded.{static_limits, dynamic_limits, tightened, bounds_of};
ghost use Rattle.limits.specs.Exact.{Least, Greatest, FromStaticLower, ToStaticUpper, FromDynamicLower, ToDynamicUpper};
ghost use Rattle.limits.specs.Worked.{Worked};

use entry::Params;

/// The code of the main session, as crate `plan` numbers the sessions.
const MAIN: u8 = 2;

/// The greatest K of the main session's bounds while days are left.
const TIGHT: u32 = 100;

/// A bounded window as the limits read it: its session's code, its K in thousandths, the session's LP, and the days left in
/// each direction. A code that no session has is judged like that of a session other than the main one.
// The limits answer for any figures, so that the session is a code: an enum of the sessions would ask more of callers.
#[derive(Clone, Copy, PartialEq, Eq, Debug)]
pub struct BoundedWindow {
    pub session: u8,
    pub k: u32,
    pub lp: u32,
    pub up: u8,
    pub down: u8,
}

/// The static limits, lower and upper. They depend on SP and L alone.
pub fn static_limits(params: Params) -> (u64, u64)
    ensures answer { result ≡ static_limits params }
    ensures lower { Least (FromStaticLower params) result.0 }
    ensures upper { Greatest (ToStaticUpper params) result.1 }
{
    let sp = params.sp as u64;
    let twice = 2 * params.l as u64;
    let fifth = sp.div_ceil(5);
    (
        sp.saturating_sub(twice).min(fifth),
        (sp + twice).max(5 * sp),
    )
}

/// The dynamic limits, lower and upper. Without a bounded window they have no bounds. Where LR is above UR, they are both the
/// quotation, apart from the bounds.
pub fn dynamic_limits(params: Params, quotation: u32, bounded: Option<BoundedWindow>) -> (u64, u64)
    ensures answer { result ≡ dynamic_limits params quotation bounded }
    ensures lower { params.lr ≤ params.ur → Least (FromDynamicLower params quotation bounded) result.0 }
    ensures upper { params.lr ≤ params.ur → Greatest (ToDynamicUpper params quotation bounded) result.1 }
{
    let by_price = 15 * params.sp as u64;
    let by_risk = 10 * (params.ur as u64).saturating_sub(params.lr as u64);
    let radius = by_price.min(by_risk) / 100;
    let q = quotation as u64;
    let (lower, upper) = (q.saturating_sub(radius), q + radius);
    match bounded {
        None => (lower, upper),
        Some(window) => {
            let (lowest, highest) = window.bounds();
            (lower.max(lowest), upper.min(highest))
        }
    }
}

impl BoundedWindow {
    /// The bounds that the window sets to the dynamic limits, lower and upper.
    fn bounds(self) -> (u64, u64)
        ensures answer { result ≡ bounds_of self }
    {
        let lp = self.lp as u64;
        let below = self.tight_k(self.down) as u64;
        let above = self.tight_k(self.up) as u64;
        (lp.saturating_sub(below * lp / 1000), lp + above * lp / 1000)
    }

    /// The K for a bound, with so many days left in its direction.
    fn tight_k(self, left: u8) -> u32
        ensures answer { result ≡ tightened self.session left self.k }
    {
        if self.session == MAIN && left > 0 {
            self.k.min(TIGHT)
        } else {
            self.k
        }
    }
}

/// Does nothing. Its contract holds the worked examples.
pub fn worked()
    ensures examples { Worked }
{}
