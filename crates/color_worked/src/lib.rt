//! A worked transfer: what the law on coloured transfers asks can be met, with a temporary in its home.
#![tactic(auto)]

ghost use Rattle.color_worked.specs.Worked.{IsWorked};

/// `t0 = t0 + 1` with its temporary in its home: the load, the transfer and the store keep it.
pub fn worked()
    ensures { IsWorked }
{}
