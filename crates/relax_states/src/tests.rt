ghost use Rattle.std.specs.Prelude.{IfOk};
ghost use Rattle.orienteering.specs.Instance.{calls};
ghost use Rattle.orienteering.specs.Price.{IsFit};
ghost use Rattle.orienteering.specs.Region.{IsProper, is_forced};

use super::*;
use fixed_num::Scale;
use label_engine::{Outcome, ReplayFail};
use orienteering::{Entries, Place, Price};
use region_ctx::Context;
use site_model::{Instance, Parts, Places};
use std::alloc::{AllocError, Global};
use std::test::Fail;

/// Three calls at one place, three units from the start, which is also the end.
fn three_calls(alloc: Global, limit: u64) -> Result<Instance, Fail> {
    let mut places = Vec::new(alloc);
    for (x, score) in [(0, 0), (30_000, 5), (30_000, 6), (30_000, 7), (0, 0)] {
        places.push(Place {
            x,
            y: 0,
            score,
            service: 0,
            opening: 0,
            closing: limit,
        })?;
    }
    let parts = Parts {
        scale: Scale::One,
        team: 1,
        places: Places::from_list(places),
    };
    Ok(Instance::new(alloc, parts)?)
}

#[tactic(auto, using(orienteering::proofs::SplitLaws::root_is_proper))]
fn root(alloc: Global, inst: &Instance) -> Result<Context, AllocError>
    ensures { IfOk result (IsProper inst.now) }
{
    Context::root(alloc, inst)
}

/// Profit alone, and no call has a price.
fn profit(alloc: Global, inst: &Instance, ctx: &Context) -> Price
    ensures { IsFit (calls inst.now) (is_forced ctx.now) result }
{
    Price {
        alpha: 1,
        beta: 0,
        pi: Entries::from_list(Vec::new(alloc)),
    }
}

const fn sigma(outcome: &Outcome) -> Option<i128> {
    match outcome {
        Outcome::NoWalk => None,
        Outcome::Best { sigma, .. } => Some(*sigma),
    }
}

// The sets without calls, with call 3 and with calls 2 and 3 have 9, 13 and 14 undominated states.
#[test]
fn relaxed_walk_repeats_a_call(rt: HostRuntime) -> Result<(), Fail> {
    let alloc = rt.alloc();
    let inst = three_calls(alloc, 10)?;
    let ctx = root(alloc, &inst)?;
    let price = profit(alloc, &inst, &ctx);
    for (limit, critical, greatest, elementary) in [
        (1000, [2, 3].as_slice(), 18, true),
        (14, [2, 3].as_slice(), 18, true),
        (13, [3].as_slice(), 19, false),
        (9, [].as_slice(), 20, false),
    ] {
        let relaxed = decremental(alloc, &inst, &ctx, &price, limit)?;
        assert!(rt; relaxed.critical.calls() == critical, "limit {limit}");
        assert_eq!(rt; relaxed.elementary, elementary);
        assert_eq!(rt; sigma(&relaxed.outcome), Some(greatest));
    }
    let refused = decremental(alloc, &inst, &ctx, &price, 8);
    assert!(rt; matches!(refused, Err(ReplayFail::TooManyLabels)));
    Ok(())
}

#[test]
fn no_walk_is_elementary(rt: HostRuntime) -> Result<(), Fail> {
    let alloc = rt.alloc();
    let inst = three_calls(alloc, 5)?;
    let ctx = root(alloc, &inst)?;
    let price = profit(alloc, &inst, &ctx);
    let relaxed = decremental(alloc, &inst, &ctx, &price, 1000)?;
    assert!(rt; relaxed.elementary);
    assert_eq!(rt; sigma(&relaxed.outcome), None);
    assert!(rt; relaxed.critical.calls().is_empty());
    Ok(())
}

/// The best walks of profit alone through three calls.
fn walks_of_three(
    alloc: Global,
    critical: &[u32],
    above: i128,
    limit: u64,
) -> Result<Option<Walks>, Fail> {
    let inst = three_calls(alloc, 10)?;
    let ctx = root(alloc, &inst)?;
    let price = profit(alloc, &inst, &ctx);
    Ok(best_walks(alloc, &inst, &ctx, &price, critical, above, limit)?)
}

// With calls 2 and 3 critical, the walk that is worth most visits each call once, and no walk is worth more.
#[test]
fn walks_of_a_price(rt: HostRuntime) -> Result<(), Fail> {
    let alloc = rt.alloc();
    for (critical, above, bound, told) in [
        ([].as_slice(), 19, 20, true),
        ([3].as_slice(), 18, 19, true),
        ([2, 3].as_slice(), 17, 18, true),
        ([2, 3].as_slice(), 18, 18, false),
    ] {
        let Some(walks) = walks_of_three(alloc, critical, above, 1000)? else {
            return Err("too many labels".into());
        };
        assert_eq!(rt; walks.bound, bound);
        assert_eq!(rt; !walks.best.is_empty(), told);
        for walk in walks.best.iter() {
            assert_eq!(rt; walk.calls().len(), 3);
        }
    }
    assert!(rt; walks_of_three(alloc, &[2, 3], 17, 3)?.is_none());
    Ok(())
}
