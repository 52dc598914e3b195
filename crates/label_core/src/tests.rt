ghost use Rattle.label_core.specs.Critical.{IsMark};
ghost use Rattle.label_core.specs.Flags.{IsFlag};

use crate::{Clock, ClockStep, Critical, Flag, Flags, Gain, Mark, Pair, PairStep, Resource, Worth};
use bit_sets::Bits;
use std::alloc::Global;
use std::test::Fail;

type Walk = Pair<Clock, Pair<Critical, Worth>>;

fn start(alloc: Global, at: u64) -> Walk {
    Pair {
        a: Clock { at },
        b: Pair {
            a: Critical {
                held: Bits::empty(alloc),
            },
            b: Worth { sum: 0 },
        },
    }
}

fn step_to(travel: u64, number: Option<u32>, by: i128) -> PairStep<ClockStep, PairStep<Mark, Gain>>
    requires { IsMark number }
{
    PairStep {
        a: ClockStep {
            travel,
            opening: 10,
            closing: 20,
        },
        b: PairStep {
            a: Mark { number },
            b: Gain { by },
        },
    }
}

// A walk that waits for the opening, comes to a critical call, and may not come to it again.
#[test]
fn walks_carry_three_resources(rt: HostRuntime) -> Result<(), Fail> {
    let first = step_to(4, Some(319), 7);
    Walk::tell_step(&first);
    let before = start(rt.alloc(), 3);
    before.tell();
    let walk = before.extend(&first).ok_or("no step")?;
    assert_eq!(rt; walk.a.at, 10);
    assert!(rt; walk.b.a.held.contains(319) && !walk.b.a.held.contains(318));
    assert_eq!(rt; walk.b.b.sum, 7);
    assert!(rt;
        walk.extend(&step_to(0, Some(319), 1)).is_none(),
        "visited again"
    );
    assert!(rt; walk.extend(&step_to(11, None, 1)).is_none(), "late");
    let longer = walk.extend(&step_to(10, None, -1)).ok_or("no step")?;
    assert_eq!(rt; longer.a.at, 20);
    assert_eq!(rt; longer.b.b.sum, 6);
    assert!(rt;
        walk.leq(&longer) && !longer.leq(&walk),
        "earlier and worth more"
    );
    assert!(rt;
        !before.leq(&walk) && !walk.leq(&before),
        "earlier, but worth less"
    );
    let copy = walk.copy();
    assert!(rt; copy.leq(&walk) && walk.leq(&copy));
    Ok(())
}

type WordWalk = Pair<Clock, Flags>;

fn word_step_to(number: Option<u32>) -> PairStep<ClockStep, Flag>
    requires { IsFlag number }
{
    PairStep {
        a: ClockStep {
            travel: 0,
            opening: 0,
            closing: 20,
        },
        b: Flag { number },
    }
}

// A walk with its critical calls in one word: the greatest number is held once, and a set is better than one that has more.
#[test]
fn walks_carry_critical_calls_in_a_word(rt: HostRuntime) -> Result<(), Fail> {
    let before = Pair {
        a: Clock { at: 3 },
        b: Flags::none(),
    };
    let last = word_step_to(Some(63));
    WordWalk::tell_step(&last);
    let walk = before.extend(&last).ok_or("no step")?;
    walk.tell();
    assert_eq!(rt; walk.b.word, 0x8000_0000_0000_0000);
    assert!(rt; walk.extend(&last).is_none(), "visited again");
    let longer = walk.extend(&word_step_to(Some(0))).ok_or("no step")?;
    assert_eq!(rt; longer.b.word, 0x8000_0000_0000_0001);
    assert!(rt;
        before.leq(&walk) && walk.leq(&longer) && !longer.leq(&walk),
        "the fewer the better"
    );
    let other = before.extend(&word_step_to(Some(62))).ok_or("no step")?;
    assert!(rt;
        !other.leq(&longer) && !longer.leq(&other),
        "one is held by each alone"
    );
    let moved = longer.extend(&word_step_to(None)).ok_or("no step")?;
    assert!(rt; moved.leq(&longer.copy()) && longer.leq(&moved));
    Ok(())
}

// Clocks stop at the greatest number, and sums at 10^36.
#[test]
fn numbers_stop_at_their_ends(rt: HostRuntime) -> Result<(), Fail> {
    let late = ClockStep {
        travel: u64::MAX,
        opening: 0,
        closing: u64::MAX,
    };
    let clock = Clock { at: 5 }.extend(&late).ok_or("no step")?;
    assert_eq!(rt; clock.at, u64::MAX);
    let most = 1_000_000_000_000_000_000_000_000_000_000_000_000;
    for (sum, by, wanted) in [
        (most, 1, most),
        (-most, i128::MIN, -most),
        (most, -1, most - 1),
    ] {
        let worth = Worth { sum }.extend(&Gain { by }).ok_or("no step")?;
        assert_eq!(rt; worth.sum, wanted);
    }
    Ok(())
}
