//! Dominance of points: more profit is better, and less time.

ghost use Rattle.std.specs.Prelude.{◌↔◌, IsTrue};
ghost use Rattle.orienteering.specs.Frontier.{WeaklyDominates, Dominates};

use orienteering::Point;

/// Whether `a` has at least the profit of `b` and at most its time.
pub fn weakly_dominates(a: Point, b: Point) -> bool
    ensures { IsTrue result ↔ WeaklyDominates a b }
{
    a.profit >= b.profit && a.time <= b.time
}

/// Whether `a` weakly dominates `b` and differs from it.
pub fn dominates(a: Point, b: Point) -> bool
    ensures { IsTrue result ↔ Dominates a b }
{
    weakly_dominates(a, b) && a != b
}
