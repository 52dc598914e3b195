//! Laws of regions, beside those of the definitions. The function does nothing: what it promises is the law.

ghost use Rattle.region_ctx.specs.Laws.{ForcedCallsAreVisited, TightBoxesNarrow};

/// What a bound by prices and a resumed search rest on.
pub fn laws_of_contexts()
    ensures forced { ForcedCallsAreVisited }
    ensures narrow { TightBoxesNarrow }
{}
