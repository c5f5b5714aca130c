//! What renumbering keeps.
ghost use Rattle.stamp_renumber.specs.Laws.{AccessesKeepOrder, AccessesStay, NewStampsFit, StartsKeepOrder, WritesKeepOrder, WritesStay};
ghost use Rattle.stamp_renumber.specs.Ticks.{TicksStayAbove};

/// All comparisons that a profiler makes come out as before, and the new stamps are below three for each start and three more.
pub fn renumbering_keeps_order()
    ensures starts { StartsKeepOrder }
    ensures accesses { AccessesKeepOrder }
    ensures writes { WritesKeepOrder }
    ensures writes_stay { WritesStay }
    ensures accesses_stay { AccessesStay }
    ensures fit { NewStampsFit }
{}

/// The counter stays above all stamps.
pub fn ticks_stay_above()
    ensures { TicksStayAbove }
{}
