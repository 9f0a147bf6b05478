// Why a search by merged sets of words finds a heaviest arborescence, and by a place in front a heaviest single-root tree.
#![tactic(auto)]

ghost use Rattle.arborescence.specs.Bounds.{SizedMerge};
ghost use Rattle.arborescence.specs.Heads.{ByRootLayer, BestSingle};
ghost use Rattle.arborescence.specs.Search.{None, GoodStart, GoodMerge, BestTree, Kept};

/// What holds of every set of arcs, whatever they weigh.
pub fn laws()
    ensures none { None }
    ensures start { GoodStart }
    ensures merge { GoodMerge }
    ensures kept { Kept }
    ensures best { BestTree }
    ensures bounds { SizedMerge }
    ensures single { ByRootLayer }
    ensures heaviest { BestSingle }
{}
