// Why a ranking skips no tree: the trees of a sheet are parted into cells, and each is accounted for at every step.
#![tactic(auto)]

ghost use Rattle.cells.specs.Cells.{Parts, Tested};
ghost use Rattle.cells.specs.Kept.{KeptTrees, SubSearched};
ghost use Rattle.cells.specs.Slots.{AllSlotSteps};
ghost use Rattle.cells.specs.Steps.{AllSteps};
ghost use Rattle.cells.specs.Words.{Worded};

/// What holds of the cells of every set of arcs, whatever they weigh.
pub fn laws()
    ensures parts { Parts }
    ensures tested { Tested }
    ensures trees { KeptTrees }
    ensures searched { SubSearched }
    ensures steps { AllSteps }
    ensures slots { AllSlotSteps }
    ensures words { Worded }
{}
