//! Changes of one cached node.

ghost use Rattle.layout.specs.ChangeLaws.{OneChange};
ghost use Rattle.layout.specs.Steps.{FileStep, NamesStep, SameStep, FileThere, OthersHold, EachOwn, EachChange};

/// If one cached node changes, the cached nodes are laid with it changed, and the tree is the one
/// with its node changed.
pub fn one_change()
    ensures { OneChange }
{}

/// If a node gets other content, the tree is the one with this node.
pub fn steps()
    ensures file { FileStep }
    ensures names { NamesStep }
    ensures same { SameStep }
    ensures there { FileThere }
{}

/// Which blocks have which sectors, after changes of blocks.
pub fn blocks()
    ensures own { EachOwn }
    ensures others { OthersHold }
    ensures times { EachChange }
{}
