//! A directory's names in their blocks.

ghost use Rattle.layout.specs.Directories.{PutsInOne, RemovesInTwo, Rewriting, NoHoles, StaysStamped, PutsStamped};

/// Putting a name changes one block, removing one changes at most two; no block is a hole.
pub fn blocks()
    ensures put { PutsInOne }
    ensures remove { RemovesInTwo }
    ensures rewrite { Rewriting }
    ensures set { NoHoles }
{}

/// Stamps remain distinct.
pub fn stamps()
    ensures put { PutsStamped }
    ensures remove { StaysStamped }
{}
