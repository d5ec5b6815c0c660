//! What holds of every tree.

ghost use Rattle.extent_tree.specs.Charge.{ChargeCovers};
ghost use Rattle.extent_tree.specs.Depth.{DepthIsLeast};
ghost use Rattle.extent_tree.specs.Encoding.{EntriesReadBack};

/// Reading, which takes any bytes, gives back the entries that were encoded in them.
pub fn reads_back()
    ensures { EntriesReadBack }
{}

/// The depth of a file is the least at which 256 entries span its blocks.
pub fn depth_is_least()
    ensures { DepthIsLeast }
{}

/// A file never has more index sectors than it is charged for.
pub fn charge_covers()
    ensures { ChargeCovers }
{}
