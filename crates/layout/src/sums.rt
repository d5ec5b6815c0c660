//! Sums over the tree.

ghost use Rattle.layout.specs.SumLaws.{NamesTotal, EachSum, EachLink, BytesFit};

/// Sums over the tree are sums over the cached nodes.
pub fn sums()
    ensures names { NamesTotal }
    ensures each { EachSum }
    ensures links { EachLink }
{}

/// The content of a file is bytes.
pub fn bytes()
    ensures { BytesFit }
{}
