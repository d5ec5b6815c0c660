//! What a node's sector says, whatever its bytes.

ghost use Rattle.inode.specs.Reading.{FieldsReadBack, FormReadsBack, OneNode};

/// Reading, which takes any sector, gives back what was encoded in it, and its form; so a sector
/// encodes at most one node, in one form.
pub fn reads_back()
    ensures back { FieldsReadBack }
    ensures form { FormReadsBack }
    ensures one { OneNode }
{}
