//! What an inode's sector says, whatever its bytes.

ghost use Rattle.large_inode.specs.Reading.{FieldsReadBack, NeverFree, OneInode, OtherForms};

/// Reading, which takes any sector, gives back what was encoded in it; so two different inodes have
/// different sectors. None is that of an inode of another form, or all zeros, as a free place is.
pub fn reads_back()
    ensures back { FieldsReadBack }
    ensures one { OneInode }
    ensures forms { OtherForms }
    ensures free { NeverFree }
{}
