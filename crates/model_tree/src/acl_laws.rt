//! What holds of every access control list that a mode or inheritance gives: each function's
//! contract is a law.

ghost use Rattle.model_tree.specs.Rights.AclLaws.{CreationKeepsLimits, InheritanceKeepsLimits, ModesKeepLimits, ModesReadBack, NumbersStayWithinTheGroup, SetListsAreWithinLimits};

/// The list of a mode has that mode, whatever the list was before.
pub fn modes_read_back()
    ensures { ModesReadBack }
{}

/// In the list of a mode, what is allowed to a number has no right of read, write or execute that
/// the group's bits lack.
pub fn numbers_stay_within_the_group()
    ensures { NumbersStayWithinTheGroup }
{}

/// A list that a node may have is still one after a mode was set.
pub fn modes_keep_limits()
    ensures { ModesKeepLimits }
{}

/// What is inherited from a list that a directory may have is a list that the new node may have.
pub fn inheritance_keeps_limits()
    ensures { InheritanceKeepsLimits }
{}

/// A list of which a client may set every entry is one that the node may have.
pub fn set_lists_are_within_limits()
    ensures { SetListsAreWithinLimits }
{}

/// The list of a new node is one that it may have.
pub fn creation_keeps_limits()
    ensures { CreationKeepsLimits }
{}
