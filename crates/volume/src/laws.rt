//! The laws of a volume: each is the contract of a function that does nothing.

ghost use Rattle.std.specs.Prelude.{◌≡◌, ◌<◌, ◌^◌, ℕ};
ghost use Rattle.layout.specs.declared.versions.VersionNumber.{VersionNumber};
ghost use Rattle.volume.specs.Prefixes.{KeepsPrefixes, AppliedRecent};
ghost use Rattle.volume.specs.Remounts.{EveryRemount, StillStands};
ghost use Rattle.volume.specs.Alike.{AnswersByShown};
ghost use Rattle.volume.specs.Stands.{OneStands};
ghost use Rattle.volume.specs.Superblock.{HasSizes, superblock, version_in, word};

/// The first sector of a volume gives its version, its number of nodes and its restart count.
#[tactic(auto, using(crate::proofs::FirstLaws::version_back, crate::proofs::FirstLaws::word_nodes, crate::proofs::FirstLaws::word_run))]
pub fn superblock_tells()
    ensures version { (version : VersionNumber) (sectors nodes run : ℕ)
        → HasSizes version sectors nodes
        → version_in (superblock version sectors nodes run) ≡ version }
    ensures nodes { (version : VersionNumber) (sectors nodes run : ℕ) → nodes < 2 ^ 32
        → word 16 (superblock version sectors nodes run) ≡ nodes }
    ensures run { (version : VersionNumber) (sectors nodes run : ℕ) → run < 2 ^ 32
        → word 20 (superblock version sectors nodes run) ≡ run }
{}

/// An image that a crash left represents one tree with its seats, of a volume with one number of
/// nodes and one restart count.
#[tactic(auto, using(crate::proofs::OneTree::one_stands))]
pub fn one_stands()
    ensures { OneStands }
{}

/// However often a volume is mounted, with power on or after a crash, and wherever those mounts end
/// or crash: a tree that a crash might have left is still there, and the next mount that serves has
/// it, under a greater restart count.
pub fn every_remount()
    ensures next { EveryRemount }
    ensures stands { StillStands }
{}

/// What a volume returns without its device: the same for two trees that differ only in the bytes
/// of files.
#[tactic(auto, using(crate::proofs::ShownLaws::answers_by_shown))]
pub fn answers_by_shown()
    ensures { AnswersByShown }
{}

/// A journal that holds unflushed changes.
pub fn unflushed()
    ensures keeps { KeepsPrefixes }
    ensures applied { AppliedRecent }
{}
