//! Parents and ancestors, for LOOKUPP and renames.

ghost use Rattle.std.specs.Prelude.{◌≡◌, length};
ghost use Rattle.volume.specs.Edits.{put_by, put_of};
ghost use Rattle.volume.specs.Parents.{PutsParent};

use crate::ancestors::{is_below, parent_of};
use crate::parents::Parents;
use crate::volume::Volume;
use disk::Device;
use node_table::Table;
use tree_edits::Edit;

/// The number and the directory of the name that an edit puts.
fn put_of(edit: &Edit<'_>) -> Option<(u64, u64)>
    ensures { result ≡ put_of edit.now }
{
    match edit {
        Edit::PutName {
            number,
            directory,
            ..
        } => Some((*number, *directory)),
        _ => None,
    }
}

/// Those of the first name that edits put.
pub(crate) fn put_by(edits: &[Edit<'_>]) -> Option<(u64, u64)>
    ensures { result ≡ put_by edits.now }
{
    for edit in edits {
        if let Some(put) = put_of(edit) {
            return Some(put);
        }
    }
    None
}

/// Notes the directory of a name that was put at the place of the name's number. Needs no memory.
pub(crate) fn put_parent(parents: &mut Parents, table: &Table, put: Option<(u64, u64)>)
    requires { length parents.old ≡ length table.now }
    ensures { PutsParent table.now parents.old parents.new put }
{
    if let Some((number, directory)) = put {
        if let Some(place) = table.find(number) {
            parents.put(place, directory);
        }
    }
}

#[tactic(auto, unfolding(crate::specs::Views::volume_state))]
impl<D: Device> Volume<D> {
    ghost use Rattle.std.specs.Prelude.{◌≡◌};
    ghost use Rattle.model_tree.specs.Trees.Ancestors.{is_below, parent_of};
    ghost use Rattle.volume.specs.Views.{volume_state};

    /// The number of the directory that has a node's name: 0 for the root, and for a number that no
    /// node has. It also works while the volume is down, as [`Volume::node`] does.
    pub fn parent(&self, number: u64) -> u64
        ensures { result ≡ parent_of (volume_state self.now).tree number }
    {
        parent_of(&self.table, &self.parents, number)
    }

    /// Whether a node is the upper one or below it, to which a rename moves no directory. At most
    /// one step per node. It also works while the volume is down, as [`Volume::node`] does.
    pub fn is_below(&self, upper: u64, number: u64) -> bool
        ensures { result ≡ is_below (volume_state self.now).tree upper number }
    {
        is_below(&self.table, &self.parents, upper, number)
    }
}
