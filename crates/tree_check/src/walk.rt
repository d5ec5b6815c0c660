//! A walk from the root over all directories, which is to meet each node once.

ghost use Rattle.std.specs.Prelude.{◌≡◌, true, IfOk};
ghost use Rattle.tree_check.specs.Trees.{IsOneTree};

use model_tree::node::ROOT;
use node_table::Table;
use std::alloc::{AllocError, Global};

/// The places that were met, in order, and a mark for each place.
#[derive(Drop)]
struct Walk {
    seen: Vec<bool>,
    order: Vec<u32>,
}

impl Walk {
    ghost use Rattle.std.specs.Prelude.{◌≡◌, ◌<◌, ◌∷◌, ◌++◌, [], true, false, Some, IfOk, length, replicate, set};
    ghost use Rattle.node_table.specs.Tables.{node_number_at};
    ghost use Rattle.tree_check.specs.Trees.{led_at, IsReached};
    ghost use Rattle.tree_check.specs.Walks.{number_in, numbers_at, IsMissing, IsStuck, IsWalk};
    ghost use Rattle.tree_check.specs.Walks.{Meets};

    /// A walk over `places` places that has met none.
    fn new(alloc: Global, places: usize) -> Result<Walk, AllocError>
        ensures unseen { IfOk result (λ walk. walk.seen.items ≡ replicate places false) }
        ensures empty { IfOk result (λ walk. walk.order.items ≡ []) }
    {
        let seen = vec![in alloc; false; places]?;
        Ok(Walk {
            seen,
            order: Vec::new(alloc),
        })
    }

    /// Marks a place, and appends it to the others.
    fn meet(&mut self, place: u32) -> Result<(), AllocError>
        requires { place < length self.old.seen.items }
        ensures seen { IfOk result (λ _. self.new.seen.items ≡ set self.old.seen.items place true) }
        ensures order { IfOk result (λ _. self.new.order.items
            ≡ self.old.order.items ++ place ∷ []) }
    {
        self.seen[place as usize] = true;
        self.order.push(place)?;
        Ok(())
    }

    /// Meets the node with this number if there is one that was not met, and returns whether there
    /// is.
    fn follow(&mut self, table: &Table, number: u64) -> Result<bool, AllocError>
        requires walk { IsWalk table.now self.old.seen.items self.old.order.items }
        requires reached { IsReached table.now number }
        ensures met { IfOk result (λ is. is ≡ true → Meets table.now self.new.seen.items
            self.old.order.items self.new.order.items (number ∷ [])) }
        ensures missing { IfOk result (λ is. is ≡ false
            → IsMissing table.now (numbers_at table.now self.old.order.items) number) }
    {
        match table.find(number) {
            Some(place) if !self.seen[place as usize] => {
                self.meet(place)?;
                Ok(true)
            }
            _ => Ok(false),
        }
    }

    /// Follows the names at a place, up to one that leads to no node or to one that was met, and
    /// returns whether there is no such name.
    fn visit(&mut self, table: &Table, place: u32) -> Result<bool, AllocError>
        requires walk { IsWalk table.now self.old.seen.items self.old.order.items }
        requires there { node_number_at table.now place ≡ Some (number_in table.now place) }
        requires reached { IsReached table.now (number_in table.now place) }
        ensures visited { IfOk result (λ is. is ≡ true → Meets table.now self.new.seen.items
            self.old.order.items self.new.order.items (led_at table.now place)) }
        ensures stuck { IfOk result (λ is. is ≡ false
            → IsStuck table.now self.old.order.items place) }
    {
        let Some(cached) = table.cached(place) else {
            return Ok(true);
        };
        for i in 0..cached.names.len() {
            if !self.follow(table, cached.names.entry(i).number)? {
                return Ok(false);
            }
        }
        Ok(true)
    }
}

/// Whether a volume's nodes make one tree: there is a root, exactly one name leads to each other
/// node and none to the root or to no node, and all nodes are reached from the root.
///
/// # Errors
///
/// `AllocError` if there is no memory for one mark and one place per node.
pub fn is_one_tree(alloc: Global, table: &Table) -> Result<bool, AllocError>
    ensures sound { IfOk result (λ is. is ≡ true → IsOneTree table.now) }
    ensures complete { IfOk result (λ is. IsOneTree table.now → is ≡ true) }
{
    let Some(root) = table.find(ROOT) else {
        return Ok(false);
    };
    let count = table.count() as usize;
    let mut walk = Walk::new(alloc, table.places() as usize)?;
    walk.meet(root)?;
    let mut visited = 0;
    while visited < walk.order.len() {
        let place = walk.order[visited];
        if !walk.visit(table, place)? {
            return Ok(false);
        }
        visited += 1;
    }
    Ok(walk.order.len() == count)
}
