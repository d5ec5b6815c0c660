//! Nodes in memory of their own.

ghost use Rattle.std.specs.Prelude.{◌≡◌, IfOk};

use crate::cached_node::CachedNode;
use inode::Form;
use std::alloc::{AllocError, Global};
use std::marker::Model;
use std::ops::Deref;

/// A cached node in memory of its own, so that a list of many places takes a pointer for each.
/// Contracts see the node.
#[derive(Drop)]
pub struct BoxedNode {
    cached: Box<CachedNode>,
}

impl Model for BoxedNode {
    ghost use Rattle.layout.specs.CachedNodes as layout;

    ghost Value = { layout.CachedNode };

    ghost view = { λ boxed. boxed.cached.value };
}

impl BoxedNode {
    /// Moves a node into memory of its own.
    pub fn new(alloc: Global, cached: CachedNode) -> Result<BoxedNode, AllocError>
        ensures { IfOk result (λ boxed. boxed ≡ cached) }
    {
        Ok(BoxedNode {
            cached: Box::new(alloc, cached)?,
        })
    }

    /// The node itself; its memory is freed.
    pub fn into_inner(self) -> CachedNode
        ensures { result ≡ self }
    {
        Box::into_inner(self.cached)
    }

    /// The node with this form. It stays in its memory.
    pub fn with_form(mut self, form: Form) -> BoxedNode
        ensures { result ≡ record self { form = form } }
    {
        self.cached.form = form;
        self
    }
}

impl Deref for BoxedNode {
    type Target = CachedNode;

    ghost deref_gives = { λ boxed cached. cached ≡ boxed };

    fn deref(&self) -> &CachedNode
        ensures { result.now ≡ self.now }
    {
        &self.cached
    }
}
