//! The runs of a node.

ghost use Rattle.std.specs.Prelude.{◌≡◌, [], IfOk};

use crate::run::Run;
use std::alloc::AllocError;
use std::marker::Model;
use std::rc::RcSlice;

/// The runs of a node, which do not change. A copy shares their memory.
///
/// Contracts see the list of them.
#[derive(Drop)]
pub struct Runs {
    /// `None` if there are no runs.
    shared: Option<RcSlice<Run>>,
}

impl Model for Runs {
    ghost use Rattle.std.specs.Prelude.{List};
    ghost use Rattle.std.specs.Rc.{rc_slice_items};
    ghost use Rattle.extents.specs.declared.run.Run.{Run};
    ghost use Rattle.extents.specs.Shared.{items_in};

    ghost Value = { List Run };

    ghost view = { λ runs. items_in rc_slice_items runs.shared };
}

impl Runs {
    /// No runs. Takes no memory.
    pub fn new() -> Runs
        ensures { result ≡ [] }
    {
        Runs { shared: None }
    }

    /// These runs. No memory is taken if there are none.
    pub fn from_vec(runs: Vec<Run>) -> Result<Runs, AllocError>
        ensures { IfOk result (λ made. made ≡ runs.items) }
    {
        if runs.is_empty() {
            return Ok(Runs::new());
        }
        Ok(Runs {
            shared: Some(RcSlice::from_vec(runs)?),
        })
    }

    /// A copy, in the same memory.
    pub fn try_clone(&self) -> Result<Runs, AllocError>
        ensures { IfOk result (λ runs. runs ≡ self.now) }
    {
        let shared = match &self.shared {
            Some(runs) => Some(runs.clone()?),
            None => None,
        };
        Ok(Runs { shared })
    }

    /// The runs.
    pub fn as_slice(&self) -> &[Run]
        ensures { result.now ≡ self.now }
    {
        match &self.shared {
            Some(runs) => runs.as_slice(),
            None => &[],
        }
    }
}
