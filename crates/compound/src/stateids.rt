//! What a stateid means when an operation uses it (RFC 8881, section 8.2.4).

use crate::running::Running;
use model_tree::status::Status;
use opens::{Access, Opens, StateIdContext};
use wire::StateId;

#[tactic(auto, unfolding(crate::specs::Views::in_progress_of))]
impl Running<'_> {
    ghost use Rattle.std.specs.Prelude.{◌≡◌};
    ghost use Rattle.fs.specs.Files.{IsVerdict};
    ghost use Rattle.fs.specs.Verdicts.{IsPossible};
    ghost use Rattle.model.specs.Operations.Step.{State};
    ghost use Rattle.opens.specs.Views.{opens_of, StandsAt};
    ghost use Rattle.wire.specs.SmallViews.{state_view};
    ghost use Rattle.compound.specs.Views.{in_progress_of};

    /// The context in which the next operation uses a stateid.
    pub(crate) fn id_context(&self) -> StateIdContext
        ensures { StandsAt result (in_progress_of self.now).context }
    {
        let (number, state) = match self.progress.current {
            Some(place) => (place.number, place.state),
            None => (0, None),
        };
        StateIdContext {
            client: self.progress.client,
            run: self.progress.run,
            number,
            state,
        }
    }

    /// The verdict on a stateid, for an open with this access.
    pub(crate) fn verdict(
        &self,
        opens: &Opens,
        stateid: &StateId,
        access: Access,
    ) -> Result<(), Status>
        ensures is { (state : State) → state.opens ≡ opens_of opens.now
            → state.context ≡ (in_progress_of self.now).context
            → IsVerdict state access.0 (state_view stateid.now) result }
        ensures possible { IsPossible result }
    {
        match opens
            .find(&self.id_context(), stateid)
            .refuse_access(access)
        {
            None => Ok(()),
            Some(status) => Err(status),
        }
    }
}
