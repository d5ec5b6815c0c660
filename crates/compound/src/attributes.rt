//! GETATTR (RFC 8881, section 18.7).

use crate::executed::Executed;
use crate::fault::Fault;
use crate::reading::Reading;
use crate::tree::status_of;
use disk::Device;
use std::alloc::Global;
use wire::{Bitmap, Operation};
use wire_attributes::AttributesAnswer;
use xdr::Writer;

impl<D: Device> Reading<'_, '_, D> {
    ghost use Rattle.model.specs.Operations.Operation as operations;
    ghost use Rattle.compound.specs.Memory.{OrMemory};
    ghost use Rattle.compound.specs.Readings.{ReadsAs};

    /// GETATTR: the attributes of the current node that are asked for, as far as the server has
    /// them.
    pub(crate) fn get_attributes(&self, asked: &Bitmap) -> Result<Executed, Fault>
        ensures { OrMemory result (ReadsAs self.now (operations.Argument.GetAttr asked.now)) }
    {
        let running = self.running;
        let number = match running.current_node() {
            Ok(number) => number,
            Err(status) => return Ok(running.refuse(Operation::GetAttr, status)),
        };
        match self.fs.attributes(running.cred, number, asked.as_slice()) {
            Ok(answer) => {
                let values = encode(running.alloc, &answer)?;
                Ok(running.settle_encoded(Operation::GetAttr, values))
            }
            Err(fault) => Ok(running.refuse(Operation::GetAttr, status_of(fault))),
        }
    }
}

ghost use Rattle.std.specs.Prelude.{◌≡◌};
ghost use Rattle.model.specs.Wire.WireAnswers.{answered_attributes};
ghost use Rattle.wire_attributes.specs.NodeValues.{HasFewEntries, answer_view};
ghost use Rattle.compound.specs.Memory.{OrMemory};

/// The attributes, as the result has them.
fn encode(alloc: Global, answer: &AttributesAnswer<'_>) -> Result<Vec<u8>, Fault>
    requires { HasFewEntries answer.now.node }
    ensures { OrMemory result (λ values.
        values.items ≡ answered_attributes.encoding (answer_view answer.now)) }
{
    let mut out = Writer::with_capacity(alloc, answer.size())?;
    answer.write(&mut out)?;
    Ok(out.into_vec())
}
