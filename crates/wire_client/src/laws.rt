//! What can be written.

ghost use Rattle.model.specs.Wire.WireArguments.{argument};
ghost use Rattle.wire.specs.declared.argument.Argument.{Argument};
ghost use Rattle.wire.specs.ArgumentView.{argument_view};
ghost use Rattle.wire_client.specs.ArgumentFits.{ArgumentFits};

/// Every argument that can be encoded can be written: so what was read can be written back.
pub fn encoded_arguments_fit()
    ensures { (call : Argument) → argument.Fits (argument_view call) → ArgumentFits call }
{}
