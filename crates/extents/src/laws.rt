//! What a run sector says, whatever its bytes.

ghost use Rattle.extents.specs.Reading.{RunsReadBack};

/// Reading, which takes any sector, gives back the runs that were encoded in it.
pub fn reads_back()
    ensures { RunsReadBack }
{}
