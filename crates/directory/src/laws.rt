//! What a sector of a directory says, whatever its bytes.

ghost use Rattle.directory.specs.Reading.{RecordsReadBack};

/// Reading, which takes any sector, gives back the records that were encoded in it.
pub fn reads_back()
    ensures { RecordsReadBack }
{}
