//! What the sectors of seats encode, whatever their bytes.

ghost use Rattle.seats.specs.Reading.{SeatsReadBack};

/// Reading, which takes any sectors, gives back the seats that were encoded in them; so they encode
/// at most one list of seats.
pub fn reads_back()
    ensures { SeatsReadBack }
{}
