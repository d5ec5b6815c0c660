//! READDIR's laws of listings: each is the contract of a function that does nothing.

ghost use Rattle.listings.specs.ReadingExample.{ReadingExample};
ghost use Rattle.listings.specs.Readings.{EveryReading};

/// Over the READDIRs of a listing no cookie is returned twice, and a name that is under one cookie
/// at every call is returned once, with that cookie.
pub fn every_reading()
    ensures { EveryReading }
{}

/// A listing worked out by hand, with changes between its two calls.
pub fn reading_example()
    ensures { ReadingExample }
{
    model::step::file_examples();
}
