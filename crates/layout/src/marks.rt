//! The marks of used sectors.

ghost use Rattle.layout.specs.MarkLaws.{EachMark, MarksLaid, LaysMarks, FullIsCharged};

/// Marks in memory, and in the sectors of the bitmap.
pub fn marks()
    ensures each { EachMark }
    ensures laid { MarksLaid }
    ensures lays { LaysMarks }
{}

/// If a tree is charged for less than the data region, a sector is free.
pub fn full()
    ensures { FullIsCharged }
{}
