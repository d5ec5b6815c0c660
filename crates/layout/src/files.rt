//! A file's bytes, and the effects of changes of its blocks on them.

ghost use Rattle.layout.specs.EditLaws.{EachWriteMeets};
ghost use Rattle.layout.specs.Files.{Filling, Writing, WritingOn, Cutting, Growing, FilledBytes, WrittenBytes, ResizedBytes, GrownBytes, EachWrite};

/// For the bytes by their places.
pub fn places()
    ensures fill { Filling }
    ensures write { Writing }
    ensures write_on { WritingOn }
    ensures cut { Cutting }
    ensures grow { Growing }
{}

/// For the list of bytes.
pub fn bytes()
    ensures fill { FilledBytes }
    ensures write { WrittenBytes }
    ensures resize { ResizedBytes }
    ensures grow { GrownBytes }
{}

/// Consecutive writes are one write.
pub fn writes()
    ensures bytes { EachWrite }
    ensures edits { EachWriteMeets }
{}
