//! The laws of the grammars: each is exact, so each value has one encoding and no encoding is a
//! prefix of another.

ghost use Rattle.std.specs.Prelude.{ℕ, ◌<◌, ◌^◌};
ghost use Rattle.xdr.specs.Grammar.{unsigned_int, unsigned_hyper};
ghost use Rattle.xdr.specs.Forms.{below, boolean, fixed_opaque, opaque, bitmap, trimmed_bitmap};
ghost use Rattle.xdr.specs.Laws.{Exact, OneEncoding};

/// Numbers of 4 and of 8 bytes, and enumerations.
pub fn numbers_are_exact()
    ensures int { Exact unsigned_int }
    ensures one_int { OneEncoding unsigned_int }
    ensures hyper { Exact unsigned_hyper }
    ensures one_hyper { OneEncoding unsigned_hyper }
    ensures enumeration { (n : ℕ) → Exact (below n) }
{}

/// Booleans.
pub fn booleans_are_exact()
    ensures exact { Exact boolean }
    ensures one { OneEncoding boolean }
{}

/// Opaque data, of a fixed length and of one up to a limit.
pub fn opaques_are_exact()
    ensures fixed { (n : ℕ) → Exact (fixed_opaque n) }
    ensures one_fixed { (n : ℕ) → OneEncoding (fixed_opaque n) }
    ensures counted { (limit : ℕ) → limit < 2 ^ 32 → Exact (opaque limit) }
    ensures one_counted { (limit : ℕ) → limit < 2 ^ 32 → OneEncoding (opaque limit) }
{}

/// Bitmaps, with and without zero words at the end.
pub fn bitmaps_are_exact()
    ensures any { Exact bitmap }
    ensures one_any { OneEncoding bitmap }
    ensures trimmed { Exact trimmed_bitmap }
    ensures one_trimmed { OneEncoding trimmed_bitmap }
{}
