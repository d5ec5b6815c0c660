//! Searches by a test of entries.

ghost use Rattle.std.specs.Prelude.{◌≡◌, ◌<◌, ◌≤◌, Bool, length, All};
ghost use Rattle.chunks.specs.Search.{IsTurn, last_or};

use std::rc::Rc;

/// A test of entries, by which `Chunks::position` searches: it fails for a prefix of the list, and
/// passes from there on.
pub trait Test<T> {
    /// Which entries the test is for.
    ghost can_test: { Self → T → Type 0 };

    /// Which entries pass.
    ghost passes: { Self → T → Bool };

    /// Whether an entry passes.
    fn passes(&self, entry: &T) -> bool
        requires { can_test self.now entry.now }
        ensures { result ≡ passes self.now entry.now };
}

/// The place at which a test turns from false to true.
pub(crate) fn position<T, S: Test<T>>(entries: &[T], test: &S) -> usize
    requires { All (S.can_test test.now) entries.now }
    ensures { IsTurn (S.passes test.now) entries.now result }
{
    let mut low = 0;
    let mut high = entries.len();
    while low < high {
        let middle = low + (high - low) / 2;
        if test.passes(&entries[middle]) {
            high = middle;
        } else {
            low = middle + 1;
        }
    }
    low
}

/// The chunk at whose last entry a test turns from false to true.
pub(crate) fn chunk_position<T, S: Test<T>>(chunks: &[Rc<Vec<T>>], test: &S) -> usize
    requires some { All (λ chunk. 0 < length chunk.value.items) chunks.now }
    requires each { All (λ chunk. All (S.can_test test.now) chunk.value.items) chunks.now }
    ensures within { result ≤ length chunks.now }
    ensures turn { (d : T) → IsTurn (λ chunk. S.passes test.now (last_or chunk.value.items d))
        chunks.now result }
{
    let mut low = 0;
    let mut high = chunks.len();
    while low < high {
        let middle = low + (high - low) / 2;
        let entries = &chunks[middle];
        if test.passes(&entries[entries.len() - 1]) {
            high = middle;
        } else {
            low = middle + 1;
        }
    }
    low
}
