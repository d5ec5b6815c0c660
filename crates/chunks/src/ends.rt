//! The places at which chunks end.

ghost use Rattle.std.specs.Prelude.{◌≡◌, ◌<◌, ◌≤◌, ◌+◌, ◌-◌, ◌++◌, length, map, take, drop, slice_index, All};

/// The first chunk that ends after a place, found by binary search: as many as there are chunks, if
/// none does.
pub(crate) fn chunk_at(ends: &[usize], place: usize) -> usize
    ensures within { result ≤ length ends.now }
    ensures before { 0 < result → slice_index ends.now (result - 1) ≤ place }
    ensures here { result < length ends.now → place < slice_index ends.now result }
{
    let mut low = 0;
    let mut high = ends.len();
    while low < high {
        let middle = low + (high - low) / 2;
        if ends[middle] <= place {
            low = middle + 1;
        } else {
            high = middle;
        }
    }
    low
}

/// One more entry in a chunk: it and those after it end one place later.
pub(crate) fn raise(ends: &mut [usize], chunk: usize)
    requires within { chunk ≤ length ends.old }
    requires fits { All (λ end. end < usize.MAX) ends.old }
    ensures { ends.new ≡ take chunk ends.old ++ map (λ end. end + 1) (drop chunk ends.old) }
{
    for end in ends[chunk..].iter_mut() {
        *end += 1;
    }
}

/// One entry fewer in a chunk: it and those after it end one place earlier.
pub(crate) fn lower(ends: &mut [usize], chunk: usize)
    requires within { chunk ≤ length ends.old }
    requires some { All (λ end. 0 < end) ends.old }
    ensures { ends.new ≡ take chunk ends.old ++ map (λ end. end - 1) (drop chunk ends.old) }
{
    for end in ends[chunk..].iter_mut() {
        *end -= 1;
    }
}
