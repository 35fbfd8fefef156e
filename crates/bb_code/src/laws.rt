// Laws of the definitions, as contracts of functions that do nothing.

ghost use Rattle.std.specs.Prelude.{◌≡◌, ◌<◌, ◌≤◌, ◌^◌, ◌*◌, ◌-◌, ◌⊎◌, ℕ, List, length, slice_index, EachIndex, []};
ghost use Rattle.bb_code.specs.Segments.{listing, AreWithin, ListSources};
ghost use Rattle.bb_code.specs.Columns.{AreColumns, AreAllColumns, IsStuckSource};

/// There is one choice of columns at most, and it is the same at every degree at which it fits. A
/// source in no segment takes 1.
pub fn columns_are_unique()
    ensures unique { (degree : ℕ) (segments : List (List ℕ)) (columns others : List ℕ) → AreColumns degree segments columns
        → AreColumns degree segments others → length columns ≡ length others → columns ≡ others }
    ensures stuck { (degree : ℕ) (segments : List (List ℕ)) (columns : List ℕ) (source : ℕ) → AreColumns degree segments columns
        → IsStuckSource degree segments source → length columns ≤ source }
    ensures higher { (degree more : ℕ) (segments : List (List ℕ)) (columns : List ℕ) → degree ≤ more
        → AreColumns degree segments columns → AreColumns more segments columns }
    ensures lower { (degree more : ℕ) (segments : List (List ℕ)) (columns : List ℕ) → degree ≤ more
        → AreColumns more segments columns → EachIndex columns (λ source. slice_index columns source < 2 ^ degree)
        → AreColumns degree segments columns }
    ensures alone { (degree : ℕ) (segments : List (List ℕ)) (columns : List ℕ) (source : ℕ) → AreColumns degree segments columns
        → source < length columns → listing segments source ≡ [] → slice_index columns source ≡ 1 }
    ensures below { (degree : ℕ) (segments : List (List ℕ)) (columns : List ℕ) → AreColumns degree segments columns
        → EachIndex columns (λ source. slice_index columns source < 2 ^ degree) }
{}

/// Each degree has columns for all sources or a source that is stuck, and it has columns wherever it has
/// more states than the spans that forbid one source can have numbers.
pub fn columns_exist()
    ensures or_stuck { (degree sources : ℕ) (segments : List (List ℕ))
        → ((columns : List ℕ) × AreAllColumns degree segments sources columns)
        ⊎ ((source : ℕ) × (source < sources) × IsStuckSource degree segments source) }
    ensures within { (degree sources listed size : ℕ) (segments : List (List ℕ)) → 1 ≤ degree → AreWithin listed size segments
        → (ListSources segments → listed * 2 ^ (size - 1) < 2 ^ degree)
        → (columns : List ℕ) × AreAllColumns degree segments sources columns }
{}
