//! Laws about what first fit chooses, as contracts of functions without a body.

ghost use Rattle.std.specs.Prelude.{◌≡◌, ◌≤◌, ◌++◌, ℕ, false, List, length, AllPairs};
ghost use Rattle.std.specs.List.{AllByRecursion, flat_map};
ghost use Rattle.std.specs.List.Sorted.{IsPermutation};
ghost use Rattle.bb_terms.specs.Plan.{RegisterValue};
ghost use Rattle.bb_base.specs.Net.{Netlist};
ghost use Rattle.bb_terms.specs.Paths.{is_free};
ghost use Rattle.bb_terms.specs.Rules.{Fits, IsPure};
ghost use Rattle.bb_reg.specs.Draft.{AreCells, DraftValue};
ghost use Rattle.bb_reg.specs.Chosen.{Seen, clash, conflict, grouped_of, in_registers, numbered_sessions};

/// A register has at least one cell and at most so many, and no observer of it clashes with one before it.
pub fn registers_are_apart()
    ensures cells { (draft : DraftValue) (most : ℕ) → 1 ≤ most → AllByRecursion (λ (g : RegisterValue). (1 ≤ length g.cells) × (length g.cells ≤ most)) (grouped_of draft most).registers }
    ensures apart { (observers : List Seen) (most : ℕ) → AllByRecursion (AllPairs (λ a b. clash b a ≡ false)) (in_registers most observers) }
{}

/// Each chosen cell stands on a net on which its kind may stand.
pub fn cells_fit()
    ensures { (a : Netlist ℕ) (cuts : List ℕ) (draft : DraftValue) (most : ℕ) → AreCells a cuts draft → AllByRecursion (λ net. is_free a.gates net ≡ false) cuts → AllByRecursion (Fits a) (flat_map (λ (g : RegisterValue). g.cells) (grouped_of draft most).registers) }
{}

/// A register with an Input or Split cell has no others.
pub fn registers_are_pure()
    ensures { (a : Netlist ℕ) (cuts : List ℕ) (draft : DraftValue) (most : ℕ) → AreCells a cuts draft → AllByRecursion IsPure (grouped_of draft most).registers }
{}

/// The scan chain has the cells of the draft, each once.
pub fn cells_stand_once()
    ensures { (draft : DraftValue) (most : ℕ) → length draft.leaves ≡ length draft.observers → IsPermutation (draft.sources ++ draft.observers) (flat_map (λ (g : RegisterValue). g.cells) (grouped_of draft most).registers) }
{}

/// Each register is in one session, once, and no register of a session is in conflict with one before it.
pub fn sessions_are_apart()
    ensures once { (registers : List (ℕ × List Seen)) → IsPermutation registers (flat_map (λ session. session) (numbered_sessions registers)) }
    ensures apart { (registers : List (ℕ × List Seen)) → AllByRecursion (AllPairs (λ x y. conflict y.1 x.1 ≡ false)) (numbered_sessions registers) }
{}
