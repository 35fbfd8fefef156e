//! Laws about lines, as contracts of functions without a body.

ghost use Rattle.std.specs.Prelude.{◌≡◌, ◌↔◌, ℕ, List, Some, None};
ghost use Rattle.bb_spell.specs.TextLines.{first_bad, pieces_of};
ghost use Rattle.bb_spell.specs.Forms.{Leads, IsAllRight, IsFirstBadLine};
ghost use Rattle.bb_spell.specs.Places.{stage_after, may_end};
ghost use Rattle.bb_spell.specs.declared.places.Stage.{Stage};
ghost use Rattle.bb_spell.specs.declared.places.Stage.TheVariants.{Head};

/// A line may stand in its place exactly where it is of a form that may follow the lines before it.
pub fn lines_stand_by_their_forms()
    ensures { (from to : Stage) (line : List ℕ) → (stage_after from line ≡ Some to) ↔ Leads from line to }
{}

/// A text has one first line that may not stand in its place or is missing, or all its lines are right.
pub fn one_bad_line()
    ensures found { (text : List ℕ) (number : ℕ) → (first_bad stage_after may_end (Some Head) 0 (pieces_of text) ≡ Some number) ↔ IsFirstBadLine number text }
    ensures none { (text : List ℕ) → (first_bad stage_after may_end (Some Head) 0 (pieces_of text) ≡ None) ↔ IsAllRight text }
    ensures one { (text : List ℕ) (number other : ℕ) → IsFirstBadLine number text → IsFirstBadLine other text → number ≡ other }
    ensures either { (text : List ℕ) (number : ℕ) → IsAllRight text → IsFirstBadLine number text → ⊥ }
{}
