//! Laws about cones, as contracts of functions without a body.

ghost use Rattle.std.specs.Prelude.{◌≡◌, ◌≤◌, ◌↔◌, ◌++◌, length, ℕ, Bool, true, false, List, map, Contains};
ghost use Rattle.std.specs.List.{AllByRecursion};
ghost use Rattle.bb_base.specs.Variables.{Bit};
ghost use Rattle.bb_base.specs.Net.{Gate, renamed_gate};
ghost use Rattle.bb_base.specs.Run.{MeetsBy, by_op};
ghost use Rattle.bb_base.specs.Order.{IsOrder};
ghost use Rattle.bb_terms.specs.Paths.{is_free, Start, AtNet, Behind, IsPathBack, IsLeaf, LiesIn, renamed_start};
ghost use Rattle.bb_terms.specs.Support.{AreLeaves};
ghost use Rattle.bb_terms.specs.Function.{IsBitOf, StandsIn, end_of};
ghost use Rattle.bb_terms.specs.Change.{Change, IsChangeOf, gives_by};
ghost use Rattle.bb_terms.specs.Cuts.{AreCuts, is_stop_with};

/// What a valuation gives an observed net is the bit of the line's function, where the leaves have their bits of it.
pub fn lines_compute()
    ensures by_number { (gives : Gate ℕ → List Bool → Bool) (gates : List (Gate ℕ)) (stop : ℕ → Bool) (start : Start ℕ) (v : ℕ → Bool) → AllByRecursion (MeetsBy gives v) gates → StandsIn gates start → IsBitOf gives gates stop start v (v (end_of start)) }
    ensures by_name { (gives : Gate Bit → List Bool → Bool) (gates : List (Gate Bit)) (stop : Bit → Bool) (start : Start Bit) (v : Bit → Bool) → AllByRecursion (MeetsBy gives v) gates → StandsIn gates start → IsBitOf gives gates stop start v (v (end_of start)) }
{}

/// A line's function gives one bit, where gates have an order and each net that no gate drives is a stop.
pub fn one_bit()
    ensures { (gives : Gate ℕ → List Bool → Bool) (gates : List (Gate ℕ)) (order : List ℕ) (stop : ℕ → Bool) (start : Start ℕ) (bits : ℕ → Bool) (x y : Bool)
        → IsOrder gates order → ((net : ℕ) → is_free gates net ≡ true → stop net ≡ true)
        → IsBitOf gives gates stop start bits x → IsBitOf gives gates stop start bits y → x ≡ y }
{}

/// And it gives some bit, where gates have an order and no two drive one net.
pub fn some_bit()
    ensures { (gives : Gate ℕ → List Bool → Bool) (gates : List (Gate ℕ)) (order : List ℕ) (stop : ℕ → Bool) (start : Start ℕ) (bits : ℕ → Bool)
        → IsOrder gates order → ((f g : Gate ℕ) → Contains gates f → Contains gates g → f.out ≡ g.out → f ≡ g)
        → (bit : Bool) × IsBitOf gives gates stop start bits bit }
{}

/// A change of gates that drive nothing in a segment leaves the segment's function.
pub fn changes_elsewhere()
    ensures { (gates others : List (Gate ℕ)) (stop : ℕ → Bool) (start : Start ℕ) (f : Change ℕ) (bits : ℕ → Bool) (bit : Bool)
        → IsChangeOf others f → ((g h : Gate ℕ) → LiesIn gates stop start g → Contains others h → h.out ≡ g.out → ⊥)
        → IsBitOf by_op gates stop start bits bit ↔ IsBitOf (gives_by f) gates stop start bits bit }
{}

/// A line has one support.
pub fn one_support()
    ensures { (gates : List (Gate ℕ)) (stop : ℕ → Bool) (start : Start ℕ) (xs ys : List ℕ) → AreLeaves gates stop start xs → AreLeaves gates stop start ys → xs ≡ ys }
{}

/// A stop is its own leaf, a net that is none has the leaves behind its only gate, and a gate those at its inputs.
pub fn leaves_by_steps()
    ensures stop { (gates : List (Gate ℕ)) (stop : ℕ → Bool) (m net : ℕ) → stop m ≡ true → IsLeaf gates stop (AtNet m) net ↔ (m ≡ net) }
    ensures behind { (gates : List (Gate ℕ)) (stop : ℕ → Bool) (g : Gate ℕ) (net : ℕ) → IsLeaf gates stop (Behind g) net ↔ ((m : ℕ) × Contains g.ins m × IsLeaf gates stop (AtNet m) net) }
    ensures passed { (gates : List (Gate ℕ)) (stop : ℕ → Bool) (g : Gate ℕ) (m net : ℕ) → stop m ≡ false → Contains gates g → g.out ≡ m → ((h : Gate ℕ) → Contains gates h → h.out ≡ m → h ≡ g) → IsLeaf gates stop (AtNet m) net ↔ IsLeaf gates stop (Behind g) net }
{}

/// A netlist has one choice of cuts.
pub fn one_choice()
    ensures { (gates : List (Gate ℕ)) (order : List ℕ) (width : ℕ) (a b : List ℕ) → AreCuts gates order width a → AreCuts gates order width b → a ≡ b }
{}

/// With the cuts no gate's support has more nets than the width.
pub fn short_supports()
    ensures { (gates : List (Gate ℕ)) (order : List ℕ) (width : ℕ) (cuts : List ℕ) (g : Gate ℕ) (leaves : List ℕ) → AreCuts gates order width cuts → Contains gates g → AreLeaves gates (is_stop_with gates cuts) (Behind g) leaves → length leaves ≤ width }
{}

/// Two paths in a row are a path; paths and leaves are so under other names too.
pub fn paths_join()
    ensures join { (gates : List (Gate ℕ)) (stop : ℕ → Bool) (path more : List ℕ) (net between last : ℕ) → IsPathBack gates stop net path between → IsPathBack gates stop between more last → IsPathBack gates stop net (path ++ more) last }
    ensures renamed { (f : ℕ → Bit) (gates : List (Gate ℕ)) (stop : Bit → Bool) (path : List ℕ) (net last : ℕ) → IsPathBack gates (λ n. stop (f n)) net path last → IsPathBack (map (renamed_gate f) gates) stop (f net) (map f path) (f last) }
    ensures leaves { (f : ℕ → Bit) (gates : List (Gate ℕ)) (stop : Bit → Bool) (start : Start ℕ) (net : ℕ) → IsLeaf gates (λ n. stop (f n)) start net → IsLeaf (map (renamed_gate f) gates) stop (renamed_start f start) (f net) }
{}
