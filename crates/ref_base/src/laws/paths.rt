//! Graphs: how strongly an object is reachable, what a cycle keeps, and what a mark's end may doom.

ghost use Rattle.std.specs.Prelude.{◌≡◌, ℕ, true, false, List, [], ◌∷◌, ◌++◌, ◌⊎◌};
ghost use Rattle.ref_base.specs.Graphs.{Graph};
ghost use Rattle.ref_base.specs.Paths.{IsPath, soft_and_weak_referents};
ghost use Rattle.ref_base.specs.Members.{has};
ghost use Rattle.ref_base.specs.KeptPaths.{is_normal, IsKept, EverKept};
ghost use Rattle.ref_base.specs.DoomedSets.{MayDoom};
ghost use Rattle.ref_base.specs.LeavingEdges.{FirstLeaves, LeavesBy};
ghost use Rattle.ref_base.specs.Strengths.{HasStrength};
ghost use Rattle.ref_base.specs.declared.reach.Reach.{Reach};
ghost use Rattle.ref_base.specs.declared.policy.Policy.{Policy};

// promise: strength_of, strength_text: one of the five at least
/// Whatever the graph and the number, it is reachable in one of the five ways.
pub fn each_number_has_a_strength()
    ensures { (g : Graph) (n : ℕ) → (reach : Reach) × HasStrength g n reach }
{}

// promise: strength_of, strength_text: one of the five at most
/// And in no two of them.
pub fn strengths_are_exclusive()
    ensures { (g : Graph) (n : ℕ) (a b : Reach) → HasStrength g n a → HasStrength g n b → a ≡ b }
{}

// promise: Marker::end_mark: what is kept is strongly or softly reachable
/// What a kept path ends at is strongly or softly reachable.
pub fn what_is_kept_is_reachable()
    ensures { (p : Policy) (g : Graph) (n : ℕ) → IsKept p g n
        → HasStrength g n Reach.Strong ⊎ HasStrength g n Reach.Soft }
{}

// promise: Marker::end_mark: an urgent cycle keeps what is strongly reachable alone
/// In an urgent cycle it is strongly reachable.
pub fn an_urgent_cycle_keeps_what_is_strong()
    ensures { (p : Policy) (g : Graph) (n : ℕ) → is_normal p.urgency ≡ false → IsKept p g n
        → HasStrength g n Reach.Strong }
{}

// promise: Marker::end_mark: one moment of a mark is enough
/// What a kept path ends at in one moment of a mark was ever kept in it.
pub fn what_is_kept_was_ever_kept()
    ensures { (p : Policy) (later : List Graph) (g : Graph) (earlier : List Graph) (n : ℕ) → IsKept p g n
        → EverKept p (later ++ g ∷ earlier) n }
{}

// promise: Marker::end_mark: a path enters the doomed by a new clear
/// A path through soft and weak referents may lead to objects that a mark's end may doom. Its first step from outside
/// them to one of them is by the referent of a soft or weak reference that is a new clear.
pub fn the_first_step_to_the_doomed_is_a_new_clear()
    ensures { (p : Policy) (g : Graph) (moments : List Graph) (d : List ℕ) (n : ℕ) (before : List ℕ)
        (outer inner : ℕ) → MayDoom p g moments d → IsPath soft_and_weak_referents g n before
        → FirstLeaves d n before outer inner → LeavesBy g.objects d outer inner }
{}

// promise: Marker::end_mark: each path to the doomed enters them
/// And each such path to one of them has that step: it begins at a root, and no root that is there is one of them.
pub fn each_path_to_the_doomed_has_a_first_step_to_them()
    ensures { (p : Policy) (g : Graph) (moments : List Graph) (d : List ℕ) (n : ℕ) (before : List ℕ)
        → MayDoom p g moments d → IsPath soft_and_weak_referents g n before → has d n ≡ true
        → (outer inner : ℕ) × FirstLeaves d n before outer inner }
{}
