//! What the runtime's marker says.

use crate::Handle;

/// Which objects are marked. Nothing else is asked of the runtime's heap.
///
/// From the mark's end to the end of clearing each handle is to have one answer, and what is answered is to be closed:
/// `MarksKept` of the specs says how. No call asks for it. The laws that need it have it as their premise.
pub trait Marks {
    ghost use Rattle.std.specs.Prelude.{◌≡◌, ℕ, Bool};

    /// Whether the object of this handle is marked.
    ghost marked: { Self → ℕ → Bool };

    /// Whether the object of this handle is marked.
    fn is_marked(&self, handle: Handle) -> bool
        ensures { result ≡ marked self.now handle };
}
