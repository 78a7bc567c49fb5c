//! What the runtime's collector says of objects that it moved.

use crate::Handle;

/// Where the objects are now that owners and referents of references name. Of one that stayed it is to be the handle
/// that it had.
pub trait Moves {
    ghost use Rattle.std.specs.Prelude.{◌≡◌, ℕ};

    /// The handle that the object of this handle has now.
    ghost moved_to: { Self → ℕ → ℕ };

    /// The handle that the object of this handle has now.
    fn moved_to(&self, handle: Handle) -> Handle
        ensures { result ≡ moved_to self.now handle };
}
