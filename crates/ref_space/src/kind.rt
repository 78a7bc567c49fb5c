//! What lies in a cell.

ghost use Rattle.std.specs.Prelude.{◌≡◌};
ghost use Rattle.ref_space.specs.Cells.{kind_of, strength_of};

use ref_base::Strength;

/// What lies in a cell, in one byte.
#[derive(Clone, Copy)]
pub(crate) enum Kind {
    /// Nothing.
    Free,
    /// An object that is no reference.
    Plain,
    /// A soft reference.
    Soft,
    /// A weak reference.
    Weak,
    /// A phantom reference.
    Phantom,
}

impl Kind {
    /// The kind of an object that is a reference of this strength, or none.
    #[inline(always)]
    pub(crate) fn of(strength: Option<Strength>) -> Self
        ensures { result ≡ kind_of strength }
    {
        match strength {
            Some(Strength::Soft) => Kind::Soft,
            Some(Strength::Weak) => Kind::Weak,
            Some(Strength::Phantom) => Kind::Phantom,
            None => Kind::Plain,
        }
    }

    /// The strength of the reference that lies there, if one does.
    #[inline(always)]
    pub(crate) fn strength(self) -> Option<Strength>
        ensures { result ≡ strength_of self }
    {
        match self {
            Kind::Free | Kind::Plain => None,
            Kind::Soft => Some(Strength::Soft),
            Kind::Weak => Some(Strength::Weak),
            Kind::Phantom => Some(Strength::Phantom),
        }
    }
}
