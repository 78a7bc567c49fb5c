//! Holds.

use ref_base::ObjNo;
use std::marker::Model;

/// A hold of an object: while it is out, the object is a root. It can't be copied and must be spent: a heap takes it
/// back by `adopt` or `release` (this project's profile).
#[derive(Debug)]
pub struct Hold {
    heap_no: u64,
    object: ObjNo,
}

impl Model for Hold {
    ghost use Rattle.ref_base.specs.declared.heap_step.HoldName.{HoldName};

    ghost Value = { HoldName };

    ghost view = { λ h. record { heap_no = h.heap_no; object = h.object } };
}

impl Hold {
    ghost use Rattle.std.specs.Prelude.{◌≡◌};

    // Only a heap makes one, as it counts it.
    pub(crate) fn new(heap_no: u64, object: ObjNo) -> Self
        ensures { result ≡ record { heap_no = heap_no; object = object } }
    {
        Hold { heap_no, object }
    }

    /// The object that it holds. Takes no memory.
    pub fn obj(&self) -> ObjNo
        ensures { result ≡ self.now.object }
    {
        self.object
    }

    /// The number of its heap. Takes no memory.
    pub fn heap_no(&self) -> u64
        ensures { result ≡ self.now.heap_no }
    {
        self.heap_no
    }

    /// Gives the hold up without its heap, which goes on counting it: its object is a root for good. For a hold whose
    /// heap is gone. Takes no memory.
    pub fn leak(self) {
        self.spend();
    }

    // Its heap no longer counts it.
    pub(crate) fn spend(self) {
        let Hold {
            heap_no: _,
            object: _,
        } = self;
    }
}
