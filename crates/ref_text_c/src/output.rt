//! What a text prints, in memory.

ghost use Rattle.std.specs.Prelude.{◌≡◌, [], false};

use ref_text::{TextSink, WriteFailed};
use std::alloc::Global;

/// A sink that keeps what is written. Writing fails where memory runs out.
#[derive(Drop)]
pub struct Output {
    pub bytes: Vec<u8>,
    has_failed: bool,
}

impl Output {
    /// Nothing yet. Takes no memory.
    pub fn new(alloc: Global) -> Self
        ensures bytes { result.bytes.items ≡ [] }
        ensures fresh { result.has_failed ≡ false }
    {
        Output {
            bytes: Vec::new(alloc),
            has_failed: false,
        }
    }
}

impl TextSink for Output {
    ghost use Rattle.std.specs.Prelude.{Some};

    ghost contents = { λ s. Some s.bytes.items };

    ghost has_failed = { λ s. s.has_failed };

    fn write_text(&mut self, text: &[u8]) -> Result<(), WriteFailed> {
        match self.bytes.extend_from_slice(text) {
            Ok(()) => Ok(()),
            Err(_) => {
                self.has_failed = true;
                Err(WriteFailed)
            }
        }
    }
}
