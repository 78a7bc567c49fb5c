//! A text that is printed piece by piece.

ghost use Rattle.std.specs.Prelude.{◌≡◌, ◌+◌, ◌≤◌, [], ◌++◌, length, take, drop, IfOk, OnOk};

use std::alloc::{AllocError, Allocator};
use std::fmt;
use std::marker::Model;

/// Room is made for so many bytes at once.
const ROOM: usize = 1_024;

static ZEROS: [u8; ROOM] = [0; ROOM];

/// What is printed so far. A piece is copied behind it by code that is compiled into its callers, which know the length
/// of most pieces: so it takes a few instructions, where a `String` takes a call for each.
#[derive(Drop)]
pub struct Printed<A: Allocator> {
    // What is printed, and zeros behind it.
    bytes: Vec<u8, A>,
    len: usize,
}

impl<A: Allocator> Model for Printed<A> {
    ghost use Rattle.std.specs.Prelude.{◌≤◌, ℕ, List, length, take};

    ghost Value = { List ℕ };

    ghost view = { λ p. take p.len p.bytes.items };

    ghost invariant = { λ p. p.len ≤ length p.bytes.items };
}

impl<A: Allocator> Printed<A> {
    /// Nothing yet, with memory for so many bytes and the room behind them.
    pub fn with_capacity(alloc: A, bytes: usize) -> Result<Self, AllocError>
        ensures { IfOk result (λ p. p ≡ []) }
    {
        Ok(Printed {
            bytes: Vec::with_capacity(alloc, bytes.saturating_add(ROOM))?,
            len: 0,
        })
    }

    /// The bytes that are printed.
    pub fn as_slice(&self) -> &[u8]
        ensures { result.now ≡ self.now }
    {
        &self.bytes.as_slice()[..self.len]
    }

    /// Prints a piece for which there is no room, and makes room behind it. It is kept out of its callers.
    #[inline(never)]
    fn append(&mut self, piece: &[u8]) -> fmt::Result
        ensures { OnOk result (self.new ≡ self.old ++ piece.now) }
    {
        self.bytes.truncate(self.len);
        if self.bytes.extend_from_slice(piece).is_err() {
            return Err(fmt::Error);
        }
        self.len = self.bytes.len();
        if self.bytes.extend_from_slice(&ZEROS).is_err() {
            return Err(fmt::Error);
        }
        Ok(())
    }
}

impl<A: Allocator> fmt::Write for Printed<A> {
    ghost write_str_gives = { λ old piece new. new ≡ old ++ piece };

    #[inline(always)]
    fn write_str(&mut self, piece: &str) -> fmt::Result {
        let piece = piece.as_bytes();
        if self.bytes.len() - self.len < piece.len() {
            return self.append(piece);
        }
        place(self.bytes.as_mut_slice(), self.len, piece);
        self.len += piece.len();
        Ok(())
    }
}

/// Copies a piece to this place.
#[inline(always)]
fn place(bytes: &mut [u8], at: usize, piece: &[u8])
    requires { at + length piece.now ≤ length bytes.old }
    ensures { bytes.new ≡ take at bytes.old ++ piece.now ++ drop (at + length piece.now) bytes.old }
{
    bytes[at..at + piece.len()].copy_from_slice(piece);
}
