//! A page of 64 cells.

ghost use Rattle.std.specs.Prelude.{◌≡◌, ◌<◌, Some, true, false, slice_index_or};
ghost use Rattle.ref_space.specs.Bits.{bits_of, first_set, first_clear, any_set};
ghost use Rattle.ref_space.specs.Pages.{fresh_page, with_free, taken_cells, has_open_cell, is_sparse};
ghost use Rattle.ref_space.specs.Pages.{chosen_if_sparse};

use std::marker::Model;

/// A page of 64 cells.
#[derive(Drop)]
pub(crate) struct Page {
    address: u32,
    // Its cell c is cell c of this frame, wherever the page stands.
    frame: u32,
    // Whether its objects are to move. Then none is placed in it.
    chosen: bool,
    // Bit n is set where cell n is free.
    free: u64,
}

impl Model for Page {
    ghost use Rattle.ref_space.specs.Bits.{bits_of};
    ghost use Rattle.ref_space.specs.Pages.{Use};

    ghost Value = { Use };

    ghost view = { λ p. record {
      address = p.address;
      frame = p.frame;
      chosen = p.chosen;
      free = bits_of p.free;
    } };
}

impl Page {
    /// An open page at this address, with all cells of this frame free.
    pub(crate) fn fresh(address: u32, frame: u32) -> Self
        ensures { result ≡ fresh_page address frame }
    {
        Page {
            address,
            frame,
            chosen: false,
            free: u64::MAX,
        }
    }

    /// Its address.
    #[inline(always)]
    pub(crate) fn address(&self) -> u32
        ensures { result ≡ self.now.address }
    {
        self.address
    }

    /// Its frame.
    #[inline(always)]
    pub(crate) fn frame(&self) -> u32
        ensures { result ≡ self.now.frame }
    {
        self.frame
    }

    /// Whether its objects are to move.
    #[inline(always)]
    pub(crate) fn is_chosen(&self) -> bool
        ensures { result ≡ self.now.chosen }
    {
        self.chosen
    }

    /// Chooses it, where at least one of its cells is taken and at most half of them are. Answers whether that is so.
    pub(crate) fn choose_if_sparse(&mut self) -> bool
        ensures answer { result ≡ is_sparse self.old }
        ensures after { self.new ≡ chosen_if_sparse self.old }
    {
        let is_sparse = self.is_sparse();
        if is_sparse {
            self.chosen = true;
        }
        is_sparse
    }

    /// Whether it is open and has a free cell.
    #[inline(always)]
    pub(crate) fn has_room(&self) -> bool
        ensures { result ≡ has_open_cell self.now }
    {
        !self.chosen && self.free != 0
    }

    /// Whether at least one of its cells is taken, and at most half of them are.
    pub(crate) fn is_sparse(&self) -> bool
        ensures { result ≡ is_sparse self.now }
    {
        let taken = self.taken();
        0 < taken && taken <= 32
    }

    /// Its lowest free cell.
    #[inline(always)]
    pub(crate) fn lowest_free(&self) -> u32
        requires { any_set self.now.free ≡ true }
        ensures first { first_set self.now.free ≡ Some result }
        ensures within { result < 64 }
    {
        self.free.trailing_zeros()
    }

    /// Its lowest taken cell.
    #[inline(always)]
    pub(crate) fn lowest_taken(&self) -> u32
        requires { 0 < taken_cells self.now }
        ensures first { first_clear self.now.free ≡ Some result }
        ensures within { result < 64 }
    {
        self.free.trailing_ones()
    }

    /// Whether a cell is free.
    #[inline(always)]
    pub(crate) fn is_free(&self, cell: u32) -> bool
        requires { cell < 64 }
        ensures { result ≡ slice_index_or self.now.free cell false }
    {
        is_set(self.free, cell)
    }

    /// Which of its cells are free: bit n is set where cell n is.
    #[inline(always)]
    pub(crate) fn free_cells(&self) -> u64
        ensures { bits_of result ≡ self.now.free }
    {
        self.free
    }

    /// How many of its cells are taken.
    #[inline(always)]
    pub(crate) fn taken(&self) -> u32
        ensures { result ≡ taken_cells self.now }
    {
        64 - self.free.count_ones()
    }

    /// Takes a cell.
    #[inline(always)]
    pub(crate) fn take(&mut self, cell: u32)
        requires { cell < 64 }
        ensures { self.new ≡ with_free cell false self.old }
    {
        self.free &= !(1u64 << cell);
    }

    /// Gives a cell back.
    #[inline(always)]
    pub(crate) fn give(&mut self, cell: u32)
        requires { cell < 64 }
        ensures { self.new ≡ with_free cell true self.old }
    {
        self.free |= 1u64 << cell;
    }
}

/// Whether a bit is set.
#[inline(always)]
pub(crate) fn is_set(bits: u64, place: u32) -> bool
    requires { place < 64 }
    ensures { result ≡ slice_index_or (bits_of bits) place false }
{
    bits >> place & 1 == 1
}
