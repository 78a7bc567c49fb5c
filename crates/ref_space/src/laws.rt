//! What the definitions of words and of pages say together, beside any code.

ghost use Rattle.std.specs.Prelude.{◌≡◌, ℕ, suc, ◌+◌, ◌*◌, ◌<◌, ◌≤◌, ◌==◌, Bool, true, false, List, [], length, Some};
ghost use Rattle.std.specs.Prelude.{is_some};
ghost use Rattle.ref_space.specs.declared.colour.Colour.{Colour};
ghost use Rattle.ref_space.specs.ColouredWords.{IsCell, IsWordOf, coloured_word, parts_of, is_coloured, colour_number};
ghost use Rattle.ref_space.specs.Pages.{Use, use_at, is_free_at, with_cell, fresh_pages, next_place, placing, placings};
ghost use Rattle.ref_space.specs.Pages.{AreWhole, IsNextPlace, taken_of, Packed, opened, has_chosen, chosen_frames};
ghost use Rattle.ref_space.specs.Pages.{AreFilled};
ghost use Rattle.ref_space.specs.Pages.{choosing, chosen_if_sparse, sparse_count, sparse_cells, use_of};
ghost use Rattle.ref_space.specs.Pages.{renumbered_uses, AreFramed, AreBetween, AreEmptied, IsRenumbered};

// promise: word_of, parts_of, has_colour: a word tells its own parts, and one colour
/// A word tells the parts that it was made of, no other number tells any, and the words of other parts are other words.
pub fn a_word_tells_its_parts()
    ensures parts { (colour : Colour) (page cell : ℕ) → IsCell page cell
        → parts_of (coloured_word colour page cell) ≡ Some (colour, page, cell) }
    ensures word { (word : ℕ) (parts : Colour × ℕ × ℕ) → parts_of word ≡ Some parts → IsWordOf word parts }
    ensures colour { (own other : Colour) (page cell : ℕ) → IsCell page cell
        → is_coloured (coloured_word own page cell) other ≡ (colour_number own == colour_number other) }
    ensures distinct { (c d : Colour) (page other cell own : ℕ) → IsCell page cell → IsCell other own
        → coloured_word c page cell ≡ coloured_word d other own → (c ≡ d) × (page ≡ other) × (cell ≡ own) }
{}

// promise: Pages::place: none exactly where no open page has a free cell
/// An object is placed in the first free cell of an open page, and nowhere just where no open page has one.
pub fn the_next_place_is_the_first_free_cell()
    ensures { (ps : List Use) → IsNextPlace ps (next_place ps) }
{}

// promise: Pages::new: addresses follow one another
/// New pages have the addresses from the first one on.
pub fn new_pages_have_addresses_that_follow()
    ensures count { (first frame count : ℕ) → length (fresh_pages first frame count) ≡ count }
    ensures addresses { (first frame count page : ℕ) → page < count
        → (use_at (fresh_pages first frame count) page).address ≡ first + page }
{}

// promise: Pages::place, Pages::give: one cell changes, and no page or address
/// A cell that was taken or given back is so, each other is as it was, and so are the pages and their addresses.
pub fn no_other_cell_changes()
    ensures own { (ps : List Use) (page cell : ℕ) (is_free : Bool) → AreWhole ps → page < length ps → cell < 64
        → is_free_at (with_cell ps page cell is_free) page cell ≡ is_free }
    ensures others { (ps : List Use) (page cell : ℕ) (is_free : Bool) (other own : ℕ)
        → (other ≡ page → own ≡ cell → ⊥)
        → is_free_at (with_cell ps page cell is_free) other own ≡ is_free_at ps other own }
    ensures pages { (ps : List Use) (page cell : ℕ) (is_free : Bool)
        → length (with_cell ps page cell is_free) ≡ length ps }
    ensures whole { (ps : List Use) (page cell : ℕ) (is_free : Bool) → AreWhole ps
        → AreWhole (with_cell ps page cell is_free) }
    ensures addresses { (ps : List Use) (page cell : ℕ) (is_free : Bool) (other : ℕ)
        → (use_at (with_cell ps page cell is_free) other).address ≡ (use_at ps other).address }
    ensures frames { (ps : List Use) (page cell : ℕ) (is_free : Bool) (other : ℕ)
        → (use_at (with_cell ps page cell is_free) other).frame ≡ (use_at ps other).frame }
{}

// promise: Pages::place, Pages::give, Table::push: there is room while fewer cells are taken than there are
/// There is always room: while fewer cells of open pages are taken than there are, the next object has a place. With it
/// one more is taken, and with each that is given back one fewer.
pub fn there_is_always_room()
    ensures room { (ps : List Use) → AreWhole ps → taken_of (opened ps) < 64 * length (opened ps)
        → is_some (next_place ps) ≡ true }
    ensures placed { (ps : List Use) → is_some (next_place ps) ≡ true → taken_of (placing ps) ≡ suc (taken_of ps) }
    ensures given { (ps : List Use) (page cell : ℕ) → AreWhole ps → page < length ps → cell < 64
        → is_free_at ps page cell ≡ false → taken_of ps ≡ suc (taken_of (with_cell ps page cell true)) }
    ensures none { (first frame count : ℕ) → taken_of (fresh_pages first frame count) ≡ 0 }
{}

// promise: Pages::place, Pages::give: what is taken stays in the first open pages
/// All taken cells of open pages stay in the first c of these, while fewer are taken than these have.
pub fn what_is_placed_stays_packed()
    ensures placed { (c : ℕ) (ps : List Use) → AreWhole ps → Packed c (opened ps) → taken_of (opened ps) < 64 * c
        → Packed c (opened (placing ps)) }
    ensures given { (c : ℕ) (ps : List Use) (page cell : ℕ) → Packed c (opened ps)
        → Packed c (opened (with_cell ps page cell true)) }
    ensures none { (c first frame count : ℕ) → Packed c (opened (fresh_pages first frame count)) }
{}

// promise: Pages::place, Pages::choose: what only fills has no two sparse pages
/// Of pages that are filled one after another, and from which nothing goes, at most one is neither full nor empty: so
/// fewer than two have from 1 to 32 taken cells.
pub fn what_only_fills_has_one_sparse_page()
    ensures none { (first frame count : ℕ) → AreFilled (fresh_pages first frame count) }
    ensures placed { (ps : List Use) → chosen_frames ps ≡ [] → AreFilled ps → AreFilled (placing ps) }
    ensures sparse { (ps : List Use) → AreWhole ps → AreFilled ps → sparse_count ps < 2 }
{}

// promise: Pages::choose, Table::select: all that lies in chosen pages has a place in others
/// There is always room for what moves. Of twice as many pages as the taken cells fill, a choice leaves so many open
/// that all that lies in the chosen ones can be placed, one after another. What is open stays packed.
pub fn there_is_room_for_what_moves()
    ensures room { (c k : ℕ) (ps : List Use) → AreWhole ps → has_chosen ps ≡ false → Packed c ps → length ps ≡ 2 * c
        → k < sparse_cells ps → is_some (next_place (placings k (choosing ps))) ≡ true }
    ensures packed { (c k : ℕ) (ps : List Use) → AreWhole ps → has_chosen ps ≡ false → Packed c ps
        → length ps ≡ 2 * c → k ≤ sparse_cells ps → Packed c (opened (placings k (choosing ps))) }
{}

// promise: Pages::choose, Table::select: just the pages with 1 to 32 taken cells are chosen
/// A choice takes out just the pages with 1 to 32 taken cells, and changes nothing else of a page.
pub fn a_choice_is_of_sparse_pages()
    ensures pages { (ps : List Use) (page : ℕ) → page < length ps
        → use_at (choosing ps) page ≡ chosen_if_sparse (use_at ps page) }
    ensures count { (ps : List Use) → has_chosen ps ≡ false
        → length (chosen_frames (choosing ps)) ≡ sparse_count ps }
{}

// promise: Pages::renumber, Table::renumber: no address is given twice, no cell changes
/// A renumbering leaves each frame its free cells, where nothing lies in the chosen ones. All pages are open then.
/// Addresses rise, and an open page keeps its own; each chosen one gets an address that none ever had.
pub fn a_renumbering_keeps_what_lies_in_frames()
    ensures free { (ps : List Use) (next frame : ℕ) → AreFramed ps → AreWhole ps → AreEmptied ps → frame < length ps
        → (use_of (renumbered_uses next ps) frame).free ≡ (use_of ps frame).free }
    ensures address { (ps : List Use) (next frame : ℕ) → AreFramed ps → frame < length ps
        → IsRenumbered next (use_of ps frame) (use_of (renumbered_uses next ps) frame).address }
    ensures rising { (ps : List Use) (next : ℕ) → AreBetween 0 ps next
        → AreBetween 0 (renumbered_uses next ps) (next + length (chosen_frames ps)) }
    ensures framed { (ps : List Use) (next : ℕ) → AreFramed ps → AreFramed (renumbered_uses next ps) }
    ensures opened { (ps : List Use) (next : ℕ) → has_chosen (renumbered_uses next ps) ≡ false }
    ensures packed { (c next : ℕ) (ps : List Use) → Packed c (opened ps) → Packed c (renumbered_uses next ps) }
{}
