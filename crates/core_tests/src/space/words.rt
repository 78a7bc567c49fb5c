//! What words have in them, and what is none.

use ref_space::{Colour, Word, has_colour, parts_of, word_of};

/// Colours, pages and cells, with their words.
const WORDS: [(Colour, u32, u32, u64); 7] = [
    (Colour::A, 1, 0, 4_611_686_018_427_387_968),
    (Colour::R, 2, 5, 13_835_058_055_282_163_845),
    (Colour::B, 1, 0, 0x8000_0000_0000_0040),
    (Colour::R, 1, 63, 0xc000_0000_0000_007f),
    (Colour::A, u32::MAX, 63, 0x4000_003f_ffff_ffff),
    (Colour::B, u32::MAX, 0, 0x8000_003f_ffff_ffc0),
    (Colour::R, u32::MAX, 63, 0xc000_003f_ffff_ffff),
];

/// Null, two without a colour, one of each colour in page 0, and two with too high a page.
const NO_WORDS: [u64; 8] = [
    0,
    64,
    0x3f_ffff_ffff,
    0x4000_0000_0000_0000,
    0x8000_0000_0000_003f,
    0xc000_0000_0000_0005,
    0x4000_0040_0000_0000,
    u64::MAX,
];

/// The colours, with their numbers.
const COLOURS: [(Colour, u32); 3] = [(Colour::A, 1), (Colour::B, 2), (Colour::R, 3)];

#[test]
fn colours_have_numbers_and_null_has_none(rt: HostRuntime) {
    for (colour, want) in COLOURS {
        assert!(rt;
            colour.number() == want && !has_colour(0, colour),
            "{colour:?}"
        );
    }
}

#[test]
fn a_word_is_of_its_parts_and_has_its_own_colour_alone(rt: HostRuntime) {
    for (row, &(own, page, cell, word)) in WORDS.iter().enumerate() {
        // Which `word_of` asks of its callers.
        assert!(rt; page >= 1 && cell < 64, "row {row}");
        assert!(rt; word_of(own, page, cell) == word, "row {row}");
        assert!(rt; parts_of(word) == Some((own, page, cell)), "row {row}");
        for (colour, _) in COLOURS {
            assert!(rt; has_colour(word, colour) == (colour == own), "row {row}");
        }
    }
}

#[test]
fn other_numbers_are_no_words(rt: HostRuntime) {
    for &number in &NO_WORDS {
        assert!(rt; parts_of(number) == None, "{number}");
    }
    // No bit from 38 to 61 is one of a word.
    for bit in 38..62u32 {
        assert!(rt;
            parts_of(0x4000_0000_0000_0040 | 1u64 << bit) == None,
            "bit {bit}"
        );
    }
}

/// A place, the address of the page of its frame, and the bits that its word in colour R then has.
const PLACES: [(u32, u32, u64); 7] = [
    (0, 1, 0xc000_0000_0000_0040),
    (63, 1, 0xc000_0000_0000_007f),
    (69, 2, 0xc000_0000_0000_0085),
    (0, 9, 0xc000_0000_0000_0240),
    (64, 7, 0xc000_0000_0000_01c0),
    (133, u32::MAX, 0xc000_003f_ffff_ffc5),
    ((1 << 30) - 65, 1, 0xc000_0000_0000_007f),
];

#[test]
fn a_word_leads_to_a_place(rt: HostRuntime) {
    for (row, &(place, _, _)) in PLACES.iter().enumerate() {
        // Which `of_place` asks of its callers.
        assert!(rt; place < (1 << 30) - 64, "row {row}");
        for colour in [Colour::A, Colour::B, Colour::R] {
            let word = Word::of_place(colour, place);
            assert!(rt; word.place() == Some(u64::from(place)), "row {row}");
            assert!(rt; word.index() == place as usize, "row {row}");
            assert!(rt; word.has_colour(colour) && !word.is_null(), "row {row}");
        }
    }
}

#[test]
fn its_bits_tell_the_address_of_its_page(rt: HostRuntime) {
    for (row, &(place, address, want)) in PLACES.iter().enumerate() {
        assert!(rt; place < (1 << 30) - 64, "row {row}");
        let word = Word::of_place(Colour::R, place);
        assert!(rt; word.bits_at(address) == want, "row {row}");
        let in_a = word.in_colour(Colour::A);
        assert!(rt; in_a.bits_at(address) == want - (2 << 62), "row {row}");
    }
}

#[test]
fn null_leads_nowhere(rt: HostRuntime) {
    assert!(rt; Word::null().place() == None);
    assert!(rt; Word::null().index() >= 1 << 63);
    for address in [0, 1, 2, u32::MAX] {
        assert!(rt; Word::null().bits_at(address) == 0, "{address}");
    }
}
