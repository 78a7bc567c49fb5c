//! The space of a heap: pages of 64 cells with bitmaps of the free ones, coloured words, and the table of the objects
//! that lie there, found by number. By such a word a slot or a field names an object: by a colour, a page's frame and a
//! cell. Where a word is shown, it has the page's address in place of the frame. A collector that moves objects changes
//! colours and addresses, and no program sees either. Coloured pointers are those of ZGC (JEP 333); pages of 64 cells,
//! three colours and where their bits stand are this project's profile.
#![tactic(auto)]

mod cell;
mod colour;
mod field_words;
mod fields;
mod index;
mod kept;
mod kind;
pub mod laws;
mod linked;
mod page;
mod pages;
mod policy;
mod reference;
mod round;
mod table;
mod word;
mod word_name;
mod words;
mod worklist;

pub use cell::Change;
pub use colour::Colour;
pub use fields::Fields;
pub use index::Entry;
pub use kept::NewReference;
pub use linked::{Linked, Look};
pub use pages::Pages;
pub use policy::{first_policy, keeps, policy_from, scaled};
pub use reference::Reference;
pub use round::Round;
pub use table::Table;
pub use word::Word;
pub use word_name::WordName;
pub use words::{has_colour, parts_of, word_of};
pub use worklist::Worklist;
