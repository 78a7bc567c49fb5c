//! Words, pages and lists.

mod lists;
mod pages;
mod words;
