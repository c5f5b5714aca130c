//! Stamps of words: a finite map from the guest's words to stamps that are not zero. The stamps stand in pages of 1024 words,
//! and the pages in the order of their coming, so that all of them can be walked. Contracts see the list of the pages.
#![tactic(auto)]

mod directory;
mod shadow;

pub use guest_words::PAGE_WORDS;
pub use shadow::Shadow;
