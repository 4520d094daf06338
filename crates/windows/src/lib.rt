//! Windows of codes, and what they mean for a rule: choices, the smallest box, the meaning of a book.
#![tactic(auto)]

pub mod window;
