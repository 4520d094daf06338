//! The smallest box of three intervals of codes under any operation that never falls.
//!
//! The pair of the least first and the greatest second code of all choices is reached by one walk along the staircase
//! of results, the other two ends by the same walk with the arguments exchanged, and the ends of the third interval by
//! walks in bands of results that shrink. Each step of a walk is the
//! operation's hint, tried out, or a galloping search.
#![tactic(auto)]

pub mod closed;
mod field;
pub mod interval;
mod search;
pub mod triple;
mod walk;
