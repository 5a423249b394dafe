//! Books behind locks that keep their turns: each pass of a cell knows what it made, and what it has seen.
#![tactic(auto)]

mod act;
mod book;
mod calls;
mod cell;
mod kept;
mod known;
mod plays;

pub use act::Act;
pub use book::Book;
pub use calls::NotMade;
pub use cell::{BookCell, Pass};
