//! What each step on the table tells.
ghost use Rattle.std.specs.Prelude.{ℕ};
ghost use Rattle.book_cells.specs.Turns.{drew, looked, left, hands_out, split_off, takes_in, spent_known};

use crate::book::Book;
use crate::kept::Kept;
use crate::known::Known;
use atomic_table::{Join, Play, Split};
use std::marker::{Brand, PhantomData};

pub struct Draw;

impl<B: Book> Play<Option<Kept<B>>, Known<B, B::Call, B::Answer>> for Draw {
    ghost then = { drew };
}

pub struct Look;

impl<B: Book> Play<Option<Kept<B>>, Known<B, B::Call, B::Answer>> for Look {
    ghost then = { looked B.opening B.acts B.is_legal };
}

pub struct Leave;

impl<B: Book> Play<Option<Kept<B>>, Known<B, B::Call, B::Answer>> for Leave {
    ghost then = { left B.acts };
}

/// The number that a new pass is to have. Each call picks it.
pub trait Numbered {
    ghost number: { ℕ };
}

impl Numbered for Brand {
    ghost number = { 0 };
}

pub struct Apart<J> {
    number: PhantomData<J>,
}

impl<O, C, R, J: Numbered> Split<Known<O, C, R>> for Apart<J> {
    ghost left = { λ v. hands_out J.number v };

    ghost right = { λ v. split_off J.number v };
}

pub struct Together;

impl<O, C, R> Join<Known<O, C, R>> for Together {
    ghost both = { λ v u. takes_in v u };

    ghost spent = { spent_known };
}
