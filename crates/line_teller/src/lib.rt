//! Lines of a source that are told one after another: of each a text goes to one sink and a note to another.
#![tactic(auto)]

mod ending;
mod hearing;
mod passing;
mod sheet;
mod teller;
mod telling;

pub use ending::LinesEnd;
pub use hearing::ended_by;
pub use passing::pass_on;
pub use sheet::Sheet;
pub use teller::Teller;
pub use telling::{pass_both, tell_lines, tell_one, tell_one_by_one};
