//! The texts that a session may begin from.

/// Which text a session begins from, and which one it leaves for the next session.
#[derive(Clone, Copy)]
pub enum Form {
    /// A roster, whose meters are just commissioned.
    Roster,
    /// A state; a roster is one.
    State,
}
