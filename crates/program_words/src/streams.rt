//! The standard streams with which the program was started closed.

use std::fs::{File, Files};

/// Files that take the numbers of the standard streams with which the program was started closed, as long as they are kept: a file that is opened
/// meanwhile gets none of these, so nothing that is printed goes into it. They can't be written, so what is printed fails as over a closed stream.
pub fn taken_streams<R: Files<File = File>>(rt: &R) -> [Option<File>; 3] {
    [
        File::open(rt, "/dev/null").ok(),
        File::open(rt, "/dev/null").ok(),
        File::open(rt, "/dev/null").ok(),
    ]
}
