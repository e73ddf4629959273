// A read or a write that failed.
ghost use Rattle.std.specs.Prelude.{◌≡◌};

use std::io;

// What is at hand where a read or a write fails: what was found there, and the error.
#[derive(Drop)]
pub struct Failed<T> {
    pub found: T,
    pub error: io::Error,
}

impl<T: Drop> From<Failed<T>> for io::Error {
    ghost from_gives = { λ failed error. error ≡ failed.error };

    fn from(failed: Failed<T>) -> io::Error {
        failed.error
    }
}
