// Why what a line says was not read.
ghost use Rattle.std.specs.Prelude.{◌≡◌, alloc_error};
ghost use Rattle.line_fields.specs.declared.unread.Unread.TheVariants.{OutOfMemory};

use std::alloc::{AllocError, AllocFailed};

// The line fits no row, or memory ran out while it was read.
#[derive(Clone, Copy, Debug, PartialEq, Eq)]
pub enum Unread {
    NotUnderstood,
    OutOfMemory(AllocError),
}

impl From<AllocError> for Unread {
    ghost from_gives = { λ e r. r ≡ OutOfMemory e };

    fn from(e: AllocError) -> Unread {
        Unread::OutOfMemory(e)
    }
}

impl<T: Drop> From<AllocFailed<T>> for Unread {
    ghost from_gives = { λ e r. r ≡ OutOfMemory alloc_error };

    fn from(e: AllocFailed<T>) -> Unread {
        Unread::OutOfMemory(e.into())
    }
}
