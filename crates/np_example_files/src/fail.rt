use np_syntax::Memory;
use std::alloc::{AllocError, AllocFailed};
use std::io;
use thiserror::Error;

/// Why the examples could not be tried.
#[derive(Debug, Drop, Error)]
pub enum ExampleFail {
    #[error("out of memory")]
    Memory,
    /// A file could not be read, or what was found could not be printed.
    #[error("a file or a stream failed")]
    Device,
    /// The line of that number, counted from 1, is none that an example has there.
    #[error("line {0} cannot be read")]
    Line(u32),
}

impl From<Memory> for ExampleFail {
    ghost use Rattle.std.specs.Prelude.{◌≡◌};
    ghost use Rattle.np_example_files.specs.declared.fail.ExampleFail.TheVariants as fail;

    ghost from_gives = { λ memory gives. gives ≡ fail.Memory };

    fn from(_memory: Memory) -> ExampleFail {
        ExampleFail::Memory
    }
}

impl From<AllocError> for ExampleFail {
    ghost use Rattle.std.specs.Prelude.{◌≡◌};
    ghost use Rattle.np_example_files.specs.declared.fail.ExampleFail.TheVariants as fail;

    ghost from_gives = { λ error gives. gives ≡ fail.Memory };

    fn from(_error: AllocError) -> ExampleFail {
        ExampleFail::Memory
    }
}

impl<T: Drop> From<AllocFailed<T>> for ExampleFail {
    ghost use Rattle.std.specs.Prelude.{◌≡◌};
    ghost use Rattle.np_example_files.specs.declared.fail.ExampleFail.TheVariants as fail;

    ghost from_gives = { λ failed gives. gives ≡ fail.Memory };

    fn from(_failed: AllocFailed<T>) -> ExampleFail {
        ExampleFail::Memory
    }
}

impl From<io::Error> for ExampleFail {
    ghost use Rattle.std.specs.Prelude.{◌≡◌};
    ghost use Rattle.np_example_files.specs.declared.fail.ExampleFail.TheVariants as fail;

    ghost from_gives = { λ error gives. gives ≡ fail.Device };

    fn from(_error: io::Error) -> ExampleFail {
        ExampleFail::Device
    }
}
