//! What resolving takes besides the names in scope.

ghost use Rattle.std.specs.Prelude.{◌≡◌};
ghost use Rattle.np_scope.specs.Resolved.{main_name};

use np_syntax::Name;
use std::alloc::Global;

/// Resolves the parts of a tree that has so many sites, with memory for what they become.
#[derive(Clone, Copy)]
pub struct Resolver {
    pub alloc: Global,
    pub sites: u32,
}

impl Resolver {
    /// The name that `main` stands for.
    pub fn main_name(self) -> Name
        ensures { result ≡ main_name self.sites }
    {
        Name {
            site: self.sites,
            n: 0,
        }
    }
}
