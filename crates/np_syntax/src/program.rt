ghost use Rattle.std.specs.Prelude.{◌≡◌, IfOk};

use super::list::{List, Text, copy_texts};
use super::memory::Memory;
use super::process::Proc;
use std::alloc::Global;

/// A program of the high level: the names of its sites in order, the number of main's site, main's
/// process, and the number of its binders, which are numbered from 0.
pub struct Program {
    pub sites: List<Text>,
    pub at: u32,
    pub main: Proc,
    pub binders: u32,
}

impl Drop for Program {
    fn drop(self) {
        let Program {
            sites: _,
            at: _,
            main: _,
            binders: _,
        } = self;
    }
}

/// A program of the low level: the sites, the number of main's site, and the processes of main and of
/// the daemon.
pub struct LowProgram {
    pub sites: List<Text>,
    pub at: u32,
    pub main: Proc,
    pub daemon: Proc,
}

impl Drop for LowProgram {
    fn drop(self) {
        let LowProgram {
            sites: _,
            at: _,
            main: _,
            daemon: _,
        } = self;
    }
}

impl Program {
    pub fn copy(&self, alloc: Global) -> Result<Program, Memory>
        ensures { IfOk result (λ copied. copied ≡ self.now) }
    {
        let sites = copy_texts(alloc, self.sites.as_slice())?;
        let main = self.main.copy(alloc)?;
        Ok(Program {
            sites,
            at: self.at,
            main,
            binders: self.binders,
        })
    }
}

impl LowProgram {
    pub fn copy(&self, alloc: Global) -> Result<LowProgram, Memory>
        ensures { IfOk result (λ copied. copied ≡ self.now) }
    {
        let main = self.main.copy(alloc)?;
        let daemon = self.daemon.copy(alloc)?;
        let sites = copy_texts(alloc, self.sites.as_slice())?;
        Ok(LowProgram {
            sites,
            at: self.at,
            main,
            daemon,
        })
    }
}
