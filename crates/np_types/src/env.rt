ghost use Rattle.std.specs.Prelude.{◌≡◌, OnOk, OnErr, IfOk, IsSome, None};
ghost use Rattle.std.specs.Option.{option_copied};
ghost use Rattle.std.specs.FinMap as map;
ghost use Rattle.np_types.specs.Trails.{restored, rewound, Held};

use indexmap::IndexMap;
use np_syntax::{List, Memory, Ty};
use std::alloc::Global;
use std::marker::Model;

/// Binders with what they had before they were put, the newest last.
pub type Trail = List<(u32, Option<Ty>)>;

/// The types of binders, seen as a finite map.
pub struct Env {
    entries: IndexMap<u32, Ty>,
}

impl Drop for Env {
    fn drop(self) {
        let Env { entries: _ } = self;
    }
}

impl Model for Env {
    ghost use Rattle.std.specs.Ordering.{nat_cmp};
    ghost use Rattle.std.specs.FinMap as map;
    ghost use Rattle.std.specs.Coded.{coded_ℕ};
    ghost use Rattle.np_syntax.specs.declared.types.Ty.{Ty as Kind};
    ghost use Rattle.np_syntax.specs.contracts.types.Ty as kind;

    ghost Value = { map.FinMap nat_cmp Kind };

    ghost coded = { map.code coded_ℕ kind.the_row.coded };

    ghost view = { λ env. map.from_entries env.entries.entries };
}

impl Env {
    /// The empty environment, which takes no memory.
    pub fn new(alloc: Global) -> Env
        ensures { result ≡ map.empty }
    {
        Env {
            entries: IndexMap::new(alloc),
        }
    }

    pub fn get(&self, binder: u32) -> Option<&Ty>
        ensures { option_copied result ≡ map.get self.now binder }
    {
        self.entries.get(&binder)
    }

    /// Puts a type, and answers the one that stood there.
    pub fn put(&mut self, binder: u32, ty: Ty) -> Result<Option<Ty>, Memory>
        ensures held { IfOk result (λ old. old ≡ map.get self.old binder) }
        ensures ok { OnOk result (self.new ≡ map.insert self.old binder ty) }
        ensures there { OnOk result (IsSome (map.get self.new binder)) }
        ensures err { OnErr result (self.new ≡ self.old) }
        ensures absent { OnErr result (map.get self.old binder ≡ None) }
    {
        match self.entries.insert(binder, ty) {
            Ok(old) => Ok(old),
            Err(_) => Err(Memory),
        }
    }

    /// Adds or replaces one pair.
    pub fn set(&mut self, binder: u32, ty: Ty) -> Result<(), Memory>
        ensures ok { OnOk result (self.new ≡ map.insert self.old binder ty) }
        ensures err { OnErr result (self.new ≡ self.old) }
    {
        match self.put(binder, ty) {
            Ok(_) => Ok(()),
            Err(memory) => Err(memory),
        }
    }

    /// Puts a type in the place of the one that is there.
    fn replace(&mut self, binder: u32, ty: Ty)
        requires { IsSome (map.get self.old binder) }
        ensures { self.new ≡ map.insert self.old binder ty }
    {
        match self.put(binder, ty) {
            Ok(_) => {}
            Err(_) => unreachable!(),
        }
    }

    fn remove(&mut self, binder: u32)
        ensures { self.new ≡ map.remove self.old binder }
    {
        let _ = self.entries.swap_remove(&binder);
    }

    /// Gives a binder back what it had before a `put`: that type, or none.
    pub fn back(&mut self, binder: u32, old: Option<Ty>)
        requires { IsSome (map.get self.old binder) }
        ensures { self.new ≡ restored self.old binder old }
    {
        match old {
            Some(ty) => self.replace(binder, ty),
            None => self.remove(binder),
        }
    }

    /// Gives each binder of the trail back what it had, the newest first.
    pub fn rewind(&mut self, trail: Trail)
        requires { Held trail self.old }
        ensures { self.new ≡ rewound trail self.old }
    {
        let mut left = trail;
        while let Some((binder, old)) = left.pop() {
            self.back(binder, old);
        }
    }
}
