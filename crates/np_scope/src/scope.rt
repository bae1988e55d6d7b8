//! What names stand for.

ghost use Rattle.std.specs.Prelude.{◌≡◌, ◌≤◌, ◌-◌, ◌∷◌, [], OnOk, drop, length};
ghost use Rattle.np_scope.specs.Naming.{meaning_of};

use np_syntax::Memory;
use std::alloc::Global;
use std::collections::HashMap;
use std::marker::Model;

/// What a name stands for: a site or a binder, by its number.
#[derive(Clone, Copy, PartialEq, Eq)]
pub enum Meaning {
    Site(u32),
    Binder(u32),
}

/// A name in scope, what it stands for, and what it stood for outside.
#[derive(Drop)]
pub struct Entry<'a> {
    pub name: &'a [u8],
    pub meaning: Meaning,
    pub hidden: Option<Meaning>,
}

/// The names in scope, seen as a list with the innermost first. The index has what each name stands for,
/// so looking up a name and going in and out of a scope take no walk.
#[derive(Drop)]
pub struct Scope<'a> {
    index: HashMap<&'a [u8], Meaning>,
    entries: Vec<Entry<'a>>,
}

impl<'a> Model for Scope<'a> {
    ghost use Rattle.std.specs.Prelude.{List, ℕ};
    ghost use Rattle.std.specs.Str.{bytes_eq};
    ghost use Rattle.std.specs.HashMap as hash;
    ghost use Rattle.np_scope.specs.Naming.{Named};
    ghost use Rattle.np_scope.specs.Kept.{names_of, Kept};

    ghost Value = { List Named };

    ghost view = { λ scope. names_of scope.entries.items };

    ghost invariant = { λ scope. Kept (λ name. hash.get_by (λ key. bytes_eq name key.now) scope.index) scope.entries.items };
}

impl<'a> Scope<'a> {
    pub fn new(alloc: Global) -> Scope<'a>
        ensures { result ≡ [] }
    {
        Scope {
            index: HashMap::new(alloc),
            entries: Vec::new(alloc),
        }
    }

    /// Puts a name in scope.
    pub fn enter(&mut self, name: &'a [u8], meaning: Meaning) -> Result<(), Memory>
        ensures { OnOk result (self.new ≡ (name.now, meaning) ∷ self.old) }
    {
        let hidden = self.index.get(name).copied();
        let entry = Entry {
            name,
            meaning,
            hidden,
        };
        match self.entries.push(entry) {
            Ok(()) => {}
            Err(_) => return Err(Memory),
        }
        match self.index.insert(name, meaning) {
            Ok(_) => Ok(()),
            Err(_) => {
                self.entries.pop();
                Err(Memory)
            }
        }
    }

    /// Takes the innermost name out of scope, so that its name stands for what it stood for before.
    pub fn leave(&mut self)
        ensures { self.new ≡ drop 1 self.old }
    {
        let Some(entry) = self.entries.pop() else {
            return;
        };
        let Some(meaning) = entry.hidden else {
            self.index.remove(entry.name);
            return;
        };
        match self.index.insert(entry.name, meaning) {
            Ok(_) => {}
            Err(_) => unreachable!(),
        }
    }

    /// Takes names out of scope until there are so many.
    pub fn leave_to(&mut self, depth: usize)
        requires { depth ≤ length self.old }
        ensures { self.new ≡ drop (length self.old - depth) self.old }
    {
        while self.len() > depth {
            self.leave();
        }
    }

    /// How many names are in scope, each hidden one counted.
    pub fn len(&self) -> usize
        ensures { result ≡ length self.now }
    {
        self.entries.len()
    }

    /// What the name stands for.
    pub fn find(&self, name: &[u8]) -> Option<Meaning>
        ensures { result ≡ meaning_of self.now name.now }
    {
        self.index.get(name).copied()
    }
}
