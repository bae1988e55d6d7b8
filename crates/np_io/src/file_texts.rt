ghost use Rattle.std.specs.Prelude.{◌≡◌, ◌≤◌, false};
ghost use Rattle.np_io.specs.Causes.{Rose};

use super::fault::Fault;
use super::texts::Texts;
use super::word::Word;
use std::fs;
use std::io::Read;
use std::marker::Model;
use std::rt::Files;

/// Files, named by their paths. One count of failures serves for all names; an interrupted call is
/// a failure too. Contracts do not see what is in a file.
#[derive(Drop)]
pub struct FileTexts<'a, R: Files> {
    rt: &'a R,
    file: Option<R::File>,
    faults: u64,
    taken: u64,
    begins: u64,
}

impl<'a, R: Files> Model for FileTexts<'a, R> {
    ghost use Rattle.std.specs.Prelude.{is_some};
    ghost use Rattle.np_io.specs.FileTexts.{FileState};

    ghost Value = { FileState };

    ghost view = { λ texts. record {
      begun = is_some texts.file;
      faults = texts.faults;
      taken = texts.taken;
      begins = texts.begins;
    } };
}

impl<'a, R: Files> FileTexts<'a, R> {
    /// The files of the runtime. Takes no memory and opens no file.
    pub fn new(rt: &'a R) -> FileTexts<'a, R>
        ensures { result ≡ record { begun = false; faults = 0; taken = 0; begins = 0 } }
    {
        FileTexts {
            rt,
            file: None,
            faults: 0,
            taken: 0,
            begins: 0,
        }
    }

    fn count_fault(&mut self) -> Fault
        ensures later { self.old.faults ≤ self.new.faults }
        ensures cause { Rose self.old.faults self.new.faults }
        ensures rest { self.new ≡ record self.old { faults = self.new.faults } }
    {
        self.faults = self.faults.saturating_add(1);
        Fault
    }
}

impl<'a, R: Files> Texts for FileTexts<'a, R> {
    ghost use Rattle.std.specs.Prelude.{None};

    ghost faults = { λ texts name. texts.faults };

    ghost is_begun = { λ texts. texts.begun };

    ghost held = { λ texts name. None };

    ghost last = { λ texts. None };

    ghost left = { λ texts. None };

    ghost taken = { λ texts. texts.taken };

    ghost begins = { λ texts. texts.begins };

    fn begin(&mut self, name: &Word) -> Result<(), Fault> {
        self.file = None;
        self.taken = 0;
        self.begins = self.begins.saturating_add(1);
        match fs::open(self.rt, name.text()) {
            Ok(file) => {
                self.file = Some(file);
                Ok(())
            }
            Err(_) => Err(self.count_fault()),
        }
    }

    fn read(&mut self, buf: &mut [u8]) -> Result<usize, Fault> {
        let Some(file) = &mut self.file else {
            unreachable!();
        };
        match file.read(buf) {
            Ok(count) => {
                self.taken = self.taken.saturating_add(count as u64);
                Ok(count)
            }
            Err(_) => Err(self.count_fault()),
        }
    }
}
