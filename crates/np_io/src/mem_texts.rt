ghost use Rattle.std.specs.Prelude.{◌≡◌, ◌+◌, ◌-◌, ◌^◌, ◌||◌, ◌++◌, ◌∷◌, [], true, length, min, take, not, None, position, is_some, is_err};
ghost use Rattle.std.specs.Prelude.{is_ok, if◌then◌else◌, IfOk, OnOk, OnErr};
ghost use Rattle.std.specs.Io.{ReadsAtMost};
ghost use Rattle.std.specs.Io.KnownBytes.{ReadConsumes};
ghost use Rattle.np_io.specs.Causes.{Rose, NoneFell, MayBe, HasCauseAt};
ghost use Rattle.np_io.specs.Bytes.{StayHeld, Starts};
ghost use Rattle.np_io.specs.Calls.{is_listed, one_more};
ghost use Rattle.np_io.specs.MemTexts.{count_of, held_by, last_of, left_of, is_named, Adds};

use super::fault::Fault;
use super::named_text::NamedText;
use super::texts::Texts;
use super::word::Word;
use np_syntax::{List, Memory, Text};
use std::alloc::Global;
use std::marker::Model;

/// Texts in memory. A call whose number is listed fails, and so does `begin` with a name that is
/// not held. All names that are not held share one count of faults, and a name that is added starts
/// with that count.
pub struct MemTexts {
    texts: List<NamedText>,
    counts: Vec<u64>,
    unknown: u64,
    failing: Vec<u64>,
    calls: u64,
    begins: u64,
    place: Option<usize>,
    at: usize,
}

impl Drop for MemTexts {
    fn drop(self) {
        let MemTexts {
            texts: _,
            counts: _,
            unknown: _,
            failing: _,
            calls: _,
            begins: _,
            place: _,
            at: _,
        } = self;
    }
}

impl Model for MemTexts {
    ghost use Rattle.std.specs.Prelude.{◌≡◌, ℕ, length, Some};
    ghost use Rattle.np_io.specs.declared.named_text.NamedText.{NamedText as TextOfName};
    ghost use Rattle.np_io.specs.MemTexts.{TextsState, Stands};

    ghost Value = { TextsState };

    ghost view = { λ texts. record {
      texts = texts.texts;
      counts = texts.counts.items;
      unknown = texts.unknown;
      failing = texts.failing.items;
      calls = texts.calls;
      begins = texts.begins;
      place = texts.place;
      at = texts.at;
    } };

    ghost invariant = { λ texts. record {
      counts : length texts.counts.items ≡ length texts.texts;
      stands : (i : ℕ) → texts.place ≡ Some i → (text : TextOfName) × Stands texts.texts i texts.at text;
    } };
}

impl MemTexts {
    /// No texts.
    pub fn new(alloc: Global) -> MemTexts
        ensures { result ≡ record {
          texts = [];
          counts = [];
          unknown = 0;
          failing = [];
          calls = 0;
          begins = 0;
          place = None;
          at = 0;
        } }
    {
        MemTexts {
            texts: List::new(alloc),
            counts: Vec::new(alloc),
            unknown: 0,
            failing: Vec::new(alloc),
            calls: 0,
            begins: 0,
            place: None,
            at: 0,
        }
    }

    /// Adds a text, or replaces the one of that name. Afterwards no text is begun. If memory runs
    /// out, nothing changes and the text is dropped.
    pub fn add(&mut self, name: Word, bytes: Text) -> Result<(), Memory>
        ensures added { OnOk result (Adds self.old self.new name bytes) }
        ensures refused { OnErr result (self.new ≡ self.old) }
    {
        let place = place_of(&self.texts, &name);
        let text = NamedText { name, bytes };
        match place {
            Some(place) => self.texts.set(place, text),
            None => push_both(&mut self.texts, &mut self.counts, text, self.unknown)?,
        }
        self.place = None;
        Ok(())
    }

    /// Makes the call of that number fail, `begin` and `read` counted together from 0.
    pub fn fail(&mut self, call: u64) -> Result<(), Memory>
        ensures { self.new ≡ (if is_ok result
            then record self.old { failing = self.old.failing ++ call ∷ [] } else self.old) }
    {
        self.failing.push(call)?;
        Ok(())
    }
}

impl Texts for MemTexts {
    ghost faults = { count_of };

    ghost is_begun = { λ texts. is_some texts.place };

    ghost held = { held_by };

    ghost last = { last_of };

    ghost left = { left_of };

    ghost taken = { λ texts. texts.at };

    ghost begins = { λ texts. texts.begins };

    fn begin(&mut self, name: &Word) -> Result<(), Fault>
        ensures begun { is_some self.new.place ≡ is_ok result }
        ensures held { StayHeld (held_by self.old) (held_by self.new) }
        ensures later { NoneFell (count_of self.old) (count_of self.new) }
        ensures cause { OnErr result (Rose (count_of self.old name.now) (count_of self.new name.now)) }
        ensures last { OnOk result (MayBe (last_of self.new) name.now) }
        ensures left { OnOk result (Starts (held_by self.old name.now) (left_of self.new)) }
        ensures taken { self.new.at ≡ 0 }
        ensures begins { self.new.begins ≡ one_more self.old.begins }
        ensures exact { is_err result
            ≡ (is_listed self.old.calls self.old.failing || not (is_some (held_by self.old name.now))) }
        ensures calls { self.new.calls ≡ one_more self.old.calls }
        ensures failing { self.new.failing ≡ self.old.failing }
    {
        let fails = self.failing.contains(&self.calls);
        self.calls = self.calls.saturating_add(1);
        self.begins = self.begins.saturating_add(1);
        self.place = None;
        self.at = 0;
        let Some(place) = place_of(&self.texts, name) else {
            self.unknown = self.unknown.saturating_add(1);
            return Err(Fault);
        };
        if fails {
            self.counts[place] = self.counts[place].saturating_add(1);
            return Err(Fault);
        }
        self.place = Some(place);
        Ok(())
    }

    fn read(&mut self, buf: &mut [u8]) -> Result<usize, Fault>
        requires { is_some self.old.place ≡ true }
        ensures begun { is_some self.new.place ≡ true }
        ensures held { StayHeld (held_by self.old) (held_by self.new) }
        ensures later { NoneFell (count_of self.old) (count_of self.new) }
        ensures cause { HasCauseAt (last_of self.old) (count_of self.old) (count_of self.new) result }
        ensures last { last_of self.new ≡ last_of self.old }
        ensures bound { ReadsAtMost result buf.new }
        ensures bytes { ReadConsumes (left_of self.old) (left_of self.new) result buf.new }
        ensures taken { IfOk result (λ n. self.new.at ≡ min (self.old.at + n) (2 ^ 64 - 1)) }
        ensures none_taken { OnErr result (self.new.at ≡ self.old.at) }
        ensures begins { self.new.begins ≡ self.old.begins }
        ensures exact { is_err result ≡ is_listed self.old.calls self.old.failing }
        ensures calls { self.new.calls ≡ one_more self.old.calls }
        ensures failing { self.new.failing ≡ self.old.failing }
    {
        let fails = self.failing.contains(&self.calls);
        self.calls = self.calls.saturating_add(1);
        let Some(place) = self.place else {
            unreachable!();
        };
        if fails {
            self.counts[place] = self.counts[place].saturating_add(1);
            return Err(Fault);
        }
        let text = self.texts.as_slice()[place].bytes.as_slice();
        let count = copy_front(&text[self.at..], buf);
        self.at += count;
        Ok(count)
    }
}

/// Where the name stands, if it is held.
fn place_of(texts: &List<NamedText>, name: &Word) -> Option<usize>
    ensures { result ≡ position (is_named name.now) texts.now }
{
    texts
        .as_slice()
        .iter()
        .position(|text| text.name.text() == name.text())
}

/// Appends a text and its count, or neither.
fn push_both(
    texts: &mut List<NamedText>,
    counts: &mut Vec<u64>,
    text: NamedText,
    count: u64,
) -> Result<(), Memory>
    ensures texts { texts.new ≡ (if is_ok result then texts.old ++ text ∷ [] else texts.old) }
    ensures counts { counts.new.items
        ≡ (if is_ok result then counts.old.items ++ count ∷ [] else counts.old.items) }
{
    counts.reserve(1)?;
    texts.add(text)?;
    match counts.push(count) {
        Ok(()) => Ok(()),
        Err(_) => unreachable!(),
    }
}

/// Copies as many bytes as there are and as fit.
fn copy_front(rest: &[u8], buf: &mut [u8]) -> usize
    ensures count { result ≡ min (length rest.now) (length buf.new) }
    ensures front { take result buf.new ≡ take result rest.now }
{
    let count = rest.len().min(buf.len());
    buf[..count].copy_from_slice(&rest[..count]);
    count
}
