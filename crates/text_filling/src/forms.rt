//! The form of each piece, with the processes in it. They are taken as they came, so that want of memory at one is want of memory of
//! the whole.

ghost use Rattle.std.specs.Prelude.{◌≡◌, ◌+◌, ◌<◌, max, IfOk};
ghost use Rattle.np_check.specs.Faults.{lock_type};
ghost use Rattle.np_syntax.specs.declared.process.Proc.{Proc};
ghost use Rattle.np_syntax.specs.declared.process.ProcForm as form;
ghost use Rattle.infrastructure_texts.specs.Pieces as piece;
ghost use Rattle.infrastructure_texts.specs.Pieces.{Writes};
ghost use Rattle.infrastructure_texts.specs.Filling.{number, as_word, as_content, as_names};
ghost use Rattle.infrastructure_texts.specs.Whole.{content_binders, content_given, names_binders, word_binders, word_given};
ghost use Rattle.text_filling.specs.Hands.{hand_of, room_of, Holds};

use super::filler::Filler;
use super::writer::Written;
use infrastructure_texts::{Content, Names, Word};
use np_calculus::DAEMON;
use np_syntax::{Boxed, Cap, Memory, ProcForm, Role, Ty};
use std::alloc::Global;

/// The type of lock channels.
fn lock_type(alloc: Global) -> Result<Ty, Memory>
    ensures { IfOk result (λ ty. ty ≡ lock_type) }
{
    Ok(Ty::Chan(Cap::Both, Boxed::of(alloc, Ty::Site)?))
}

impl<'a> Filler<'a> {
    /// `(P | Q)`
    pub fn both(self, left: Written, right: Written) -> Written
        ensures { (p q : Proc) → Writes left p → Writes right q → Writes result (piece.beside self.entry.writer.node p q) }
    {
        self.writer.infra(ProcForm::Par(left?, right?))
    }

    /// `new l : ^Site in P`
    pub fn new_lock(self, lock: u32, body: Written) -> Written
        requires { lock < room_of self }
        ensures { (p : Proc) → Writes body p
            → Writes result (piece.infra self.entry.writer.node (form.New (number (hand_of self.entry) lock) lock_type p)) }
    {
        let ty = lock_type(self.writer.alloc)?;
        self.writer
            .infra(ProcForm::New(self.number(lock), ty, body?))
    }

    /// `c!e`
    pub fn gives(self, chan: Word, value: Content) -> Written
        requires { Holds self (max (word_binders chan) (content_binders value)) (max (word_given chan) (content_given value)) }
        ensures { Writes result
            (piece.gives self.entry.writer.node (as_word (hand_of self.entry) chan) (as_content (hand_of self.entry) value)) }
    {
        let form = ProcForm::Out(self.word(chan)?, self.content(value)?);
        self.writer.infra(form)
    }

    /// `c?p -> P`
    pub fn takes(self, chan: Word, names: Names, body: Written) -> Written
        requires { Holds self (max (word_binders chan) (names_binders names)) (word_given chan) }
        ensures { (p : Proc) → Writes body p → Writes result
            (piece.takes self.entry.writer.node (as_word (hand_of self.entry) chan) (as_names (hand_of self.entry) names) p) }
    {
        let form = ProcForm::Inp(self.word(chan)?, self.names(names)?, body?);
        self.writer.infra(form)
    }

    /// `*c?p -> P`
    pub fn serves(self, chan: Word, names: Names, body: Written) -> Written
        requires { Holds self (max (word_binders chan) (names_binders names)) (word_given chan) }
        ensures { (p : Proc) → Writes body p → Writes result
            (piece.serves self.entry.writer.node (as_word (hand_of self.entry) chan) (as_names (hand_of self.entry) names) p) }
    {
        let form = ProcForm::Rep(self.word(chan)?, self.names(names)?, body?);
        self.writer.infra(form)
    }

    /// `agent b = P in Q`
    pub fn creates(self, role: Role, agent: u32, body: Written, rest: Written) -> Written
        requires { agent < room_of self }
        ensures { (p q : Proc) → Writes body p → Writes rest q
            → Writes result (piece.process self.entry.writer.node role (form.Agent (number (hand_of self.entry) agent) p q)) }
    {
        let form = ProcForm::Agent(self.number(agent), body?, rest?);
        self.writer.process(role, form)
    }

    /// `migrate to e -> P`
    pub fn goes(self, role: Role, to: Word, body: Written) -> Written
        requires { Holds self (word_binders to) (word_given to) }
        ensures { (p : Proc) → Writes body p
            → Writes result (piece.process self.entry.writer.node role (form.Migrate (as_word (hand_of self.entry) to) p)) }
    {
        let form = ProcForm::Migrate(self.word(to)?, body?);
        self.writer.process(role, form)
    }

    /// `iflocal <b>c!v then P else Q`
    pub fn meets(
        self,
        agent: Word,
        chan: Word,
        value: Word,
        met: Written,
        unmet: Written,
    ) -> Written
        requires { Holds self (max (word_binders agent) (max (word_binders chan) (word_binders value)))
            (max (word_given agent) (max (word_given chan) (word_given value))) }
        ensures { (p q : Proc) → Writes met p → Writes unmet q → Writes result (piece.infra self.entry.writer.node (form.IfLocal
            (as_word (hand_of self.entry) agent) (as_word (hand_of self.entry) chan) (as_word (hand_of self.entry) value) p q)) }
    {
        let agent = self.word(agent)?;
        let chan = self.word(chan)?;
        let value = self.word(value)?;
        self.writer
            .infra(ProcForm::IfLocal(agent, chan, value, met?, unmet?))
    }

    /// `<b@s>c!e`
    pub fn sends(self, agent: Word, at: Word, chan: Word, value: Content) -> Written
        requires { Holds self (max (max (word_binders agent) (word_binders at)) (max (word_binders chan) (content_binders value)))
            (max (max (word_given agent) (word_given at)) (max (word_given chan) (content_given value))) }
        ensures { Writes result (piece.sends self.entry.writer.node (as_word (hand_of self.entry) agent) (as_word (hand_of self.entry) at)
            (as_word (hand_of self.entry) chan) (as_content (hand_of self.entry) value)) }
    {
        let agent = self.word(agent)?;
        let at = self.word(at)?;
        let chan = self.word(chan)?;
        let value = self.content(value)?;
        self.writer.infra(ProcForm::Send(agent, at, chan, value))
    }

    /// `<D@SD>c!e`
    pub fn tells(self, role: Role, chan: Word, value: Content) -> Written
        requires { Holds self (max (word_binders chan) (content_binders value)) (max (word_given chan) (content_given value)) }
        ensures { Writes result (piece.process self.entry.writer.node role (form.Send (piece.daemon self.entry.writer.sites) (piece.site 0)
            (as_word (hand_of self.entry) chan) (as_content (hand_of self.entry) value))) }
    {
        let daemon = self.writer.agent(DAEMON)?;
        let at = self.writer.site(0)?;
        let chan = self.word(chan)?;
        let value = self.content(value)?;
        self.writer
            .process(role, ProcForm::Send(daemon, at, chan, value))
    }

    /// `open e`
    pub fn opens(self, letter: Word) -> Written
        requires { Holds self (word_binders letter) (word_given letter) }
        ensures { Writes result (piece.infra self.entry.writer.node (form.Open (as_word (hand_of self.entry) letter))) }
    {
        self.writer.infra(ProcForm::Open(self.word(letter)?))
    }

    /// `lookup a in m then l -> P else Q`
    pub fn looks(self, agent: Word, places: u32, lock: u32, met: Written, unmet: Written) -> Written
        requires { Holds self (max (word_binders agent) (max (places + 1) (lock + 1))) (word_given agent) }
        ensures { (p q : Proc) → Writes met p → Writes unmet q → Writes result (piece.infra self.entry.writer.node (form.Lookup
            (as_word (hand_of self.entry) agent) (piece.variable (number (hand_of self.entry) places))
            (number (hand_of self.entry) lock) p q)) }
    {
        let agent = self.word(agent)?;
        let places = self.variable(places)?;
        let lock = self.number(lock);
        self.writer
            .infra(ProcForm::Lookup(agent, places, lock, met?, unmet?))
    }
}
