//! A table is filled in.

ghost use Rattle.std.specs.Prelude.{◌≡◌, ◌<◌, ◌≤◌, ◌+◌, ◌-◌, length, reverse, IfOk, IsTrue, OnOk};
ghost use Rattle.infrastructure_texts.specs.Pieces.{Writes};
ghost use Rattle.infrastructure_texts.specs.Filling as spec;
ghost use Rattle.infrastructure_texts.specs.Whole.{binders_of, given_of, is_whole, part, parts_of, piece_binders, piece_given, taken};
ghost use Rattle.text_filling.specs.Hands.{hand_of, all_behind, Holds};

use super::filler::Filler;
use super::writer::Written;
use infrastructure_texts::Piece;
use np_syntax::{List, Memory, Proc, ProcForm};

/// The processes behind a piece, and those that are still to be put in, of each the nearest last.
#[derive(Drop)]
pub struct Behind {
    pub made: List<Proc>,
    pub parts: List<Proc>,
}

/// The last of some processes.
fn nearest(processes: &mut List<Proc>) -> Written
    requires { 0 < length processes.old }
    ensures fewer { length processes.old ≡ length processes.new + 1 }
    ensures first { IfOk result (λ p. p ≡ spec.first (reverse processes.old)) }
    ensures others { reverse processes.new ≡ spec.others (reverse processes.old) }
{
    match processes.pop() {
        Some(last) => Ok(last),
        None => unreachable!(),
    }
}

impl<'a> Filler<'a> {
    /// The process that a piece makes out of those behind it.
    fn made(self, piece: Piece, behind: &mut Behind) -> Written
        requires held { Holds self (piece_binders piece) (piece_given piece) }
        requires taken { taken piece ≤ length behind.old.made }
        requires part { part piece ≤ length behind.old.parts }
        ensures fewer { length behind.old.made ≡ length behind.new.made + taken piece }
        ensures fewer_parts { length behind.old.parts ≡ length behind.new.parts + part piece }
        ensures made { Writes result (spec.made (hand_of self.entry) piece (all_behind behind.old)) }
        ensures left { reverse behind.new.made ≡ spec.left piece (reverse behind.old.made) }
        ensures parts { reverse behind.new.parts ≡ spec.parts_left piece (reverse behind.old.parts) }
    {
        match piece {
            Piece::Stop => self.writer.infra(ProcForm::Stop),
            Piece::Both => {
                let left = nearest(&mut behind.made);
                let right = nearest(&mut behind.made);
                self.both(left, right)
            }
            Piece::NewLock(lock) => self.new_lock(lock, nearest(&mut behind.made)),
            Piece::Gives(chan, value) => self.gives(chan, value),
            Piece::Takes(chan, names) => self.takes(chan, names, nearest(&mut behind.made)),
            Piece::Serves(chan, names) => self.serves(chan, names, nearest(&mut behind.made)),
            Piece::Creates(role, agent) => {
                let body = nearest(&mut behind.made);
                let rest = nearest(&mut behind.made);
                self.creates(role, agent, body, rest)
            }
            Piece::Goes(role, to) => self.goes(role, to, nearest(&mut behind.made)),
            Piece::Meets(agent, chan, value) => {
                let met = nearest(&mut behind.made);
                let unmet = nearest(&mut behind.made);
                self.meets(agent, chan, value, met, unmet)
            }
            Piece::Sends(agent, at, chan, value) => self.sends(agent, at, chan, value),
            Piece::Tells(role, chan, value) => self.tells(role, chan, value),
            Piece::Opens(letter) => self.opens(letter),
            Piece::Looks(agent, places, lock) => {
                let met = nearest(&mut behind.made);
                let unmet = nearest(&mut behind.made);
                self.looks(agent, places, lock, met, unmet)
            }
            Piece::Part => nearest(&mut behind.parts),
        }
    }

    /// Reads one piece.
    fn read(self, piece: Piece, behind: &mut Behind) -> Result<(), Memory>
        requires held { Holds self (piece_binders piece) (piece_given piece) }
        requires taken { taken piece ≤ length behind.old.made }
        requires part { part piece ≤ length behind.old.parts }
        ensures more { OnOk result (length behind.new.made ≡ length behind.old.made - taken piece + 1) }
        ensures fewer_parts { OnOk result (length behind.old.parts ≡ length behind.new.parts + part piece) }
        ensures step { OnOk result (all_behind behind.new ≡ spec.step (hand_of self.entry) piece (all_behind behind.old)) }
    {
        let made = self.made(piece, behind)?;
        behind.made.add(made)
    }

    /// The process that a table is, with these processes put in, in the order of the text.
    pub fn fill(self, table: &[Piece], parts: List<Proc>) -> Written
        requires whole { IsTrue (is_whole table.now) }
        requires held { Holds self (binders_of table.now) (given_of table.now) }
        requires parts { parts_of table.now ≤ length parts }
        ensures { Writes result (spec.filled (hand_of self.entry) table.now (reverse parts)) }
    {
        let mut behind = Behind {
            made: List::new(self.writer.alloc),
            parts,
        };
        for place in (0..table.len()).rev() {
            self.read(table[place], &mut behind)?;
        }
        nearest(&mut behind.made)
    }
}
