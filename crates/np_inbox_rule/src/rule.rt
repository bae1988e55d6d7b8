//! The rule, and what its steps tell.

use crate::views::View;
use crossbeam_queue::protocol::{Join, Lesson, Outcome, Protocol, Split};
use site_links::Addressed;

/// The rule of an inbox.
pub struct InboxRule;

impl<I: Addressed> Protocol<I, View<I>> for InboxRule {
    ghost use Rattle.np_inbox_rule.specs.Rule.{Holds};
    ghost use Rattle.np_inbox_rule.specs.Steps.{first_view};

    ghost holds = { Holds I.sender };

    ghost first = { first_view };
}

/// A sender's push.
pub struct Put;

impl<I: Addressed> Outcome<I, View<I>> for Put {
    ghost use Rattle.std.specs.Prelude.{◌≡◌};
    ghost use Rattle.np_inbox_rule.specs.Steps.{put};

    ghost then = { λ v x w. w ≡ put v x };
}

impl<I: Addressed> Lesson<I, View<I>> for Put {
    ghost use Rattle.np_inbox_rule.specs.Steps.{HasSpace};

    ghost fact = { HasSpace };
}

/// The owner's pop.
pub struct Take;

impl<I: Addressed> Outcome<I, View<I>> for Take {
    ghost use Rattle.np_inbox_rule.specs.Steps.{Taken};

    ghost then = { Taken I.sender };
}

impl<I: Addressed> Lesson<I, View<I>> for Take {
    ghost use Rattle.np_inbox_rule.specs.Steps.{IsTold};

    ghost fact = { IsTold I.sender };
}

/// A sender's look at the queue.
pub struct Look;

impl<I: Addressed> Lesson<I, View<I>> for Look {
    ghost use Rattle.np_inbox_rule.specs.Steps.{IsFreed};

    ghost fact = { IsFreed };
}

/// The owner, before it has made a sender, counts one more site.
pub struct OneSite;

impl<I> Split<View<I>> for OneSite {
    ghost use Rattle.np_inbox_rule.specs.Steps.{one_site};
    ghost use Rattle.np_inbox_rule.specs.declared.views.View.TheVariants.{Spent};

    ghost left = { one_site };

    ghost right = { λ v. Spent };
}

/// The owner makes a sender.
pub struct NewSender;

impl<I> Split<View<I>> for NewSender {
    ghost use Rattle.np_inbox_rule.specs.Steps.{one_made, new_sender};

    ghost left = { one_made };

    ghost right = { new_sender };
}

/// A sender makes a note of what it has pushed.
pub struct NoteSent;

impl<I> Split<View<I>> for NoteSent {
    ghost use Rattle.np_inbox_rule.specs.Steps.{note_sent};

    ghost left = { λ v. v };

    ghost right = { note_sent };
}

/// The owner makes a note of what it has taken.
pub struct NoteGot;

impl<I> Split<View<I>> for NoteGot {
    ghost use Rattle.np_inbox_rule.specs.Steps.{note_got};

    ghost left = { λ v. v };

    ghost right = { note_got };
}

/// The owner joins a sender's note.
pub struct JoinSent;

impl<I> Join<View<I>> for JoinSent {
    ghost use Rattle.np_inbox_rule.specs.Steps.{join_sent};
    ghost use Rattle.np_inbox_rule.specs.declared.views.View.TheVariants.{Spent};

    ghost both = { join_sent };

    ghost spent = { Spent };
}

/// A sender joins a note of the owner.
pub struct JoinGot;

impl<I: Addressed> Join<View<I>> for JoinGot {
    ghost use Rattle.np_inbox_rule.specs.Steps.{join_got};
    ghost use Rattle.np_inbox_rule.specs.declared.views.View.TheVariants.{Spent};

    ghost both = { join_got I.sender };

    ghost spent = { Spent };
}
