//! What a pass of an inbox knows. No value of these types is made.

use std::collections::LinkedList;

/// The owner: the number of sites, how many senders were made, the items it took, and the notes of senders that it joined, newest
/// first.
pub struct OwnerView<I> {
    pub sites: u32,
    pub made: u32,
    pub got: LinkedList<I>,
    pub told: LinkedList<SentNote<I>>,
}

/// A sender: the number of sites, its number, the items it pushed, those it knows to have been taken, and the list of the owner's
/// note that it joined last.
pub struct SenderView<I> {
    pub sites: u32,
    pub number: u32,
    pub sent: LinkedList<I>,
    pub freed: LinkedList<I>,
    pub last: LinkedList<I>,
}

/// A note of what a sender had pushed.
pub struct SentNote<I> {
    pub number: u32,
    pub sent: LinkedList<I>,
}

/// A note of what the owner had taken.
pub struct GotNote<I> {
    pub got: LinkedList<I>,
}

/// What a pass knows. A spent pass knows nothing.
pub enum View<I> {
    Owner(OwnerView<I>),
    Sender(SenderView<I>),
    OfSender(SentNote<I>),
    OfOwner(GotNote<I>),
    Spent,
}
