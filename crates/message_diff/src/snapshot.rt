//! A message as it is compared.

ghost use Rattle.std.specs.Prelude.{◌≡◌, IfOk, IfErr};
ghost use Rattle.message_diff.specs.Announced.{without_event};
ghost use Rattle.message_diff.specs.Compared.{HasTextBy, IsRefusalBy, is_lenient, is_state, leniently, with_counters};

use crate::announced::without_event;
use frame_shown::form::Order;
use link_msg::{CanonError, canonical, canonical_lenient};
use link_state::{state, state_lenient};
use std::alloc::{AllocError, Global};
use std::marker::Model;

/// What is compared of two messages.
#[derive(Clone, Copy, Debug, PartialEq, Eq)]
pub enum Compared {
    /// Their state encodings: what moves by itself does not count.
    State,
    /// Their canonical encodings: all counts.
    Message,
    /// Their state encodings, where they are read leniently: of an attribute that is refused its bytes count.
    LenientState,
    /// Their canonical encodings, where they are read leniently.
    LenientMessage,
}

impl Compared {
    /// Whether what moves by itself does not count.
    pub fn is_state(self) -> bool
        ensures { result ≡ is_state self }
    {
        match self {
            Compared::State | Compared::LenientState => true,
            Compared::Message | Compared::LenientMessage => false,
        }
    }

    /// Whether messages are read leniently.
    pub fn is_lenient(self) -> bool
        ensures { result ≡ is_lenient self }
    {
        match self {
            Compared::LenientState | Compared::LenientMessage => true,
            Compared::State | Compared::Message => false,
        }
    }

    /// The same of messages that are read leniently.
    pub fn leniently(self) -> Compared
        ensures { result ≡ leniently self }
    {
        match self {
            Compared::State | Compared::LenientState => Compared::LenientState,
            Compared::Message | Compared::LenientMessage => Compared::LenientMessage,
        }
    }

    /// The same, and what moves by itself.
    pub fn with_counters(self) -> Compared
        ensures { result ≡ with_counters self }
    {
        match self {
            Compared::State | Compared::Message => Compared::Message,
            Compared::LenientState | Compared::LenientMessage => Compared::LenientMessage,
        }
    }
}

/// A message as it is compared: its encoding, and the order of counters that its line was read in.
#[derive(Drop)]
pub struct Snapshot {
    order: Order,
    text: Vec<u8>,
}

impl Model for Snapshot {
    ghost use Rattle.message_diff.specs.Shots.{Shot};

    ghost Value = { Shot };

    ghost view = { λ snapshot. record { order = snapshot.order; text = snapshot.text.items } };
}

/// The encoding of a message that is compared.
fn text_by(alloc: Global, by: Compared, bytes: &[u8]) -> Result<Vec<u8>, CanonError>
    ensures ok { IfOk result (λ text. HasTextBy by bytes.now text.items) }
    ensures err { IfErr result (IsRefusalBy by bytes.now) }
{
    match by {
        Compared::State => state(alloc, bytes),
        Compared::Message => canonical(alloc, bytes),
        Compared::LenientState => state_lenient(alloc, bytes),
        Compared::LenientMessage => canonical_lenient(alloc, bytes),
    }
}

impl Snapshot {
    /// The message that the bytes are, whose counters of IPv6 have this order.
    ///
    /// Refuses as `canonical` does, or `canonical_lenient` where it is read leniently.
    pub fn new(
        alloc: Global,
        by: Compared,
        order: Order,
        bytes: &[u8],
    ) -> Result<Snapshot, CanonError>
        ensures ok { IfOk result (λ snapshot. HasTextBy by bytes.now snapshot.text) }
        ensures order { IfOk result (λ snapshot. snapshot.order ≡ order) }
        ensures err { IfErr result (IsRefusalBy by bytes.now) }
    {
        let text = text_by(alloc, by, bytes)?;
        Ok(Snapshot { order, text })
    }

    /// The same of the message without its attributes IFLA_EVENT, which say why it was announced.
    ///
    /// Refuses as `new` does.
    pub fn of_link(
        alloc: Global,
        by: Compared,
        order: Order,
        bytes: &[u8],
    ) -> Result<Snapshot, CanonError>
        ensures ok { IfOk result (λ snapshot. HasTextBy by (without_event bytes.now) snapshot.text) }
        ensures order { IfOk result (λ snapshot. snapshot.order ≡ order) }
        ensures err { IfErr result (IsRefusalBy by (without_event bytes.now)) }
    {
        match without_event(alloc, bytes) {
            Ok(Some(shorter)) => Snapshot::new(alloc, by, order, shorter.as_slice()),
            Ok(None) => Snapshot::new(alloc, by, order, bytes),
            Err(AllocError) => Err(CanonError::OutOfMemory),
        }
    }

    /// The order of its counters of IPv6.
    pub fn order(&self) -> Order
        ensures { result ≡ self.now.order }
    {
        self.order
    }

    /// The same message came again, in this order.
    pub fn set_order(&mut self, order: Order)
        ensures { self.new ≡ record { order = order; text = self.old.text } }
    {
        self.order = order;
    }

    /// The encoding that is compared.
    pub fn text(&self) -> &[u8]
        ensures { result.now ≡ self.now.text }
    {
        self.text.as_slice()
    }
}
