//! A message over borrowed bytes.

ghost use Rattle.std.specs.Prelude.{◌≡◌, ◌≢◌, ◌≤◌, Option, None, Some, Ok, length, take, drop};
ghost use Rattle.std.specs.Prelude.{IfOk, IfErr, MatchResult};
ghost use Rattle.nla_wire.specs.Frames.{Frame, IsBytes};
ghost use Rattle.nla_wire.specs.Fields.{IsShort};
ghost use Rattle.nla_wire.specs.Gives.{without_place};
ghost use Rattle.nla_wire.specs.Items.{items};
ghost use Rattle.nla_wire.specs.declared.error.Cause.TheVariants.{OutOfMemory};
ghost use Rattle.link_msg.specs.Header.{header_size};
ghost use Rattle.link_msg.specs.Tables.{attribute_place};
ghost use Rattle.link_msg.specs.Messages.{Means, FirstFault, MeansNothing, read_message};
ghost use Rattle.link_msg.specs.declared.message.LinkMessage.{LinkMessage};
ghost use Rattle.link_view.specs.Views.{parsed, latest, last_of, HasNumber, IsLastOf, AreFramesOf};
ghost use Rattle.link_view.specs.Search.{IsFound, AreFound};
ghost use Rattle.link_view.specs.Told.{told_found, read_found, each_read, all_read};
ghost use Rattle.link_view.specs.Borrowed.{owned};

use crate::attributes::{BorrowedAttributes, borrow_frame};
use crate::borrowed::BorrowedAttribute;
use crate::sought::{Sought, frame_of, last_each};
use link_msg::header::HEADER_SIZE;
use link_msg::{LinkHeader, LinkMessage};
use nla_wire::{DecodeError, NlaBuffer, NlasIterator};
use std::marker::Model;

/// A message over borrowed bytes: its header, and the attributes after it, which are not copied.
#[derive(Debug, Drop)]
pub struct LinkView<'a> {
    header: LinkHeader,
    list: &'a [u8],
}

impl<'a> Model for LinkView<'a> {
    ghost use Rattle.link_view.specs.Views.{Opened};

    ghost Value = { Opened };

    ghost view = { λ s. record { header = s.header; list = s.list.now } };
}

/// What holds of every slice of bytes: each is below 256. It does nothing; for the proof: a call of it states this.
#[inline(always)]
fn are_bytes(_bytes: &[u8])
    ensures { IsBytes _bytes.now }
{}

/// The last frame of this number in a list of attributes; or the fault that ends the frames, wherever that is.
pub fn last_in(list: &[u8], number: u16) -> Result<Option<NlaBuffer<'_>>, DecodeError>
    ensures found { without_place result ≡ latest number None (items list.now) }
    ensures numbered { IfOk result (λ found. HasNumber number found) }
{
    let mut found = None;
    for item in NlasIterator::new(list) {
        let frame = item?;
        if frame.kind() == number {
            found = Some(frame);
        }
    }
    Ok(found)
}

impl<'a> LinkView<'a> {
    /// A view of a message that is checked whole: what `LinkMessage::parse` refuses it refuses, with the same fault.
    #[tactic(auto, using(crate::proofs::Lasting::opened_means))]
    pub fn new(message: &'a [u8]) -> Result<LinkView<'a>, DecodeError>
        ensures view { IfOk result (λ v. read_message message.now ≡ parsed v) }
        ensures found { IfOk result (λ v. (m : LinkMessage)
            × Means message.now m × (parsed v ≡ Ok m)) }
        ensures fault { IfErr result (λ e. FirstFault message.now e.cause) }
        ensures refused { IfErr result (λ e. MeansNothing message.now) }
        ensures memory { IfErr result (λ e. e.cause ≢ OutOfMemory) }
    {
        LinkMessage::check(message)?;
        LinkView::peek(message)
    }

    /// A view of which the header alone is checked: a fault of an attribute is met when it is read, and none that is
    /// not read. Refuses `TooShort` below 16 bytes.
    #[tactic(auto, unfolding(link_msg::specs::Messages::read_message))]
    pub fn peek(message: &'a [u8]) -> Result<LinkView<'a>, DecodeError>
        ensures { MatchResult result (λ v. read_message message.now ≡ parsed v)
            (IsShort message.now header_size) }
    {
        LinkHeader::parse(message)?;
        let (front, list) = message.split_at(HEADER_SIZE);
        let header = LinkHeader::parse(front)?;
        Ok(LinkView { header, list })
    }

    /// The 16 bytes at the front.
    pub fn header(&self) -> LinkHeader
        ensures { result ≡ self.now.header }
    {
        self.header
    }

    /// The frames of the attributes, front to back: of a message that `parse` reads one for each attribute, in order.
    pub fn frames(&self) -> NlasIterator<'a>
        ensures frames { result ≡ items self.now.list }
        ensures parsed { (m : LinkMessage) → parsed self.now ≡ Ok m → AreFramesOf m result }
    {
        are_bytes(self.list);
        NlasIterator::new(self.list)
    }

    /// The last attribute of this number, as the kernel reads a list; `None` where there is none.
    ///
    /// Of a message that `parse` reads it is the frame of the last attribute of this number. A frame that is damaged is
    /// refused, wherever it is.
    pub fn last(&self, number: u16) -> Result<Option<NlaBuffer<'a>>, DecodeError>
        ensures found { without_place result ≡ latest number None (items self.now.list) }
        ensures parsed { (m : LinkMessage) → parsed self.now ≡ Ok m → IsLastOf m number result }
        ensures numbered { IfOk result (λ found. HasNumber number found) }
    {
        are_bytes(self.list);
        last_in(self.list, number)
    }

    /// What `last_value` does; for the proof: its clause cites the reader alone, and that of a message follows.
    #[inline(always)]
    fn read_last(&self, number: u16) -> Result<Option<BorrowedAttribute<'a>>, DecodeError>
        ensures { told_found owned result
            ≡ read_found (attribute_place self.now.header.interface_family).reads
            (latest number None (items self.now.list)) }
    {
        let family = self.header.interface_family;
        match self.last(number) {
            Ok(Some(frame)) => match borrow_frame(number, frame, family) {
                Ok(value) => Ok(Some(value)),
                Err(fault) => Err(fault),
            },
            Ok(None) => Ok(None),
            Err(fault) => Err(fault),
        }
    }

    /// The last attribute of this number over borrowed bytes, as the kernel reads a list; `None` where there is none.
    ///
    /// Of a message that `parse` reads it is what `parse` gives: the same variant with the same value. Else a fault of
    /// the frames is refused, or one of the value.
    #[inline(always)]
    pub fn last_value(&self, number: u16) -> Result<Option<BorrowedAttribute<'a>>, DecodeError>
        ensures parsed { (m : LinkMessage) → parsed self.now ≡ Ok m
            → told_found owned result ≡ Ok (last_of number None m.attributes) }
        ensures found { told_found owned result
            ≡ read_found (attribute_place self.now.header.interface_family).reads
            (latest number None (items self.now.list)) }
    {
        are_bytes(self.list);
        self.read_last(number)
    }

    /// Finds the last attribute of each of these numbers, as `last` does, in one pass.
    #[inline(always)]
    pub fn find(&self, sought: &mut [Sought]) -> Result<(), DecodeError>
        ensures { AreFound self.now.list sought.old sought.new result }
    {
        last_each(self.list, sought)
    }

    /// The attribute that `find` found: what `last` gives of its number.
    #[inline(always)]
    pub fn found(&self, sought: Sought) -> Result<Option<NlaBuffer<'a>>, DecodeError>
        requires { IsFound self.now.list sought }
        ensures found { without_place result ≡ latest sought.number None (items self.now.list) }
        ensures parsed { (m : LinkMessage) → parsed self.now ≡ Ok m
            → IsLastOf m sought.number result }
        ensures numbered { IfOk result (λ found. HasNumber sought.number found) }
    {
        are_bytes(self.list);
        frame_of(self.list, sought)
    }

    /// What `found_value` does; for the proof: its clause cites the reader alone, and that of a message follows.
    #[inline(always)]
    fn read_found(&self, sought: Sought) -> Result<Option<BorrowedAttribute<'a>>, DecodeError>
        requires { IsFound self.now.list sought }
        ensures { told_found owned result
            ≡ read_found (attribute_place self.now.header.interface_family).reads
            (latest sought.number None (items self.now.list)) }
    {
        let family = self.header.interface_family;
        match frame_of(self.list, sought) {
            Ok(Some(frame)) => match borrow_frame(sought.number, frame, family) {
                Ok(read) => Ok(Some(read)),
                Err(fault) => Err(fault),
            },
            Ok(None) => Ok(None),
            Err(fault) => Err(fault),
        }
    }

    /// The attribute that `find` found, over borrowed bytes: what `last_value` gives of its number.
    #[inline(always)]
    pub fn found_value(&self, sought: Sought) -> Result<Option<BorrowedAttribute<'a>>, DecodeError>
        requires { IsFound self.now.list sought }
        ensures parsed { (m : LinkMessage) → parsed self.now ≡ Ok m
            → told_found owned result ≡ Ok (last_of sought.number None m.attributes) }
        ensures found { told_found owned result
            ≡ read_found (attribute_place self.now.header.interface_family).reads
            (latest sought.number None (items self.now.list)) }
    {
        are_bytes(self.list);
        self.read_found(sought)
    }

    /// What `values` does; for the proof: its clause cites the reader alone, and that of a message follows.
    #[inline(always)]
    fn read_all(&self) -> BorrowedAttributes<'a>
        ensures { result ≡ each_read (attribute_place self.now.header.interface_family).reads
            (items self.now.list) }
    {
        BorrowedAttributes {
            family: self.header.interface_family,
            frames: self.frames(),
        }
    }

    /// The attributes over borrowed bytes, front to back: of a message that `parse` reads exactly those that it gives,
    /// in order.
    #[inline(always)]
    pub fn values(&self) -> BorrowedAttributes<'a>
        ensures parsed { (m : LinkMessage) → parsed self.now ≡ Ok m
            → result ≡ all_read m.attributes }
        ensures values { result
            ≡ each_read (attribute_place self.now.header.interface_family).reads
            (items self.now.list) }
    {
        are_bytes(self.list);
        self.read_all()
    }
}
