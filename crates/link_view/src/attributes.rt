//! The attributes of a message over borrowed bytes, one after the other.

ghost use Rattle.std.specs.Prelude.{◌≡◌, List, Result};
ghost use Rattle.std.specs.Iterator.{YieldsFirstBy, item_count};
ghost use Rattle.nla_wire.specs.Frames.{number};
ghost use Rattle.nla_wire.specs.declared.error.Cause.{Cause};
ghost use Rattle.link_msg.specs.Tables.{attribute_place};
ghost use Rattle.link_msg.specs.declared.attribute.LinkAttribute.{LinkAttribute};
ghost use Rattle.link_view.specs.Told.{told};
ghost use Rattle.link_view.specs.Borrowed.{owned};

use crate::borrowed::{BorrowedAttribute, read_frame};
use link_msg::place::AttributePlace;
use link_msg::{AddressFamily, LinkAttribute};
use nla_wire::{DecodeError, NlaBuffer, NlasIterator, Place};
use std::marker::Model;

/// The same fault in the attribute of this number.
#[cold]
fn within(fault: DecodeError, number: u16, family: AddressFamily) -> DecodeError
    ensures { result.cause ≡ fault.cause }
{
    let place = AttributePlace { family };
    fault.within(<AttributePlace as Place<LinkAttribute>>::kind_name(&place, number))
}

/// Reads a frame, whose number is given beside it, under the header's family: the value that `parse` gives, or the same
/// fault. A list is not looked at: its payload may be refused by `parse`.
#[inline(always)]
pub fn borrow_frame<'a>(
    kind: u16,
    frame: NlaBuffer<'a>,
    family: AddressFamily,
) -> Result<BorrowedAttribute<'a>, DecodeError>
    requires { kind ≡ number frame }
    ensures { told owned result ≡ (attribute_place family).reads frame.entry }
{
    match read_frame(kind, frame, family) {
        Ok(value) => Ok(value),
        Err(fault) => Err(within(fault, kind, family)),
    }
}

/// The attributes of a message over borrowed bytes, front to back. Where a payload is damaged its fault comes in the
/// place of its attribute, and where a frame is, nothing after it.
#[derive(Drop)]
pub struct BorrowedAttributes<'a> {
    /// The family in the header.
    pub(crate) family: AddressFamily,
    /// The frames of those that are left.
    pub(crate) frames: NlasIterator<'a>,
}

impl<'a> Model for BorrowedAttributes<'a> {
    ghost use Rattle.std.specs.Prelude.{◌≡◌, List, Result};
    ghost use Rattle.nla_wire.specs.declared.error.Cause.{Cause};
    ghost use Rattle.link_msg.specs.declared.attribute.LinkAttribute.{LinkAttribute};
    ghost use Rattle.link_msg.specs.Tables.{attribute_place};
    ghost use Rattle.link_view.specs.Told.{each_read};

    ghost Value = { List (Result LinkAttribute Cause) };

    ghost view = { λ s. each_read (attribute_place s.family).reads s.frames };
}

impl<'a> Iterator for BorrowedAttributes<'a> {
    type Item = Result<BorrowedAttribute<'a>, DecodeError>;

    ghost next_gives = { YieldsFirstBy (told owned) (λ items. items) };

    ghost remaining = { item_count (λ items. items) };

    #[inline(always)]
    fn next(&mut self) -> Option<Result<BorrowedAttribute<'a>, DecodeError>> {
        match self.frames.next() {
            Some(Ok(frame)) => {
                let number = frame.kind();
                Some(borrow_frame(number, frame, self.family))
            }
            Some(Err(fault)) => Some(Err(fault)),
            None => None,
        }
    }
}
