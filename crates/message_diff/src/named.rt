//! The name of the interface that a message is of, read of its frames alone.

ghost use Rattle.std.specs.Prelude.{◌≡◌, IfOk};
ghost use Rattle.link_msg.specs.Tables.{attribute_place};
ghost use Rattle.message_diff.specs.Named.{name_read, name_in};

use link_msg::numbers::IFLA_IFNAME;
use link_msg::{AddressFamily, Cause, LinkAttribute, NlaBuffer, NlasIterator};
use nla_wire::Text;
use std::alloc::{AllocError, Global};

/// The name that an attribute has, or the last one where it has none or is refused.
fn name_or(
    alloc: Global,
    frame: &NlaBuffer<'_>,
    family: AddressFamily,
    last: Option<Text>,
) -> Result<Option<Text>, AllocError>
    ensures { IfOk result
        (λ name. name ≡ name_read last ((attribute_place family).reads frame.now)) }
{
    match LinkAttribute::parse_with_param(alloc, frame, family) {
        Ok(LinkAttribute::IfName(name)) => Ok(Some(name)),
        Ok(_) => Ok(last),
        Err(error) => match error.cause {
            Cause::OutOfMemory => Err(AllocError),
            _ => Ok(last),
        },
    }
}

/// The last name among the attributes that are these bytes, in a message of this family. No other attribute is read.
pub fn last_name(
    alloc: Global,
    family: AddressFamily,
    bytes: &[u8],
) -> Result<Option<Text>, AllocError>
    ensures { IfOk result (λ name. name ≡ name_in family bytes.now) }
{
    let mut last = None;
    for item in NlasIterator::new(bytes) {
        if let Ok(frame) = item {
            if frame.kind() == IFLA_IFNAME {
                last = name_or(alloc, &frame, family, last)?;
            }
        }
    }
    Ok(last)
}
