//! Wireless events: what stands behind their header.

ghost use Rattle.std.specs.Prelude.{◌≡◌, OnOk, drop};
ghost use Rattle.shown.specs.Drafts.{with_value};
ghost use Rattle.frame_shown.specs.Values.{elements_in, event_in, event_part, wireless_shown};

use link_nest::numbers::{IWEVASSOCREQIE, IWEVASSOCRESPIE};
use nla_wire::fields::u16_at;
use shown::{Nest, Page};
use std::alloc::AllocError;

/// The size of `struct iw_point` in an event, which has the length of what follows it in its first two bytes
/// (linux/wireless.h).
const POINT_SIZE: usize = 8;

/// The information elements, without the `struct iw_point` that kernels put in front of them.
fn elements_in(bytes: &[u8]) -> &[u8]
    ensures { result.now ≡ elements_in bytes.now }
{
    if u16_at(bytes, 0) as usize + POINT_SIZE == bytes.len() {
        &bytes[POINT_SIZE..]
    } else {
        bytes
    }
}

/// The bytes of an event behind its header.
fn behind_header(bytes: &[u8]) -> &[u8]
    ensures { result.now ≡ drop 8 bytes.now }
{
    &bytes[POINT_SIZE.min(bytes.len())..]
}

/// The name of what an event of this command holds, and the bytes: elements, or the whole payload.
fn event_part<'a>(command: u16, elements: &'a [u8], payload: &'a [u8]) -> (&'static str, &'a [u8])
    ensures { (result.0.now, result.1.now) ≡ event_part command elements.now payload.now }
{
    match command {
        IWEVASSOCREQIE => ("assocreqie", elements),
        IWEVASSOCRESPIE => ("assocrespie", elements),
        _ => ("payload", payload),
    }
}

/// What an event holds: the information elements of an association, or any other payload.
pub fn event_in(payload: &[u8]) -> (&'static str, &[u8])
    ensures { (result.0.now, result.1.now) ≡ event_in payload.now }
{
    let elements = elements_in(behind_header(payload));
    event_part(u16_at(payload, 2), elements, payload)
}

/// Adds a wireless event.
pub(super) fn show_wireless(page: &mut Page, name: &str, payload: &[u8]) -> Result<(), AllocError>
    ensures { OnOk result
        (page.new ≡ with_value name.now (wireless_shown payload.now) page.old) }
{
    let part = event_in(payload);
    page.begin(name, Nest::Object)?;
    page.hex(part.0, part.1)?;
    page.end()
}
