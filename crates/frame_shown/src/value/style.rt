//! Values by the styles of link data.

ghost use Rattle.std.specs.Prelude.{◌≡◌, OnOk, length};
ghost use Rattle.nla_wire.specs.Items.{items};
ghost use Rattle.link_info.specs.Meanings.{meaning};
ghost use Rattle.link_info.specs.Styles.{plain_size};
ghost use Rattle.shown.specs.Drafts.{with_members, with_value, object_of};
ghost use Rattle.frame_shown.specs.Values.{number_shown, plain_shown, spelled, listed, record_shown, elements_shown};
ghost use Rattle.frame_shown.specs.Values.{payloads_shown, count_of, style_shown};

use crate::depth::Depth;
use crate::form::{Around, List};
use crate::value::number_at;
use link_info::read::read;
use link_info::{Member, Plain, Style, Value};
use nla_wire::NlasIterator;
use shown::{Nest, Page};
use std::alloc::AllocError;

/// Adds a number, by how it is spelled.
fn show_number(page: &mut Page, name: &str, plain: Plain, number: u64) -> Result<(), AllocError>
    ensures { OnOk result
        (page.new ≡ with_value name.now (number_shown plain number) page.old) }
{
    match plain {
        Plain::Named(_, names) | Plain::BigEndianNamed(_, names) => page.named(name, number, names),
        Plain::Flags(_, names) | Plain::BigEndianFlags(_, names) => page.flags(name, number, names),
        _ => page.number(name, number),
    }
}

/// Adds a value of a fixed size; what holds others as its bytes.
fn show_plain(page: &mut Page, name: &str, plain: Plain, value: Value<'_>) -> Result<(), AllocError>
    ensures { OnOk result
        (page.new ≡ with_value name.now (plain_shown plain (meaning value.entry)) page.old) }
{
    match value {
        Value::Flag => page.truth(name, true),
        Value::Unsigned(number) => show_number(page, name, plain, number),
        Value::Signed(number) => page.signed(name, number),
        Value::Text(text) => page.string(name, text),
        Value::Mac(octets) => page.address(name, &octets),
        Value::Ipv4(address) => page.ipv4_address(name, &address),
        Value::Ipv6(address) => page.ipv6_address(name, &address),
        Value::Bytes(bytes)
        | Value::Record(_, bytes)
        | Value::Array(_, bytes)
        | Value::List(_, bytes)
        | Value::Nest(_, bytes) => page.hex(name, bytes),
    }
}

/// Adds the value that bytes spell.
pub fn show_spelled(
    page: &mut Page,
    name: &str,
    plain: Plain,
    bytes: &[u8],
) -> Result<(), AllocError>
    ensures { OnOk result (page.new ≡ with_value name.now (spelled plain bytes.now) page.old) }
{
    show_plain(page, name, plain, read(Style::Plain(plain), bytes))
}

/// Adds the members of a record.
fn show_parts(page: &mut Page, parts: &[Member], bytes: &[u8]) -> Result<(), AllocError>
    ensures { OnOk result
        (page.new ≡ with_members (record_shown parts.now bytes.now) page.old) }
{
    let mut rest = bytes;
    for Member(name, plain) in parts {
        let (value, behind) = rest.split_at(plain.size().min(rest.len()));
        show_spelled(page, name, *plain, value)?;
        rest = behind;
    }
    Ok(())
}

/// How many values of a size there are among so many bytes; none where it is 0.
pub fn count(size: usize, len: usize) -> usize
    ensures { result ≡ count_of size len }
{
    match size {
        0 => 0,
        size => len / size,
    }
}

/// Adds values of one size.
fn show_elements(page: &mut Page, plain: Plain, bytes: &[u8]) -> Result<(), AllocError>
    ensures { OnOk result (page.new ≡ with_members (elements_shown plain
        (count_of (plain_size plain) (length bytes.now)) bytes.now) page.old) }
{
    let size = plain.size();
    let mut rest = bytes;
    for _ in 0..count(size, bytes.len()) {
        let (value, behind) = rest.split_at(size.min(rest.len()));
        show_spelled(page, "", plain, value)?;
        rest = behind;
    }
    Ok(())
}

/// Adds the payloads of frames.
fn show_payloads(page: &mut Page, plain: Plain, bytes: &[u8]) -> Result<(), AllocError>
    ensures { OnOk result
        (page.new ≡ with_members (payloads_shown plain (items bytes.now)) page.old) }
{
    for item in NlasIterator::new(bytes) {
        let Ok(frame) = item else {
            break;
        };
        show_spelled(page, "", plain, frame.value())?;
    }
    Ok(())
}

/// Adds a record.
fn show_record(
    page: &mut Page,
    name: &str,
    parts: &[Member],
    bytes: &[u8],
) -> Result<(), AllocError>
    ensures { OnOk result (page.new
        ≡ with_value name.now (object_of (record_shown parts.now bytes.now)) page.old) }
{
    page.begin(name, Nest::Object)?;
    show_parts(page, parts, bytes)?;
    page.end()
}

/// Adds values of one size as a list.
fn show_array(page: &mut Page, name: &str, plain: Plain, bytes: &[u8]) -> Result<(), AllocError>
    ensures { OnOk result (page.new ≡ with_value name.now (listed (elements_shown plain
        (count_of (plain_size plain) (length bytes.now)) bytes.now)) page.old) }
{
    page.begin(name, Nest::List)?;
    show_elements(page, plain, bytes)?;
    page.end()
}

/// Adds the payloads of frames as a list.
fn show_list(page: &mut Page, name: &str, plain: Plain, bytes: &[u8]) -> Result<(), AllocError>
    ensures { OnOk result (page.new
        ≡ with_value name.now (listed (payloads_shown plain (items bytes.now))) page.old) }
{
    page.begin(name, Nest::List)?;
    show_payloads(page, plain, bytes)?;
    page.end()
}

/// Adds a payload by its style: most are numbers.
#[tactic(auto, using(nla_wire::proofs::FieldLemmas::number_at_front))]
pub fn show_style<D: Depth>(
    cx: &Around<'_>,
    page: &mut Page,
    name: &str,
    style: &Style,
    payload: &[u8],
) -> Result<(), AllocError>
    ensures { OnOk result (page.new
        ≡ with_value name.now (style_shown (D.nest cx.now) style.now payload.now) page.old) }
{
    match *style {
        Style::Plain(Plain::Unsigned(size)) if payload.len() == size.bytes() => {
            page.number(name, number_at(size, payload, 0))
        }
        _ => show_meaning::<D>(cx, page, name, *style, payload),
    }
}

/// Adds a payload by what it means.
fn show_meaning<D: Depth>(
    cx: &Around<'_>,
    page: &mut Page,
    name: &str,
    style: Style,
    payload: &[u8],
) -> Result<(), AllocError>
    ensures { OnOk result
        (page.new ≡ with_value name.now (style_shown (D.nest cx.now) style payload.now) page.old) }
{
    match read(style, payload) {
        Value::Record(parts, bytes) => show_record(page, name, parts, bytes),
        Value::Array(plain, bytes) => show_array(page, name, plain, bytes),
        Value::List(plain, bytes) => show_list(page, name, plain, bytes),
        Value::Nest(place, bytes) => D::show_list(cx, page, name, &List::Of(place), bytes),
        value => show_plain(page, name, style.plain(), value),
    }
}
