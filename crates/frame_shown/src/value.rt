//! Values of payloads.

ghost use Rattle.std.specs.Prelude.{◌≡◌, ◌<◌, ◌^◌, [], ◌∷◌, OnOk, option_map, take};
ghost use Rattle.nla_wire.specs.Fields.{number_at};
ghost use Rattle.nla_wire.specs.Items.{items};
ghost use Rattle.link_info.specs.Meanings.{read_as};
ghost use Rattle.link_info.specs.declared.style.Style.TheVariants as S;
ghost use Rattle.link_info.specs.Styles.{width};
ghost use Rattle.link_info.specs.Tables.{frames_in};
ghost use Rattle.shown.specs.Drafts.{with_value};
ghost use Rattle.shown.specs.Keys.{IsKey};
ghost use Rattle.shown.specs.Values.{flags_of};
ghost use Rattle.frame_shown.specs.declared.form.Choice.TheVariants as Choices;
ghost use Rattle.frame_shown.specs.Values.{hexadecimal, bits_in, choice_number, choice_token, first_text, form_shown};
ghost use Rattle.frame_shown.specs.Values.{info_of, text_in, truth_of, text_shown};

mod counters;
mod event;
mod fields;
mod settings;
mod style;

use crate::depth::Depth;
use crate::form::{Around, Bits, Choice, Form, List};
use crate::tables::{
    ADDR_GEN_MODES, EVENTS, EXT_MASK, INET6_FLAGS, LINK_MODES, MCTP_BINDINGS, OPERSTATES,
    XDP_ATTACHED,
};
pub use crate::value::counters::counter_place;
use crate::value::counters::{show_counters, show_ipv6_counters};
pub use crate::value::event::event_in;
use crate::value::event::show_wireless;
use crate::value::fields::show_parts_of;
pub use crate::value::fields::{parts_of, show_field};
use crate::value::settings::show_settings;
pub use crate::value::style::{show_spelled, show_style};
use link_info::{Place, Plain, Size};
use nla_wire::fields::{i32_at, u8_at, u16_at, u32_at, u64_at};
use nla_wire::{NlasIterator, borrow_string};
use shown::Page;
use std::alloc::AllocError;

/// The number of this size at a place, with zeros past the end.
#[inline(always)]
pub fn number_at(size: Size, bytes: &[u8], place: usize) -> u64
    requires { place < 2 ^ 32 }
    ensures { result ≡ number_at (width size) bytes.now place }
{
    match size {
        Size::One => u8_at(bytes, place).into(),
        Size::Two => u16_at(bytes, place).into(),
        Size::Four => u32_at(bytes, place).into(),
        Size::Eight => u64_at(bytes, place),
    }
}

/// 0, or 1 for any other number.
#[inline(always)]
fn truth_of(number: u64) -> u64
    ensures { result ≡ truth_of number }
{
    if number == 0 { 0 } else { 1 }
}

/// The number of a choice.
fn choice_number(choice: Choice, bytes: &[u8]) -> u64
    ensures { result ≡ choice_number choice bytes.now }
{
    match choice {
        Choice::Event => u32_at(bytes, 0).into(),
        _ => u8_at(bytes, 0).into(),
    }
}

/// Adds a physical binding of MCTP. One of them is far from the others.
fn show_binding(page: &mut Page, name: &str, number: u64) -> Result<(), AllocError>
    ensures { OnOk result
        (page.new ≡ with_value name.now (choice_token Choices.Binding number ∷ []) page.old) }
{
    match number {
        255 => page.string(name, "vendor"),
        _ => page.choice(name, number, &MCTP_BINDINGS),
    }
}

/// Adds the name of a number.
fn show_choice(page: &mut Page, name: &str, choice: Choice, number: u64) -> Result<(), AllocError>
    ensures { OnOk result
        (page.new ≡ with_value name.now (choice_token choice number ∷ []) page.old) }
{
    match choice {
        Choice::OperState => page.choice(name, number, &OPERSTATES),
        Choice::LinkMode => page.choice(name, number, &LINK_MODES),
        Choice::GenMode => page.choice(name, number, &ADDR_GEN_MODES),
        Choice::Attached => page.choice(name, number, &XDP_ATTACHED),
        Choice::Event => page.choice(name, number, &EVENTS),
        Choice::Binding => show_binding(page, name, number),
    }
}

/// Adds the names of bits.
fn show_bits(page: &mut Page, name: &str, bits: Bits, number: u32) -> Result<(), AllocError>
    ensures { OnOk result
        (page.new ≡ with_value name.now (flags_of (bits_in bits) number) page.old) }
{
    match bits {
        Bits::ExtMask => page.flags(name, number.into(), &EXT_MASK),
        Bits::Inet6 => page.flags(name, number.into(), &INET6_FLAGS),
    }
}

/// Adds a text, or the digits of bytes that are none.
#[inline(always)]
pub(crate) fn show_text(page: &mut Page, name: &str, payload: &[u8]) -> Result<(), AllocError>
    requires key { IsKey name.now }
    ensures { OnOk result
        (page.new ≡ with_value name.now (text_shown (read_as S.Text payload.now)) page.old) }
{
    match borrow_string(payload) {
        Ok(text) => page.keyed_string(name, text),
        Err(_) => page.hex(name, payload),
    }
}

/// The text that a payload is.
#[inline(always)]
pub fn text_of(payload: &[u8]) -> Option<&str>
    ensures { option_map (λ text. text.now) result ≡ text_in payload.now }
{
    match borrow_string(payload) {
        Ok(text) => Some(text),
        Err(_) => None,
    }
}

/// The text of the first attribute of this number.
fn first_text(bytes: &[u8], number: u16) -> Option<&str>
    ensures { option_map (λ text. text.now) result
        ≡ first_text number (frames_in (items bytes.now)) }
{
    for item in NlasIterator::new(bytes) {
        let Ok(frame) = item else {
            break;
        };
        if frame.kind() == number {
            return text_of(frame.value());
        }
    }
    None
}

/// How a link's kinds are shown.
pub fn info_of(bytes: &[u8]) -> List
    ensures { result ≡ info_of bytes.now }
{
    List::Info(
        first_text(bytes, 1).and_then(Place::of_kind),
        first_text(bytes, 4).and_then(Place::of_slave_kind),
    )
}

/// Adds the first 32 bytes.
fn show_id(page: &mut Page, name: &str, bytes: &[u8]) -> Result<(), AllocError>
    ensures { OnOk result
        (page.new ≡ with_value name.now (hexadecimal (take 32 bytes.now)) page.old) }
{
    let len = 32usize.min(bytes.len());
    page.hex(name, &bytes[..len])
}

/// Adds a payload by the form of its row.
pub fn show_form<D: Depth>(
    cx: &Around<'_>,
    page: &mut Page,
    name: &str,
    form: &Form,
    payload: &[u8],
) -> Result<(), AllocError>
    requires key { IsKey name.now }
    ensures { OnOk result (page.new
        ≡ with_value name.now (form_shown (D.nest cx.now) cx.now form.now payload.now) page.old) }
{
    match *form {
        Form::Number(size) => page.keyed_number(name, number_at(size, payload, 0)),
        Form::Text => show_text(page, name, payload),
        Form::Signed => page.keyed_signed(name, i32_at(payload, 0).into()),
        Form::Address => page.address(name, payload),
        Form::Choice(choice) => show_choice(page, name, choice, choice_number(choice, payload)),
        Form::Exact(size) => page.keyed_number(name, number_at(size, payload, 0)),
        Form::Truth => page.keyed_number(name, truth_of(u8_at(payload, 0).into())),
        Form::Id => show_id(page, name, payload),
        Form::Flags(bits) => show_bits(page, name, bits, u32_at(payload, 0)),
        Form::Counters(words) => show_counters(page, name, words, payload),
        Form::Ipv6Counters => show_ipv6_counters(page, name, cx.order, payload),
        Form::Settings(set) => show_settings(page, name, set, payload),
        Form::Ipv6 => show_spelled(page, name, Plain::Ipv6, payload),
        Form::Record(record) => show_parts_of(cx, page, name, record, payload),
        Form::Field(field) => show_field(cx, page, name, field, payload, 0),
        Form::Wireless => show_wireless(page, name, payload),
        Form::List(ref list) => D::show_list(cx, page, name, list, payload),
        Form::Info => D::show_list(cx, page, name, &info_of(payload), payload),
        Form::Kept | Form::Unflagged => page.hex(name, payload),
    }
}
