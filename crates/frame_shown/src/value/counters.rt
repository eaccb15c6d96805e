//! Counters: numbers of one size, with names or without.

ghost use Rattle.std.specs.Prelude.{◌≡◌, ◌<◌, ◌≤◌, OnOk, length, map};
ghost use Rattle.link_info.specs.Styles.{width};
ghost use Rattle.shown.specs.Drafts.{with_members, with_value, object_of};
ghost use Rattle.shown.specs.Keys.{AreKeys, IsKey};
ghost use Rattle.frame_shown.specs.Values.{listed, bare_shown, counter_names, counter_place, counter_width};
ghost use Rattle.frame_shown.specs.Values.{counters_shown, ipv6_counters_shown, ipv6_named, placed_shown};
ghost use Rattle.frame_shown.specs.Values.{unless_zero_named};

use crate::form::{Order, Words};
use crate::tables::{ICMP6_STATS, INET6_STATS, STATS};
use crate::value::number_at;
use link_info::Size;
use nla_wire::fields::u64_at;
use shown::{Nest, Page};
use std::alloc::AllocError;

/// Adds numbers of one size.
#[inline(always)]
fn show_numbers(page: &mut Page, names: &[&str], size: Size, bytes: &[u8]) -> Result<(), AllocError>
    requires keys { AreKeys (map (λ name. name.now) names.now) }
    requires few { length names.now ≤ 256 }
    ensures { OnOk result (page.new ≡ with_members
        (counters_shown (map (λ name. name.now) names.now) (width size) bytes.now 0) page.old) }
{
    let mut place = 0;
    for name in names {
        page.keyed_number(name, number_at(size, bytes, place))?;
        place += size.bytes();
    }
    Ok(())
}

/// Adds counters.
pub(super) fn show_counters(
    page: &mut Page,
    name: &str,
    words: Words,
    bytes: &[u8],
) -> Result<(), AllocError>
    requires key { IsKey name.now }
    ensures { OnOk result (page.new ≡ with_value name.now (object_of
        (counters_shown (counter_names words) (counter_width words) bytes.now 0)) page.old) }
{
    match words {
        Words::Stats => show_numbers_under(page, name, &STATS[..24], Size::Four, bytes),
        Words::Stats64 => show_numbers_under(page, name, &STATS, Size::Eight, bytes),
        Words::Icmp6 => show_numbers_under(page, name, &ICMP6_STATS, Size::Eight, bytes),
    }
}

/// Adds counters without names.
fn show_bare(page: &mut Page, bytes: &[u8]) -> Result<(), AllocError>
    ensures { OnOk result (page.new ≡ with_members (bare_shown 39 bytes.now 0) page.old) }
{
    for i in 0..39usize {
        page.number("", u64_at(bytes, 8 * i))?;
    }
    Ok(())
}

/// Adds the list of them.
fn show_bare_list(page: &mut Page, name: &str, bytes: &[u8]) -> Result<(), AllocError>
    ensures { OnOk result
        (page.new ≡ with_value name.now (listed (bare_shown 39 bytes.now 0)) page.old) }
{
    page.begin(name, Nest::List)?;
    show_bare(page, bytes)?;
    page.end()
}

/// The place of a counter in this order.
pub fn counter_place(is_since: bool, before: u8, since: u8) -> usize
    ensures place { result ≡ counter_place is_since before since }
    ensures small { result < 256 }
{
    if is_since {
        usize::from(since)
    } else {
        usize::from(before)
    }
}

/// Adds counters with names, by the place that each has in this order.
fn show_placed(
    page: &mut Page,
    rows: &[(&str, u8, u8)],
    is_since: bool,
    bytes: &[u8],
) -> Result<(), AllocError>
    requires keys { AreKeys (map (λ row. row.0.now) rows.now) }
    ensures { OnOk result (page.new ≡ with_members (placed_shown is_since
        (map (λ row. (row.0.now, (row.1, row.2))) rows.now) bytes.now) page.old) }
{
    for row in rows {
        let place = 8 * counter_place(is_since, row.1, row.2);
        page.keyed_number(row.0, u64_at(bytes, place))?;
    }
    Ok(())
}

/// Adds a number where it is not zero.
fn show_unless_zero(page: &mut Page, name: &str, value: u64) -> Result<(), AllocError>
    ensures { OnOk result
        (page.new ≡ with_members (unless_zero_named name.now value) page.old) }
{
    if value == 0 {
        return Ok(());
    }
    page.number(name, value)
}

/// Adds the counters of IPv6 with names, and behind them one that no kernel sends.
fn show_ipv6_named(
    page: &mut Page,
    name: &str,
    is_since: bool,
    bytes: &[u8],
) -> Result<(), AllocError>
    ensures { OnOk result
        (page.new ≡ with_value name.now (object_of (ipv6_named is_since bytes.now)) page.old) }
{
    page.begin(name, Nest::Object)?;
    show_placed(page, &INET6_STATS, is_since, bytes)?;
    show_unless_zero(page, "reserved-39", u64_at(bytes, 304))?;
    page.end()
}

/// Adds the counters of IPv6: with names where their order is known.
pub(super) fn show_ipv6_counters(
    page: &mut Page,
    name: &str,
    order: Order,
    bytes: &[u8],
) -> Result<(), AllocError>
    ensures { OnOk result
        (page.new ≡ with_value name.now (ipv6_counters_shown order bytes.now) page.old) }
{
    match order {
        Order::Unknown => show_bare_list(page, name, bytes),
        Order::Before => show_ipv6_named(page, name, false, bytes),
        Order::Since => show_ipv6_named(page, name, true, bytes),
    }
}

/// Adds numbers of one size as an object.
fn show_numbers_under(
    page: &mut Page,
    name: &str,
    names: &[&str],
    size: Size,
    bytes: &[u8],
) -> Result<(), AllocError>
    requires key { IsKey name.now }
    requires keys { AreKeys (map (λ name. name.now) names.now) }
    requires few { length names.now ≤ 256 }
    ensures { OnOk result (page.new ≡ with_value name.now (object_of
        (counters_shown (map (λ name. name.now) names.now) (width size) bytes.now 0)) page.old) }
{
    page.keyed_begin(name, Nest::Object)?;
    show_numbers(page, names, size, bytes)?;
    page.end()
}
