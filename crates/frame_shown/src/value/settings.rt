//! Settings: numbers of four bytes that may be below zero.

ghost use Rattle.std.specs.Prelude.{◌≡◌, ◌≤◌, ◌++◌, OnOk, length, map};
ghost use Rattle.shown.specs.Drafts.{with_members, with_value, object_of};
ghost use Rattle.shown.specs.Keys.{AreKeys, IsKey};
ghost use Rattle.frame_shown.specs.Values.{behind_settings, setting_names, settings_shown, signed_unless_zero};

use crate::form::Settings;
use crate::tables::{CACHE_INFO, INET_CONF, INET6_CONF};
use nla_wire::fields::i32_at;
use shown::{Nest, Page};
use std::alloc::AllocError;

/// Adds settings.
fn show_signed(page: &mut Page, names: &[&str], bytes: &[u8]) -> Result<(), AllocError>
    requires keys { AreKeys (map (λ name. name.now) names.now) }
    requires few { length names.now ≤ 256 }
    ensures { OnOk result (page.new ≡ with_members
        (settings_shown (map (λ name. name.now) names.now) bytes.now 0) page.old) }
{
    let mut place = 0;
    for name in names {
        page.keyed_signed(name, i32_at(bytes, place).into())?;
        place += 4;
    }
    Ok(())
}

/// Adds settings by their table.
fn show_named_settings(page: &mut Page, set: Settings, bytes: &[u8]) -> Result<(), AllocError>
    ensures { OnOk result (page.new ≡ with_members
        (settings_shown (setting_names set) bytes.now 0) page.old) }
{
    match set {
        Settings::Inet => show_signed(page, &INET_CONF, bytes),
        Settings::Inet6 => show_signed(page, &INET6_CONF, bytes),
        Settings::Cache => show_signed(page, &CACHE_INFO, bytes),
    }
}

/// Adds what stands behind them.
fn show_behind(page: &mut Page, set: Settings, bytes: &[u8]) -> Result<(), AllocError>
    ensures { OnOk result
        (page.new ≡ with_members (behind_settings set bytes.now) page.old) }
{
    match set {
        Settings::Inet => show_reserved(page, "reserved-34", i32_at(bytes, 132)),
        _ => Ok(()),
    }
}

/// Adds a setting where it is not zero.
fn show_reserved(page: &mut Page, name: &str, value: i32) -> Result<(), AllocError>
    ensures { OnOk result (page.new ≡ with_members (signed_unless_zero name.now value) page.old) }
{
    if value == 0 {
        return Ok(());
    }
    page.signed(name, value.into())
}

/// Adds settings as an object.
pub(super) fn show_settings(
    page: &mut Page,
    name: &str,
    set: Settings,
    bytes: &[u8],
) -> Result<(), AllocError>
    requires key { IsKey name.now }
    ensures { OnOk result (page.new ≡ with_value name.now (object_of
        (settings_shown (setting_names set) bytes.now 0 ++ behind_settings set bytes.now)) page.old) }
{
    page.keyed_begin(name, Nest::Object)?;
    show_named_settings(page, set, bytes)?;
    show_behind(page, set, bytes)?;
    page.end()
}
