//! The text of a set of flags.

ghost use Rattle.std.specs.Prelude.{◌≡◌, ◌++◌, IfOk};
ghost use Rattle.std.specs.Fmt.{WritesOnOk, HasWritten, IsPlainFormatter};
ghost use Rattle.link_vals.specs.FlagText.{flags_text, names_set, joined, bar_unless, is_none, hexadecimal};
ghost use Rattle.link_vals.specs.LinkFlagsTable.{link_flags_bits};

use crate::link_flags::LinkFlags;
use bitflags::Flag;
use std::fmt;

fn write_piece<W: fmt::Write>(f: &mut fmt::Formatter<W>, is_first: bool, piece: &str) -> fmt::Result
    ensures { WritesOnOk W.Write.write_str_gives f.old result
        (bar_unless is_first ++ piece.now) f.new }
{
    if !is_first {
        f.write_str(" | ")?;
    }
    f.write_str(piece)
}

fn write_number<W: fmt::Write>(
    f: &mut fmt::Formatter<W>,
    is_first: bool,
    number: u32,
) -> fmt::Result
    ensures { WritesOnOk W.Write.write_str_gives f.old result
        (bar_unless is_first ++ hexadecimal number) f.new }
{
    if !is_first {
        f.write_str(" | ")?;
    }
    write!(f, "0x{number:x}")
}

/// Writes the names of the flags that are set, and returns whether there were none.
fn write_names<W: fmt::Write>(
    f: &mut fmt::Formatter<W>,
    flags: &[Flag<LinkFlags>],
    value: LinkFlags,
) -> Result<bool, fmt::Error>
    ensures text { IsPlainFormatter f.old → IfOk result
        (λ none. HasWritten W.Write.write_str_gives f.old (joined (names_set (λ flag. flag.name.now)
        (λ flag. link_flags_bits flag.value) (link_flags_bits value) flags.now)) f.new) }
    ensures none { IfOk result (λ none. none
        ≡ is_none (names_set (λ flag. flag.name.now) (λ flag. link_flags_bits flag.value)
        (link_flags_bits value) flags.now)) }
{
    let mut is_first = true;
    for flag in flags {
        if !value.contains(*flag.value()) {
            continue;
        }
        write_piece(f, is_first, flag.name())?;
        is_first = false;
    }
    Ok(is_first)
}

/// Writes the names of the flags that are set, and then the bits that are `unnamed` as one number.
#[tactic(auto, unfolding(crate::specs::FlagText::flags_text))]
pub(crate) fn write_flags<W: fmt::Write>(
    f: &mut fmt::Formatter<W>,
    flags: &[Flag<LinkFlags>],
    value: LinkFlags,
    unnamed: u32,
) -> fmt::Result
    ensures { WritesOnOk W.Write.write_str_gives f.old result
        (flags_text (λ flag. flag.name.now) (λ flag. link_flags_bits flag.value) flags.now unnamed
        (link_flags_bits value)) f.new }
{
    let is_first = write_names(f, flags, value)?;
    let rest = value.bits() & unnamed;
    if rest == 0 {
        return Ok(());
    }
    write_number(f, is_first, rest)
}
