//! The functions that a program in C calls. A slice is a pointer and then its length, and `Global` takes no bytes.

ghost use Rattle.std.specs.Prelude.{◌≡◌};
ghost use Rattle.link_c.specs.Answers.{Says, itself, as_bit, as_one, as_zero};
ghost use Rattle.link_c.specs.Messages.{MeansOrFaults, IsLookAt, IsLength, IsText, IsComparison, IsState};
ghost use Rattle.link_c.specs.Messages.{IsStateComparison};
ghost use Rattle.link_c.specs.Diffs.{IsDiff};
ghost use Rattle.link_c.specs.Leniently.{IsLenientLength, IsLenientText, IsLenientState};
ghost use Rattle.link_c.specs.Lists.{IsNext, IsPut};
ghost use Rattle.link_c.specs.Paths.{IsLookAlong};
ghost use Rattle.link_c.specs.Picks.{IsPicked};
ghost use Rattle.link_c.specs.Refused.{IsNextRefused};
ghost use Rattle.link_c.specs.Shown.{IsShown, numbered_order, release_number};

use crate::diff::write_diff;
use crate::lenient::{lenient_len, write_lenient, write_lenient_state};
use crate::list::{Attribute, next_attribute, put_attribute};
use crate::message::{
    are_alike, check_message, encoding_len, have_same_state, look_for_fault, write_encoding,
    write_state,
};
use crate::path::{Path, look_along};
use crate::pick::pick_attributes;
use crate::refusal::{done_code, fault_code, length_code, whether_code};
use crate::refused::{Refused, next_refused};
use crate::show::{numbered_order, release_number, write_shown};
use link_msg::{CANONICAL_FORM, LENIENT_FORM};
use link_state::STATE_FORM;
use std::alloc::Global;

/// `linkwire_check` of linkwire.h.
#[unsafe(no_mangle)]
pub extern "C" fn linkwire_check(message: &[u8]) -> i32
    ensures { Says as_zero (MeansOrFaults message.now) result }
{
    fault_code(check_message(message))
}

/// `linkwire_canonical_len` of linkwire.h.
#[unsafe(no_mangle)]
pub extern "C" fn linkwire_canonical_len(message: &[u8]) -> isize
    ensures { Says itself (IsLength message.now) result }
{
    length_code(encoding_len(message))
}

/// `linkwire_canonical` of linkwire.h.
#[unsafe(no_mangle)]
pub extern "C" fn linkwire_canonical(message: &[u8], out: &mut [u8]) -> isize
    ensures { Says itself (IsText message.now out.old out.new) result }
{
    length_code(write_encoding(message, out))
}

/// `linkwire_same_message` of linkwire.h.
#[unsafe(no_mangle)]
pub extern "C" fn linkwire_same_message(alloc: Global, a: &[u8], b: &[u8]) -> i32
    ensures { Says as_bit (IsComparison a.now b.now) result }
{
    whether_code(are_alike(alloc, a, b))
}

/// `linkwire_next` of linkwire.h.
#[unsafe(no_mangle)]
pub extern "C" fn linkwire_next(list: &[u8], at: &mut usize, attribute: &mut Attribute) -> i32
    ensures { Says as_bit (IsNext list.now at.old at.new attribute.old attribute.new) result }
{
    whether_code(next_attribute(list, at, attribute))
}

/// `linkwire_pick` of linkwire.h.
#[unsafe(no_mangle)]
pub extern "C" fn linkwire_pick(list: &[u8], found: &mut [Attribute]) -> i32
    ensures { Says as_zero (IsPicked list.now found.old found.new) result }
{
    fault_code(pick_attributes(list, found))
}

/// `linkwire_put` of linkwire.h.
#[unsafe(no_mangle)]
pub extern "C" fn linkwire_put(list: &mut [u8], at: &mut usize, kind: u16, payload: &[u8]) -> i32
    ensures { Says as_one (IsPut kind payload.now list.old list.new at.old at.new) result }
{
    done_code(put_attribute(list, at, kind, payload))
}

/// `linkwire_fault_at` of linkwire.h.
#[unsafe(no_mangle)]
pub extern "C" fn linkwire_fault_at(message: &[u8], at: &mut usize) -> i32
    ensures { Says as_zero (IsLookAt message.now at.old at.new) result }
{
    fault_code(look_for_fault(message, at))
}

/// `linkwire_fault_path` of linkwire.h.
#[unsafe(no_mangle)]
pub extern "C" fn linkwire_fault_path(message: &[u8], path: &mut Path) -> i32
    ensures { Says as_zero (IsLookAlong message.now path.old path.new) result }
{
    fault_code(look_along(message, path))
}

/// `linkwire_canonical_form` of linkwire.h.
#[unsafe(no_mangle)]
pub extern "C" fn linkwire_canonical_form() -> u32
    ensures { result ≡ 2 }
{
    CANONICAL_FORM
}

/// `linkwire_state` of linkwire.h.
#[unsafe(no_mangle)]
pub extern "C" fn linkwire_state(message: &[u8], out: &mut [u8]) -> isize
    ensures { Says itself (IsState message.now out.old out.new) result }
{
    length_code(write_state(message, out))
}

/// `linkwire_same_state` of linkwire.h.
#[unsafe(no_mangle)]
pub extern "C" fn linkwire_same_state(alloc: Global, a: &[u8], b: &[u8]) -> i32
    ensures { Says as_bit (IsStateComparison a.now b.now) result }
{
    whether_code(have_same_state(alloc, a, b))
}

/// `linkwire_state_form` of linkwire.h.
#[unsafe(no_mangle)]
pub extern "C" fn linkwire_state_form() -> u32
    ensures { result ≡ 2 }
{
    STATE_FORM
}

/// `linkwire_order` of linkwire.h.
#[unsafe(no_mangle)]
pub extern "C" fn linkwire_order(release: &[u8]) -> u32
    ensures { result ≡ release_number release.now }
{
    release_number(release)
}

/// `linkwire_show` of linkwire.h.
#[unsafe(no_mangle)]
pub extern "C" fn linkwire_show(
    alloc: Global,
    message: &[u8],
    order: u32,
    flags: u32,
    out: &mut [u8],
) -> isize
    ensures { Says itself
        (IsShown (numbered_order order) flags message.now out.old out.new) result }
{
    length_code(write_shown(alloc, numbered_order(order), flags, message, out))
}

/// `linkwire_diff` of linkwire.h.
#[unsafe(no_mangle)]
pub extern "C" fn linkwire_diff(
    alloc: Global,
    old: &[u8],
    new: &[u8],
    order: u32,
    flags: u32,
    out: &mut [u8],
) -> isize
    ensures { Says itself (IsDiff (numbered_order order) flags old.now new.now out.old out.new) result }
{
    length_code(write_diff(alloc, numbered_order(order), flags, old, new, out))
}

/// `linkwire_canonical_lenient_len` of linkwire.h.
#[unsafe(no_mangle)]
pub extern "C" fn linkwire_canonical_lenient_len(message: &[u8]) -> isize
    ensures { Says itself (IsLenientLength message.now) result }
{
    length_code(lenient_len(message))
}

/// `linkwire_canonical_lenient` of linkwire.h.
#[unsafe(no_mangle)]
pub extern "C" fn linkwire_canonical_lenient(message: &[u8], out: &mut [u8]) -> isize
    ensures { Says itself (IsLenientText message.now out.old out.new) result }
{
    length_code(write_lenient(message, out))
}

/// `linkwire_state_lenient` of linkwire.h.
#[unsafe(no_mangle)]
pub extern "C" fn linkwire_state_lenient(message: &[u8], out: &mut [u8]) -> isize
    ensures { Says itself (IsLenientState message.now out.old out.new) result }
{
    length_code(write_lenient_state(message, out))
}

/// `linkwire_refusal_next` of linkwire.h.
#[unsafe(no_mangle)]
pub extern "C" fn linkwire_refusal_next(
    message: &[u8],
    at: &mut usize,
    refusal: &mut Refused,
) -> i32
    ensures { Says as_bit
        (IsNextRefused message.now at.old at.new refusal.old refusal.new) result }
{
    whether_code(next_refused(message, at, refusal))
}

/// `linkwire_lenient_form` of linkwire.h.
#[unsafe(no_mangle)]
pub extern "C" fn linkwire_lenient_form() -> u32
    ensures { result ≡ 1 }
{
    LENIENT_FORM
}
