//! Fields written as attributes: what was read by a table goes back to bytes.

ghost use Rattle.std.specs.Prelude.{◌≡◌, ◌++◌, ◌⊎◌, false, IfOk, IfErr};
ghost use Rattle.nla_wire.specs.Items.{items};
ghost use Rattle.nla_wire.specs.Canon.{canon, canons, IsSmall};
ghost use Rattle.link_info.specs.Styles.{are_frames};
ghost use Rattle.link_info.specs.Built.{AreWhole};
ghost use Rattle.link_info.specs.Tables.{frame_of, frames_in, rewritten, AllRewritten};
ghost use Rattle.link_info.specs.declared.info.InfoError.TheVariants as why;

use crate::field::{Field, style};
use crate::info::InfoError;
use crate::style::Row;
use crate::write::push_payload;
use nla_wire::{DefaultNla, Nla, NlaBuffer, NlasIterator};
use std::alloc::{AllocError, Global};

/// The attribute that a field is written as.
fn nla_of(alloc: Global, field: &Field<'_>) -> Result<DefaultNla, AllocError>
    ensures { IfOk result (λ nla. nla ≡ frame_of field.now) }
{
    let mut payload = Vec::new(alloc);
    push_payload(&mut payload, style(field.row()), field.value())?;
    Ok(DefaultNla::new(field.kind(), payload))
}

/// Adds an attribute in canonical encoding.
fn push_nla(out: &mut Vec<u8>, nla: &DefaultNla) -> Result<(), AllocError>
    requires { IsSmall nla.now }
    ensures added { IfOk result (λ _. out.new.items ≡ out.old.items ++ canon nla.now) }
    ensures kept { IfErr result (λ _. out.new.items ≡ out.old.items) }
{
    let start = out.len();
    out.resize(start + nla.buffer_len(), 0)?;
    let _len = nla.write(&mut out[start..]);
    Ok(())
}

/// Adds a field as one attribute in canonical encoding: the length and the kind as it was, the payload that the style
/// of its row gives its value, and zeros up to a multiple of four. A text has one NUL at its end.
///
/// Refuses a payload of more than 65531 bytes with `TooLong`; or there is no memory. After a refusal the output is as
/// it was.
pub fn push_field(alloc: Global, out: &mut Vec<u8>, field: &Field<'_>) -> Result<(), InfoError>
    ensures added { IfOk result
        (λ _. out.new.items ≡ out.old.items ++ canon (frame_of field.now)) }
    ensures fit { IfOk result (λ _. IsSmall (frame_of field.now)) }
    ensures kept { IfErr result (λ _. out.new.items ≡ out.old.items) }
    ensures long { IfErr result (λ e. e ≡ why.TooLong → IsSmall (frame_of field.now) → ⊥) }
    ensures causes { IfErr result (λ e. (e ≡ why.TooLong) ⊎ (e ≡ why.OutOfMemory)) }
{
    let nla = nla_of(alloc, field)?;
    if !nla.fits() {
        return Err(InfoError::TooLong);
    }
    push_nla(out, &nla)?;
    Ok(())
}

/// The attributes of these bytes, read by the rows of their place and written one after the other, in canonical
/// encoding. Bytes in canonical encoding whose texts end in a NUL come back as they were (`law_rewritten`), and what is
/// returned is read as the same fields (`law_list_read_again`).
///
/// Refuses bytes that are no whole attributes with `Damaged`, and a payload that would have more than 65531 bytes, as a
/// text so long without a NUL, with `TooLong`; or there is no memory.
#[tactic(auto, using(crate::proofs::Kept::whole_frames))]
pub fn rewrite(alloc: Global, rows: &'static [Row], bytes: &[u8]) -> Result<Vec<u8>, InfoError>
    ensures whole { IfOk result (λ _. AreWhole bytes.now (frames_in (items bytes.now))) }
    ensures written { IfOk result
        (λ out. out.items ≡ canons (rewritten rows.now) (frames_in (items bytes.now))) }
    ensures fit { IfOk result (λ _. AllRewritten rows.now (frames_in (items bytes.now))) }
    ensures damaged { IfErr result (λ e. e ≡ why.Damaged → are_frames (items bytes.now) ≡ false) }
    ensures long { IfErr result (λ e. e ≡ why.TooLong
        → AllRewritten rows.now (frames_in (items bytes.now)) → ⊥) }
    ensures causes { IfErr result
        (λ e. (e ≡ why.Damaged) ⊎ ((e ≡ why.TooLong) ⊎ (e ≡ why.OutOfMemory))) }
{
    let mut out = Vec::new(alloc);
    for item in NlasIterator::new(bytes) {
        let Ok(frame) = item else {
            return Err(InfoError::Damaged);
        };
        push_field(alloc, &mut out, &Field::new(rows, &frame))?;
    }
    Ok(out)
}
