//! Where two lists of VLANs say otherwise.

ghost use Rattle.std.specs.Prelude.{◌≡◌, ◌<◌, ◌≤◌, ◌^◌, ℕ, IfOk, None, OnOk, true};
ghost use Rattle.link_vlans.specs.Pieces.{goes_on, is_clear_below, is_said_too, pieces_of, said_of, with_piece};
ghost use Rattle.link_vlans.specs.Pieces.{with_run};
ghost use Rattle.link_vlans.specs.Runs.{are_apart};

use crate::run::{Run, Said};
use std::alloc::{AllocError, Global};

/// VLANs of which one list says this, and another one, if it has them, something else.
#[derive(Clone, Copy, Drop)]
pub struct Piece {
    /// The VLANs, and what the one list says of them.
    pub own: Run,
    /// What the other one says.
    pub beside: Option<Said>,
}

/// Whether another list says this too.
fn is_said_too(said: Said, beside: Option<Said>) -> bool
    ensures { result ≡ is_said_too said beside }
{
    Some(said) == beside
}

/// Whether VLANs go on with a piece: they are next to it, and both lists say the same of them.
fn goes_on(before: Piece, own: Run, beside: Option<Said>) -> bool
    ensures { result ≡ goes_on before own beside }
{
    u32::from(before.own.last) + 1 == u32::from(own.first)
        && before.own.said == own.said
        && before.beside == beside
}

/// Adds VLANs behind pieces: to the last one, if they go on with it. None, where the other list says the same.
fn add_piece(pieces: &mut Vec<Piece>, own: Run, beside: Option<Said>) -> Result<(), AllocError>
    ensures { OnOk result (pieces.new.items ≡ with_piece pieces.old.items own beside) }
{
    if is_said_too(own.said, beside) {
        return Ok(());
    }
    if let Some(before) = pieces.last_mut() {
        if goes_on(*before, own, beside) {
            before.own.last = own.last;
            return Ok(());
        }
    }
    pieces.push(Piece { own, beside })?;
    Ok(())
}

/// The runs of a list without those that end below a VLAN.
fn skip<'a>(runs: &'a [Run], vid: u32) -> &'a [Run]
    requires { are_apart None runs.now ≡ true }
    ensures apart { are_apart None result.now ≡ true }
    ensures same { (n : ℕ) → vid ≤ n → said_of result.now n ≡ said_of runs.now n }
    ensures first { is_clear_below vid result.now ≡ true }
{
    let mut place = 0;
    while place < runs.len() {
        if vid <= runs[place].last.into() {
            break;
        }
        place += 1;
    }
    &runs[place..]
}

/// What a list says of a VLAN, and the last VLAN up to which it says the same.
fn reach(runs: &[Run], vid: u32) -> (Option<Said>, u32)
    requires apart { are_apart None runs.now ≡ true }
    requires first { is_clear_below vid runs.now ≡ true }
    ensures same { (n : ℕ) → vid ≤ n → n ≤ result.1 → said_of runs.now n ≡ result.0 }
    ensures some { vid < 2 ^ 16 → vid ≤ result.1 }
{
    match runs.first() {
        Some(run) => {
            if vid < run.first.into() {
                (None, u32::from(run.first) - 1)
            } else {
                (Some(run.said), run.last.into())
            }
        }
        None => (None, u32::MAX),
    }
}

/// Cuts a run by those of another list, and returns those of them that reach beyond it.
fn cut<'a>(pieces: &mut Vec<Piece>, own: Run, others: &'a [Run]) -> Result<&'a [Run], AllocError>
    requires { are_apart None others.now ≡ true }
    ensures cut { OnOk result (pieces.new.items ≡ with_run pieces.old.items own others.now) }
    ensures apart { IfOk result (λ left. are_apart None left.now ≡ true) }
    ensures same { IfOk result (λ left. (n : ℕ) → own.last < n → said_of left.now n ≡ said_of others.now n) }
{
    let mut left = others;
    let mut first = u32::from(own.first);
    let last = u32::from(own.last);
    while first <= last {
        left = skip(left, first);
        let (beside, end) = reach(left, first);
        let end = end.min(last);
        let part = Run {
            first: first as u16,
            last: end as u16,
            said: own.said,
        };
        add_piece(pieces, part, beside)?;
        first = end + 1;
    }
    Ok(left)
}

/// The VLANs of a list of which another one does not say the same: those beside each other that are alike in both lists
/// are one piece.
pub fn pieces_of(alloc: Global, own: &[Run], others: &[Run]) -> Result<Vec<Piece>, AllocError>
    requires own { are_apart None own.now ≡ true }
    requires others { are_apart None others.now ≡ true }
    ensures { IfOk result (λ pieces. pieces.items ≡ pieces_of own.now others.now) }
{
    let mut pieces = Vec::new(alloc);
    let mut left = others;
    for run in own {
        left = cut(&mut pieces, *run, left)?;
    }
    Ok(pieces)
}
