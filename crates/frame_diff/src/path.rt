//! The texts of paths.

ghost use Rattle.std.specs.Prelude.{◌≡◌, ◌++◌, IfOk, OnOk, codes, decimal, string_bytes};
ghost use Rattle.frame_diff.specs.Items.{joined};
ghost use Rattle.frame_diff.specs.Labels.{again_text, label_text, number_text};
ghost use Rattle.frame_diff.specs.Vlans.{end_text, range_text};

use crate::labels::Label;
use itoa::Buffer;
use link_vlans::Run;
use std::alloc::{AllocError, Global};

/// The text of a path that goes one step on: the step stands behind a point, where it is not the first one.
pub(crate) fn join(alloc: Global, text: &str, step: &str) -> Result<String, AllocError>
    ensures { IfOk result (λ path. string_bytes path ≡ joined text.now step.now) }
{
    let mut path = String::with_capacity(alloc, text.len() + step.len() + 1)?;
    if !text.is_empty() {
        path.push_str(text)?;
        path.push('.')?;
    }
    path.push_str(step)?;
    Ok(path)
}

/// The text of a path that goes on at a value that is its own key.
pub(crate) fn join_each(alloc: Global, text: &str) -> Result<String, AllocError>
    ensures { IfOk result (λ path. string_bytes path ≡ text.now ++ codes "[]") }
{
    let mut path = String::with_capacity(alloc, text.len() + 2)?;
    path.push_str(text)?;
    path.push_str("[]")?;
    Ok(path)
}

/// The text of a path that goes on at a place of a list.
pub(crate) fn join_place(alloc: Global, text: &str, place: usize) -> Result<String, AllocError>
    ensures { IfOk result (λ path. string_bytes path ≡ joined text.now (decimal place)) }
{
    let mut digits = Buffer::new();
    join(alloc, text, digits.format(place))
}

/// Adds the number of a label, if it has one.
fn push_number(path: &mut String, number: Option<u64>) -> Result<(), AllocError>
    ensures { OnOk result (string_bytes path.new ≡ string_bytes path.old ++ number_text number) }
{
    let Some(number) = number else {
        return Ok(());
    };
    let mut digits = Buffer::new();
    path.push('=')?;
    path.push_str(digits.format(number))?;
    Ok(())
}

/// Adds how many with the number of a label stand before it, unless it has one and none does.
fn push_again(path: &mut String, label: Label) -> Result<(), AllocError>
    ensures { OnOk result (string_bytes path.new
        ≡ string_bytes path.old ++ again_text label.number label.again) }
{
    if label.number.is_some() && label.again == 0 {
        return Ok(());
    }
    let mut digits = Buffer::new();
    path.push('#')?;
    path.push_str(digits.format(label.again))?;
    Ok(())
}

/// The text of a path that goes on at a value of a list, by its label.
pub(crate) fn join_label(
    alloc: Global,
    text: &str,
    name: &str,
    label: Label,
) -> Result<String, AllocError>
    ensures { IfOk result (λ path. string_bytes path ≡ text.now ++ label_text name.now label) }
{
    let mut path = String::with_capacity(alloc, text.len() + 32)?;
    path.push_str(text)?;
    path.push('[')?;
    path.push_str(name)?;
    push_number(&mut path, label.number)?;
    push_again(&mut path, label)?;
    path.push(']')?;
    Ok(path)
}

/// Adds the last VLAN of a run, where that is another one than the first.
fn push_end(path: &mut String, run: Run) -> Result<(), AllocError>
    ensures { OnOk result (string_bytes path.new ≡ string_bytes path.old ++ end_text run) }
{
    if run.first == run.last {
        return Ok(());
    }
    let mut digits = Buffer::new();
    path.push('-')?;
    path.push_str(digits.format(run.last))?;
    Ok(())
}

/// The text of a path that goes on at the VLANs of a run.
pub(crate) fn join_vlans(alloc: Global, text: &str, run: Run) -> Result<String, AllocError>
    ensures { IfOk result (λ path. string_bytes path ≡ text.now ++ range_text run) }
{
    let mut digits = Buffer::new();
    let mut path = String::with_capacity(alloc, text.len() + 32)?;
    path.push_str(text)?;
    path.push_str("[vid=")?;
    path.push_str(digits.format(run.first))?;
    push_end(&mut path, run)?;
    path.push(']')?;
    Ok(path)
}
