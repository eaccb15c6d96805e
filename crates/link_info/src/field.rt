//! The fields of a list of attributes: one of each frame, in order.

ghost use Rattle.std.specs.Prelude.{◌≡◌, ◌∷◌, ◌+◌, ◌*◌, ◌<◌, ◌≤◌, List, Result};
ghost use Rattle.std.specs.Prelude.{length, drop, map, option_map, MatchOption};
ghost use Rattle.std.specs.List.{find};
ghost use Rattle.std.specs.Iterator.{YieldsFirstBy, item_count};
ghost use Rattle.nla_wire.specs.Items.{Item, items};
ghost use Rattle.nla_wire.specs.Gives.{without_place};
ghost use Rattle.nla_wire.specs.Frames.{number};
ghost use Rattle.link_info.specs.Meanings.{meaning, plain_of, ValueFits};
ghost use Rattle.link_info.specs.Tables.{Known, FieldItem, field_of, fields_of, is_of, style_of};

use crate::read::read;
use crate::style::{Row, Style};
use crate::value::Value;
use nla_wire::{DecodeError, NlaBuffer, NlasIterator};
use std::marker::Model;

/// What a frame says: its row, if its number has one, its kind, and its value.
#[derive(Debug, Drop)]
pub struct Field<'a> {
    row: Option<&'static Row>,
    kind: u16,
    value: Value<'a>,
}

impl<'a> Model for Field<'a> {
    ghost Value = { Known };

    ghost view = { λ s. record {
      row = option_map (λ row. row.now) s.row;
      kind = s.kind;
      value = meaning s.value;
    } };

    ghost invariant = { λ s.
        ValueFits (plain_of (style_of (option_map (λ row. row.now) s.row))) (meaning s.value) };
}

impl<'a> Field<'a> {
    /// What the frame says by the row of its number; where none has it, the field has no row, and its value is the
    /// payload.
    pub fn new(rows: &'static [Row], frame: &NlaBuffer<'a>) -> Field<'a>
        ensures { result ≡ field_of rows.now frame.now }
    {
        let row = row_of(rows, frame.kind());
        Field {
            row,
            kind: frame.kind_with_flags(),
            value: read(style(row), frame.value()),
        }
    }

    /// The row of its number, if one has it.
    pub fn row(&self) -> Option<&'static Row>
        ensures { option_map (λ row. row.now) result ≡ self.now.row }
    {
        self.row
    }

    /// The whole kind: the number and both flag bits.
    pub fn kind(&self) -> u16
        ensures { result ≡ self.now.kind }
    {
        self.kind
    }

    /// Its value, of which the style of its row has bytes.
    pub fn value(&self) -> Value<'a>
        ensures value { meaning result ≡ self.now.value }
        ensures fits { ValueFits (plain_of (style_of self.now.row)) (meaning result) }
    {
        self.value
    }
}

/// The first row of this number.
pub fn row_of(rows: &'static [Row], number: u16) -> Option<&'static Row>
    ensures { option_map (λ row. row.now) result ≡ find (is_of number) rows.now }
{
    rows.iter().find(|row| row.0 == number)
}

/// The style of a row; bytes where there is none.
pub(crate) fn style(row: Option<&'static Row>) -> Style
    ensures { result ≡ style_of (option_map (λ row. row.now) row.entry) }
{
    match row {
        Some(row) => row.2,
        None => Style::Bytes,
    }
}

/// The fields of a list of attributes, one of each frame, in order. Where a frame is damaged its fault comes in its
/// place, and nothing after it.
#[derive(Debug, Drop)]
pub struct Fields<'a> {
    rows: &'static [Row],
    frames: NlasIterator<'a>,
}

impl<'a> Model for Fields<'a> {
    ghost Value = { List FieldItem };

    ghost view = { λ s. fields_of s.rows.now s.frames };
}

impl<'a> Fields<'a> {
    /// The fields of these bytes by the rows of their place.
    pub fn new(rows: &'static [Row], bytes: &'a [u8]) -> Fields<'a>
        ensures { result ≡ fields_of rows.now (items bytes.now) }
    {
        Fields {
            rows,
            frames: NlasIterator::new(bytes),
        }
    }
}

impl<'a> Iterator for Fields<'a> {
    type Item = Result<Field<'a>, DecodeError>;

    ghost next_gives = { YieldsFirstBy without_place (λ fields. fields) };

    ghost remaining = { item_count (λ fields. fields) };

    fn next(&mut self) -> Option<Result<Field<'a>, DecodeError>> {
        match self.frames.next() {
            Some(Ok(frame)) => Some(Ok(Field::new(self.rows, &frame))),
            Some(Err(error)) => Some(Err(error)),
            None => None,
        }
    }
}
