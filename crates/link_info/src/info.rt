//! What an interface of a kind is made with: its data, set and read by the names of rows.

ghost use Rattle.std.specs.Prelude.{◌≡◌, ◌↔◌, ◌⊎◌, [], None, Some, false, IfOk, IfErr, map, option_map};
ghost use Rattle.std.specs.List.{find, position};
ghost use Rattle.nla_wire.specs.Frames.{number};
ghost use Rattle.nla_wire.specs.Canon.{canons, AllFit, IsSmall};
ghost use Rattle.link_info.specs.Meanings.{meaning, payload_as};
ghost use Rattle.link_info.specs.Built.{Built, row_named, placed, has_number, Holds, IsSet, value_of, IsRefused};
ghost use Rattle.link_info.specs.Built.{AreWhole, DataFit, list_of, kind_in, data_in, AreSet, AreRefused};
ghost use Rattle.link_info.specs.Built.{IsSetTo, by_name, bits_of};
ghost use Rattle.link_info.specs.Lent.{row_now};
ghost use Rattle.link_info.specs.Places.{place_of_kind};
ghost use Rattle.link_info.specs.Rows.{rows_at};
ghost use Rattle.link_info.specs.Styles.{are_frames};
ghost use Rattle.nla_wire.specs.Items.{items};
ghost use Rattle.link_info.specs.declared.info.InfoError.TheVariants as why;

use crate::holds::holds;
use crate::named::{bits_of, by_name};
use crate::place::Place;
use crate::read::read;
use crate::style::Row;
use crate::value::Value;
use crate::write::push_payload;
use link_nest::LinkInfo;
use nla_wire::{
    DefaultNla, NLA_TYPE_MASK, Nla, NlasIterator, Text, list_fits, nlas_buffer_len, nlas_write,
};
use std::alloc::{AllocError, Global};
use std::marker::Model;
use thiserror::Error;

/// The number of the attribute of data by kind (linux/if_link.h).
pub const IFLA_INFO_DATA: u16 = 2;

/// Why something could not be set or made.
#[derive(Clone, Copy, Debug, PartialEq, Eq, Error)]
pub enum InfoError {
    /// The list has no kind.
    #[error("no kind of interface is named")]
    UnknownKind,
    /// No row of the kind's table has this name.
    #[error("no attribute of the kind has this name")]
    UnknownName,
    /// An attribute of this name cannot have this value.
    #[error("the attribute cannot have this value")]
    NotHeld,
    /// The value, or all of them, would have more than 65531 bytes.
    #[error("more bytes than an attribute can have")]
    TooLong,
    /// The data are no whole attributes.
    #[error("the data are no whole attributes")]
    Damaged,
    /// No memory was left.
    #[error("out of memory")]
    OutOfMemory,
}

impl From<AllocError> for InfoError {
    ghost from_gives = { λ _ e. e ≡ why.OutOfMemory };

    fn from(_error: AllocError) -> InfoError {
        InfoError::OutOfMemory
    }
}

/// The kind of an interface and the data of that kind, set and read by the names of rows.
#[derive(Debug, Drop)]
pub struct Info {
    kind: Text,
    place: Option<Place>,
    rows: &'static [Row],
    frames: Vec<DefaultNla>,
}

impl Model for Info {
    ghost Value = { Built };

    ghost view = { λ s. record { kind = s.kind; place = s.place; rows = s.rows.now; frames = s.frames.items } };
}

/// The first row of this name.
fn row_named(rows: &'static [Row], name: &str) -> Option<&'static Row>
    ensures { option_map (λ row. row.now) result ≡ row_named rows.now name.now }
{
    rows.iter().find(|row| row.1 == name)
}

/// The number of a kept frame: its kind without the two flag bits.
fn number(frame: &DefaultNla) -> u16
    ensures { result ≡ number frame.now }
{
    frame.kind() & NLA_TYPE_MASK
}

/// The first frame of this number.
fn frame_of(frames: &[DefaultNla], wanted: u16) -> Option<&DefaultNla>
    ensures { option_map (λ frame. frame.now) result ≡ find (has_number wanted) frames.now }
{
    frames.iter().find(|frame| number(frame) == wanted)
}

/// Where the first frame of this number stands.
fn position_of(frames: &[DefaultNla], wanted: u16) -> Option<usize>
    ensures { result ≡ position (has_number wanted) frames.now }
{
    frames.iter().position(|frame| number(frame) == wanted)
}

/// Puts a frame in the place of the first one of its number, or at the end.
fn put(frames: &mut Vec<DefaultNla>, frame: DefaultNla) -> Result<(), AllocError>
    ensures set { IfOk result (λ _. frames.new.items ≡ placed frames.old.items frame) }
    ensures kept { IfErr result (λ _. frames.new.items ≡ frames.old.items) }
{
    match position_of(frames.as_slice(), number(&frame)) {
        Some(at) => {
            frames[at] = frame;
            Ok(())
        }
        None => {
            frames.reserve(1)?;
            frames.push_reserved(frame);
            Ok(())
        }
    }
}

/// The payload of an attribute of this row with this value.
fn payload_of(alloc: Global, row: &Row, value: Value<'_>) -> Result<Vec<u8>, AllocError>
    requires { Holds row.now.2 (meaning value) }
    ensures { IfOk result (λ p. p.items ≡ payload_as row.now.2 (meaning value.entry)) }
{
    let mut payload = Vec::new(alloc);
    push_payload(&mut payload, row.2, value)?;
    Ok(payload)
}

/// The frames of bytes, kept, where they are whole frames.
#[tactic(auto, using(crate::proofs::Kept::not_whole))]
fn kept(alloc: Global, bytes: &[u8]) -> Result<Vec<DefaultNla>, InfoError>
    ensures whole { IfOk result (λ frames. AreWhole bytes.now frames.items) }
    ensures damaged { IfErr result (λ e. e ≡ why.Damaged → are_frames (items bytes.now) ≡ false) }
    ensures causes { IfErr result (λ e. (e ≡ why.Damaged) ⊎ (e ≡ why.OutOfMemory)) }
{
    let mut frames = Vec::new(alloc);
    for item in NlasIterator::new(bytes) {
        let Ok(frame) = item else {
            return Err(InfoError::Damaged);
        };
        let payload = Vec::from_slice(alloc, frame.value())?;
        frames.reserve(1)?;
        frames.push_reserved(DefaultNla::new(frame.kind_with_flags(), payload));
    }
    Ok(frames)
}

/// The first kind.
pub fn kind_of(list: &[LinkInfo]) -> Option<&str>
    ensures { option_map (λ kind. kind.now) result ≡ kind_in list.now }
{
    for info in list {
        if let LinkInfo::Kind(kind) = info {
            return Some(kind.as_str());
        }
    }
    None
}

/// The payload of the first data; none where there are no data.
fn data_in(list: &[LinkInfo]) -> &[u8]
    ensures { result.now ≡ data_in list.now }
{
    for info in list {
        if let LinkInfo::Other(frame) = info {
            if number(frame) == IFLA_INFO_DATA {
                return frame.value();
            }
        }
    }
    &[]
}

/// The canonical encoding of frames that fit into one attribute.
fn encoding(alloc: Global, frames: &[DefaultNla]) -> Result<Vec<u8>, AllocError>
    requires { AllFit (λ f. IsSmall f) (λ f. f) frames.now }
    ensures { IfOk result (λ p. p.items ≡ canons (λ f. f) frames.now) }
{
    let len = nlas_buffer_len(frames);
    let mut data = Vec::with_capacity(alloc, len)?;
    data.resize(len, 0)?;
    let _len = nlas_write(frames, data.as_mut_slice());
    Ok(data)
}

impl Info {
    /// Nothing set, of this kind, the text of `IFLA_INFO_KIND`, as `vlan` or `bridge`. A kind that has no table has no
    /// rows.
    pub fn new(alloc: Global, kind: &str) -> Result<Info, InfoError>
        ensures made { IfOk result (λ info. (info.kind ≡ kind.now) × (info.frames ≡ [])) }
        ensures place { IfOk result (λ info. info.place ≡ place_of_kind kind.now) }
        ensures none { IfOk result (λ info. info.place ≡ None → info.rows ≡ []) }
        ensures rows { IfOk result (λ info. map row_now info.rows ≡ rows_at info.place) }
        ensures causes { IfErr result (λ e. e ≡ why.OutOfMemory) }
    {
        let place = Place::of_kind(kind);
        let rows: &'static [Row] = match place {
            Some(place) => place.rows(),
            None => &[],
        };
        let kind = String::from_str(alloc, kind)?;
        Ok(Info {
            kind: Text::new(kind),
            place,
            rows,
            frames: Vec::new(alloc),
        })
    }

    /// The kind.
    pub fn kind(&self) -> &str
        ensures { result.now ≡ self.now.kind }
    {
        self.kind.as_str()
    }

    /// The place of the data, by whose rows it is set and read, if the kind has a table.
    pub fn place(&self) -> Option<Place>
        ensures { result ≡ self.now.place }
    {
        self.place
    }

    /// Sets a row to a value.
    fn set_row(&mut self, alloc: Global, row: &Row, value: Value<'_>) -> Result<(), InfoError>
        ensures set { IfOk result (λ _. IsSetTo row.now (meaning value.entry) self.old self.new) }
        ensures kept { IfErr result (λ _. self.new ≡ self.old) }
        ensures held { IfErr result (λ e. (e ≡ why.NotHeld)
            ↔ (Holds row.now.2 (meaning value.entry) → ⊥)) }
        ensures causes { IfErr result (λ e. (e ≡ why.NotHeld) ⊎ (e ≡ why.OutOfMemory)) }
    {
        if !holds(row.2, value) {
            return Err(InfoError::NotHeld);
        }
        let payload = payload_of(alloc, row, value)?;
        put(&mut self.frames, DefaultNla::new(row.0, payload))?;
        Ok(())
    }

    /// Sets the attribute of this name to this value, in place of one that it was set to before. A number may be given
    /// by a name that its row has, and a flag by its own; one that has no name is taken as a number. What holds other
    /// values, a record, an array or a list, is given by its bytes.
    ///
    /// Refuses a name that no row has with `UnknownName`, and a value that the row's style cannot have with `NotHeld`;
    /// or there is no memory. After a refusal all is as it was.
    pub fn set(&mut self, alloc: Global, name: &str, value: Value<'_>) -> Result<(), InfoError>
        ensures set { IfOk result (λ _. IsSet name.now (meaning value.entry) self.old self.new) }
        ensures kept { IfErr result (λ _. self.new ≡ self.old) }
        ensures name { IfErr result (λ e. (e ≡ why.UnknownName)
            ↔ (row_named self.old.rows name.now ≡ None)) }
        ensures held { IfErr result (λ e. (e ≡ why.NotHeld)
            ↔ IsRefused (row_named self.old.rows name.now) (meaning value.entry)) }
        ensures causes { IfErr result
            (λ e. (e ≡ why.UnknownName) ⊎ ((e ≡ why.NotHeld) ⊎ (e ≡ why.OutOfMemory))) }
    {
        let Some(row) = row_named(self.rows, name) else {
            return Err(InfoError::UnknownName);
        };
        self.set_row(alloc, row, by_name(row.2, value))
    }

    /// Sets the attribute of this name, whose bits have names, to the flags of these names, and to no other.
    ///
    /// Refuses a name that no row has with `UnknownName`, and a row without flags, or without a flag of one of the
    /// names, with `NotHeld`; or there is no memory. After a refusal all is as it was.
    pub fn set_flags(&mut self, alloc: Global, name: &str, flags: &[&str]) -> Result<(), InfoError>
        ensures set { IfOk result (λ _. AreSet name.now flags.now self.old self.new) }
        ensures kept { IfErr result (λ _. self.new ≡ self.old) }
        ensures name { IfErr result (λ e. (e ≡ why.UnknownName)
            ↔ (row_named self.old.rows name.now ≡ None)) }
        ensures held { IfErr result (λ e. (e ≡ why.NotHeld)
            ↔ AreRefused (row_named self.old.rows name.now) flags.now) }
        ensures causes { IfErr result
            (λ e. (e ≡ why.UnknownName) ⊎ ((e ≡ why.NotHeld) ⊎ (e ≡ why.OutOfMemory))) }
    {
        match row_named(self.rows, name) {
            Some(row) => match bits_of(row.2, flags) {
                Some(bits) => self.set_row(alloc, row, Value::Unsigned(bits)),
                None => Err(InfoError::NotHeld),
            },
            None => Err(InfoError::UnknownName),
        }
    }

    /// What the attribute of this name was set to.
    pub fn value(&self, name: &str) -> Option<Value<'_>>
        ensures { option_map meaning result ≡ value_of self.now name.now }
    {
        let row = row_named(self.rows, name)?;
        let frame = frame_of(self.frames.as_slice(), row.0)?;
        Some(read(row.2, frame.value()))
    }

    /// What `IFLA_LINKINFO` holds for it: the kind, and the data in canonical encoding; no data where nothing is set.
    ///
    /// Refuses data of more than 65531 bytes with `TooLong`; or there is no memory.
    pub fn list(&self, alloc: Global) -> Result<Vec<LinkInfo>, InfoError>
        ensures made { IfOk result (λ list. list.items ≡ list_of self.now) }
        ensures long { IfErr result (λ e. e ≡ why.TooLong → DataFit self.now → ⊥) }
        ensures fit { IfOk result (λ _. DataFit self.now) }
        ensures causes { IfErr result (λ e. (e ≡ why.TooLong) ⊎ (e ≡ why.OutOfMemory)) }
    {
        if !list_fits(self.frames.as_slice()) {
            return Err(InfoError::TooLong);
        }
        let kind = String::from_str(alloc, self.kind.as_str())?;
        let mut list = Vec::with_capacity(alloc, 2)?;
        list.push_reserved(LinkInfo::Kind(Text::new(kind)));
        if !self.frames.is_empty() {
            let data = encoding(alloc, self.frames.as_slice())?;
            list.push_reserved(LinkInfo::Other(DefaultNla::new(IFLA_INFO_DATA, data)));
        }
        Ok(list)
    }

    /// The kind and the data that `IFLA_LINKINFO` holds, to be read by name or changed.
    ///
    /// Refuses a list without a kind with `UnknownKind`, and data that are no whole attributes with `Damaged`; or there
    /// is no memory.
    pub fn of(alloc: Global, list: &[LinkInfo]) -> Result<Info, InfoError>
        ensures kind { IfOk result (λ info. kind_in list.now ≡ Some info.kind) }
        ensures data { IfOk result (λ info. AreWhole (data_in list.now) info.frames) }
        ensures place { IfOk result (λ info. info.place ≡ place_of_kind info.kind) }
        ensures none { IfOk result (λ info. info.place ≡ None → info.rows ≡ []) }
        ensures rows { IfOk result (λ info. map row_now info.rows ≡ rows_at info.place) }
        ensures unknown { IfErr result (λ e. (e ≡ why.UnknownKind) ↔ (kind_in list.now ≡ None)) }
        ensures damaged { IfErr result
            (λ e. e ≡ why.Damaged → are_frames (items (data_in list.now)) ≡ false) }
        ensures causes { IfErr result
            (λ e. (e ≡ why.UnknownKind) ⊎ ((e ≡ why.Damaged) ⊎ (e ≡ why.OutOfMemory))) }
    {
        let Some(kind) = kind_of(list) else {
            return Err(InfoError::UnknownKind);
        };
        let mut info = Info::new(alloc, kind)?;
        info.frames = kept(alloc, data_in(list))?;
        Ok(info)
    }
}
