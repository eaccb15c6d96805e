//! Operational states of links.

ghost use Rattle.std.specs.Prelude.{◌≡◌, Some};
ghost use Rattle.link_vals.specs.StateTable.{state_of, state_number, state_text};

use nla_wire::{Cause, DecodeError, Exact, PAYLOAD};
use std::fmt;
use std::str::FromStr;

/// The operational state of a link, one byte: `IF_OPER_..` of linux/if.h, of RFC 2863.
#[derive(Clone, Copy, Debug, PartialEq, Eq)]
pub enum State {
    /// `IF_OPER_UNKNOWN`: the driver does not say.
    Unknown,
    /// `IF_OPER_NOTPRESENT`: a part is missing.
    NotPresent,
    /// `IF_OPER_DOWN`.
    Down,
    /// `IF_OPER_LOWERLAYERDOWN`: a link below it is down.
    LowerLayerDown,
    /// `IF_OPER_TESTING`.
    Testing,
    /// `IF_OPER_DORMANT`: it waits for an event, as of an authentication.
    Dormant,
    /// `IF_OPER_UP`.
    Up,
    /// A number without a name.
    Other(u8),
}

impl From<u8> for State {
    ghost from_gives = { λ n v. v ≡ state_of n };

    #[tactic(auto, unfolding(crate::proofs::Opened::state))]
    fn from(number: u8) -> State {
        match number {
            0 => State::Unknown,
            1 => State::NotPresent,
            2 => State::Down,
            3 => State::LowerLayerDown,
            4 => State::Testing,
            5 => State::Dormant,
            6 => State::Up,
            n => State::Other(n),
        }
    }
}

impl From<State> for u8 {
    ghost from_gives = { λ v n. n ≡ state_number v };

    #[tactic(auto, unfolding(crate::specs::StateTable::state_number))]
    fn from(value: State) -> u8 {
        match value {
            State::Unknown => 0,
            State::NotPresent => 1,
            State::Down => 2,
            State::LowerLayerDown => 3,
            State::Testing => 4,
            State::Dormant => 5,
            State::Up => 6,
            State::Other(n) => n,
        }
    }
}

impl fmt::Display for State {
    ghost output = { λ v. Some (state_text v) };

    #[tactic(auto, unfolding(crate::specs::StateTable::state_text))]
    fn fmt<W: fmt::Write>(&self, f: &mut fmt::Formatter<W>) -> fmt::Result {
        match self {
            State::Unknown => f.write_str("UNKNOWN"),
            State::NotPresent => f.write_str("NOTPRESENT"),
            State::Down => f.write_str("DOWN"),
            State::LowerLayerDown => f.write_str("LOWERLAYERDOWN"),
            State::Testing => f.write_str("TESTING"),
            State::Dormant => f.write_str("DORMANT"),
            State::Up => f.write_str("UP"),
            State::Other(n) => write!(f, "{n}"),
        }
    }
}

impl FromStr for State {
    type Err = DecodeError;

    ghost use Rattle.link_vals.specs.StateTable.{state_read, IsRead};

    ghost from_str_gives = { λ text result. IsRead (state_read text) result };

    /// Reads the text of a state with a name, ASCII case ignored, and refuses every other text with `InvalidState`.
    #[tactic(auto, unfolding(crate::specs::StateTable::state_read, crate::specs::StateTable::state_text))]
    fn from_str(text: &str) -> Result<State, DecodeError> {
        if text.eq_ignore_ascii_case("UNKNOWN") {
            return Ok(State::Unknown);
        }
        if text.eq_ignore_ascii_case("NOTPRESENT") {
            return Ok(State::NotPresent);
        }
        if text.eq_ignore_ascii_case("DOWN") {
            return Ok(State::Down);
        }
        if text.eq_ignore_ascii_case("LOWERLAYERDOWN") {
            return Ok(State::LowerLayerDown);
        }
        if text.eq_ignore_ascii_case("TESTING") {
            return Ok(State::Testing);
        }
        if text.eq_ignore_ascii_case("DORMANT") {
            return Ok(State::Dormant);
        }
        if text.eq_ignore_ascii_case("UP") {
            return Ok(State::Up);
        }
        Err(DecodeError::new(PAYLOAD, Cause::InvalidState))
    }
}

impl Exact for State {
    ghost use Rattle.std.proofs.Common.{rules};

    ghost decides = { Prim.search rules };
}
