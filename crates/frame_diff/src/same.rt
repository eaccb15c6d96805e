//! Lists with the same rows.

ghost use Rattle.std.specs.Prelude.{◌≡◌, true};
ghost use Rattle.frame_diff.specs.Same.{table_number};

use frame_shown::form::{List, Table};
use link_info::Place;

/// The number of a table.
fn table_number(table: Table) -> u8
    ensures { result ≡ table_number table }
{
    match table {
        Table::Families => 0,
        Table::Inet => 1,
        Table::Inet6 => 2,
        Table::Mctp => 3,
        Table::Xdp => 4,
        Table::Props => 5,
        Table::DevlinkPort => 6,
        Table::DpllPin => 7,
        Table::DownReason => 8,
        Table::Function => 9,
        Table::FunctionStats => 10,
        Table::FunctionVlans => 11,
    }
}

/// Whether two tables are the same.
#[tactic(auto, using(crate::proofs::Numbers::one_table))]
fn is_same_table(one: Table, other: Table) -> bool
    ensures { result ≡ true → one ≡ other }
{
    table_number(one) == table_number(other)
}

/// Whether two places are the same.
#[tactic(auto, using(crate::proofs::Numbers::one_place))]
fn is_same_place(one: Place, other: Place) -> bool
    ensures { result ≡ true → one ≡ other }
{
    one.number() == other.number()
}

/// Whether two places are the same, or there is none.
fn are_same_places(one: Option<Place>, other: Option<Place>) -> bool
    ensures { result ≡ true → one ≡ other }
{
    match (one, other) {
        (Some(one), Some(other)) => is_same_place(one, other),
        (None, None) => true,
        _ => false,
    }
}

/// Whether two lists that are shown as objects have the same rows.
pub(crate) fn is_same_list(one: List, other: List) -> bool
    ensures { result ≡ true → one ≡ other }
{
    match (one, other) {
        (List::Message(one), List::Message(other)) => one == other,
        (List::Own(one), List::Own(other)) => is_same_table(one, other),
        (List::Of(one), List::Of(other)) => is_same_place(one, other),
        (List::ProtoInet6, List::ProtoInet6) => true,
        (List::Info(link, port), List::Info(other_link, other_port)) => {
            are_same_places(link, other_link) && are_same_places(port, other_port)
        }
        (List::Refused, List::Refused) => true,
        _ => false,
    }
}
