//! Laws of what linkdiff tells, over whole runs.
//!
//! `specs/` states them over the definitions that the contract of a run names, in `message_diff`.
// Tests: none, since it has laws alone. Edits: edits/told_laws.txt.
#![tactic(auto)]

ghost use Rattle.told_laws.specs.Fewer.{FewerLines};
ghost use Rattle.told_laws.specs.Hosts.{Apart};
ghost use Rattle.told_laws.specs.Leading.{LeadThere};
ghost use Rattle.told_laws.specs.Turns.{Orderly};
ghost use Rattle.told_laws.specs.TwoWays.{TwoWays};
ghost use Rattle.told_laws.specs.Whole.{WholeRuns};

/// What the lines of one host tell is what they tell alone, whatever lines of other hosts stand between them.
pub fn law_apart()
    ensures { Apart }
{}

/// Of one interface lines `new` and `gone` take turns, and lines `changed` stand between them, which lead from the
/// message of the line `new` to the last one. A message with the encoding that is there tells nothing, one with another
/// encoding one line `changed`, or lines `gone` and one `new`.
pub fn law_orderly()
    ensures { Orderly }
{}

/// Where only changes are told, the same lines are told in the same order, without some lines `new`.
pub fn law_fewer_lines()
    ensures { FewerLines }
{}

/// The changes of lines `changed`, one after another, lead from the leaves of the first message to those of the last
/// one, at each path but `state`, and the old text of each change is there.
pub fn law_lead_there()
    ensures { LeadThere }
{}

/// Two dumps of a host tell as files what they tell one after the other where only changes are told, of each interface
/// that is not of family 7 or 10, and that the first of them does not refuse.
pub fn law_two_ways()
    ensures { TwoWays }
{}

/// A run that tells all, by its contract, tells of each host what its lines tell alone, and the entries of each
/// interface take turns and lead to its last message.
pub fn law_whole_runs()
    ensures { WholeRuns }
{}
