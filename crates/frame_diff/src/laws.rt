//! What is told of two messages is what differs between all their leaves.

ghost use Rattle.frame_diff.specs.Laws.{CountersArePassed, EachIsToldOnce, ItemsAreChanges, MessagesAreTold};
ghost use Rattle.frame_diff.specs.Laws.{RangesAreChanges, SameIsSilent, WhatDiffersIsTold, WholesAreLeaves};
ghost use Rattle.frame_diff.specs.Laws.{WrittenIsTold};
ghost use Rattle.frame_diff.specs.Names.{NamesAreApart};
ghost use Rattle.frame_diff.specs.PathTexts.{PathTextsAreApart};
ghost use Rattle.frame_diff.specs.Shown.{MembersAreShown, WholeIsShown};
ghost use Rattle.frame_diff.specs.Still.{WholesStandStill};

/// What is told of members beside others is what differs between the leaves of both.
pub fn law_told()
    ensures { WhatDiffersIsTold }
{}

/// No path is told twice.
pub fn law_once()
    ensures { EachIsToldOnce }
{}

/// Members beside the same tell nothing.
pub fn law_silent()
    ensures { SameIsSilent }
{}

/// Leaf by leaf, what is told where values with labels that stand alone are told as a whole is what differs between the
/// leaves of both.
pub fn law_wholes()
    ensures { WholesAreLeaves }
{}

/// What is told of two messages, or of two states, is what differs between all leaves of both, where a value with a
/// label that stands alone is a leaf. Leaf by leaf it is what differs between all leaves. Each path is told once. Of a
/// message beside itself nothing is told.
pub fn law_messages()
    ensures { MessagesAreTold }
{}

/// A state passes over the attributes that the table of `link_state` clears, and no other.
pub fn law_counters()
    ensures { CountersArePassed }
{}

/// Nothing that a state clears is in what is told of it as a whole.
pub fn law_settled()
    ensures { WholesStandStill }
{}

/// What is written behind the text of a path is an object for each change that is told; of VLANs beside each other that
/// changed alike it is one.
pub fn law_items()
    ensures { ItemsAreChanges }
{}

/// VLAN by VLAN, what is written of two messages is what is told of them.
pub fn law_ranges()
    ensures { RangesAreChanges }
{}

/// Nothing is written of two messages exactly where nothing is told of them.
pub fn law_written()
    ensures { WrittenIsTold }
{}

/// The members of a list of attributes are what is shown of it, where no two numbers have one name; and so are those of
/// a record.
pub fn law_shown()
    ensures { MembersAreShown }
{}

/// With the rows of `link_info` no two numbers of a list have one name, so the members of each list are what is shown
/// of it.
pub fn law_names()
    ensures { NamesAreApart }
{}

/// With the rows of `link_info` what is compared of a message, where all its attributes are accepted, is what is shown
/// of it.
pub fn law_whole()
    ensures { WholeIsShown }
{}

/// With the rows of `link_info` the text of a path stands for the path: no two leaves of a message have one text, and
/// no two changes that are told of two messages.
pub fn law_texts()
    ensures { PathTextsAreApart }
{}
