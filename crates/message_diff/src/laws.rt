//! What is told of two encodings is all that differs between them, and of an interface what its message says.

ghost use Rattle.message_diff.specs.Laws.{ChangesAreTold, HeadsAreMeant};

/// What is told of two encodings is all that differs between all leaves of both, each path once; of an encoding beside
/// itself, in one order, nothing. VLAN by VLAN, what is written is what is told.
pub fn law_told()
    ensures { ChangesAreTold }
{}

/// Which interface an encoding is of, by its header and the last name among its attributes, is what each message says
/// that it means leniently.
pub fn law_heads()
    ensures { HeadsAreMeant }
{}
