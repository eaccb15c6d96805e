//! The operators of flags of links: `|`, `&`, `^`, `-`, `!`.

ghost use Rattle.std.specs.Prelude.{◌≡◌, ◌^◌, ◌-◌};
ghost use Rattle.std.specs.Int.RustNames.{bit_and, bit_or, bit_xor};
ghost use Rattle.bitflags.specs.Sets.{without};
ghost use Rattle.link_vals.specs.LinkFlagsTable.{link_flags_bits};

use super::LinkFlags;
use std::ops::{
    BitAnd, BitAndAssign, BitOr, BitOrAssign, BitXor, BitXorAssign, Not, Sub, SubAssign,
};

impl BitOr for LinkFlags {
    type Output = LinkFlags;

    ghost bitor_gives = { λ a b result. link_flags_bits result
        ≡ bit_or (link_flags_bits a) (link_flags_bits b) };

    fn bitor(self, other: LinkFlags) -> LinkFlags {
        self.union(other)
    }
}

impl BitOrAssign for LinkFlags {
    ghost bitor_assign_gives = { λ a b result. link_flags_bits result
        ≡ bit_or (link_flags_bits a) (link_flags_bits b) };

    fn bitor_assign(&mut self, other: LinkFlags) {
        self.insert(other);
    }
}

impl BitAnd for LinkFlags {
    type Output = LinkFlags;

    ghost bitand_gives = { λ a b result. link_flags_bits result
        ≡ bit_and (link_flags_bits a) (link_flags_bits b) };

    fn bitand(self, other: LinkFlags) -> LinkFlags {
        self.intersection(other)
    }
}

impl BitAndAssign for LinkFlags {
    ghost bitand_assign_gives = { λ a b result. link_flags_bits result
        ≡ bit_and (link_flags_bits a) (link_flags_bits b) };

    fn bitand_assign(&mut self, other: LinkFlags) {
        self.0 &= other.0;
    }
}

impl BitXor for LinkFlags {
    type Output = LinkFlags;

    ghost bitxor_gives = { λ a b result. link_flags_bits result
        ≡ bit_xor (link_flags_bits a) (link_flags_bits b) };

    fn bitxor(self, other: LinkFlags) -> LinkFlags {
        self.symmetric_difference(other)
    }
}

impl BitXorAssign for LinkFlags {
    ghost bitxor_assign_gives = { λ a b result. link_flags_bits result
        ≡ bit_xor (link_flags_bits a) (link_flags_bits b) };

    fn bitxor_assign(&mut self, other: LinkFlags) {
        self.toggle(other);
    }
}

impl Sub for LinkFlags {
    type Output = LinkFlags;

    ghost sub_gives = { λ a b result. link_flags_bits result
        ≡ without 32 (link_flags_bits a) (link_flags_bits b) };

    fn sub(self, other: LinkFlags) -> LinkFlags {
        self.difference(other)
    }
}

impl SubAssign for LinkFlags {
    ghost sub_assign_gives = { λ a b result. link_flags_bits result
        ≡ without 32 (link_flags_bits a) (link_flags_bits b) };

    fn sub_assign(&mut self, other: LinkFlags) {
        self.remove(other);
    }
}

impl Not for LinkFlags {
    type Output = LinkFlags;

    ghost not_gives = { λ a result. link_flags_bits result ≡ 2 ^ 32 - 1 - link_flags_bits a };

    fn not(self) -> LinkFlags {
        self.complement()
    }
}
