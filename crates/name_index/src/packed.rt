//! Names in eight bytes.
ghost use Rattle.std.specs.Prelude.{◌≡◌, refl};
ghost use Rattle.std.specs.Ordering.{as_partial_cmp};
ghost use Rattle.element_name.specs.Name.{name_eq};
ghost use Rattle.element_name.specs.Named.{name_cmp};
ghost use Rattle.element_name.proofs.NameOrder.{name_cmp_total};
ghost use Rattle.name_index.specs.Packed.{name_eq_equiv, name_eq_per, name_partial_order, eq_matches};

use element_name::Name;
use std::cmp::Ordering;
use std::marker::Model;

/// A name in eight bytes, compared by one comparison. It is seen as the name.
#[derive(Clone, Copy)]
pub struct PackedName {
    bits: u64,
}

impl Model for PackedName {
    ghost use Rattle.element_name.specs.Name as spec;
    ghost use Rattle.name_index.specs.Packed.{unpacked, packed, packed_again};

    ghost Value = { spec.Name };

    ghost view = { λ p. unpacked p.bits };

    ghost invariant = { λ p. spec.IsName (unpacked p.bits) };

    ghost inverse = { λ n. record { bits = packed n } };

    ghost inverse_ok = { λ p h i. record { bits = packed_again p.bits i } };
}

impl PackedName {
    /// A name, packed.
    pub fn of(name: Name) -> PackedName
        ensures { result ≡ name }
    {
        let stamp = name.stamp();
        let site = name.site();
        PackedName {
            bits: stamp * 65536 + site as u64,
        }
    }

    /// The name.
    pub fn name(self) -> Name
        ensures { result ≡ self }
    {
        let bits = self.bits;
        match Name::read(bits / 65536, (bits % 65536) as u16) {
            Some(name) => name,
            None => unreachable!(),
        }
    }
}

impl PartialEq for PackedName {
    ghost eq = { name_eq };

    ghost laws = { name_eq_per };

    fn eq(&self, other: &PackedName) -> bool {
        self.bits == other.bits
    }
}

impl Eq for PackedName {
    ghost laws = { name_eq_equiv };
}

impl PartialOrd for PackedName {
    ghost partial_cmp = { as_partial_cmp name_cmp };

    ghost laws = { name_partial_order };

    fn partial_cmp(&self, other: &PackedName) -> Option<Ordering> {
        Some(self.cmp(other))
    }
}

impl Ord for PackedName {
    ghost cmp = { name_cmp };

    ghost total = { name_cmp_total };

    ghost matches_partial_cmp = { λ x y. refl };

    ghost matches_eq = { eq_matches };

    fn cmp(&self, other: &PackedName) -> Ordering {
        self.bits.cmp(&other.bits)
    }
}
