//! Keys in eight bytes.
ghost use Rattle.std.specs.Prelude.{◌≡◌};
ghost use Rattle.element_name.specs.Cases.{when};
ghost use Rattle.peer_tables.specs.PackedKey.{is_packable};

use edit_message::Key;
use element_name::Name;
use std::marker::Model;

/// A key in eight bytes, for tables that keep many, seen as the key: the stamp and the site of a name side by side, and the
/// version of an entry among the numbers that are no name's.
#[derive(Clone, Copy, PartialEq, Eq, Hash)]
pub(crate) struct PackedKey {
    bits: u64,
}

impl Model for PackedKey {
    ghost use Rattle.edit_message.specs.declared.message.Key.{Key};
    ghost use Rattle.peer_tables.specs.PackedKey.{key_of_bits, bits_of_key, bits_again};

    ghost Value = { Key };

    ghost view = { λ p. key_of_bits p.bits };

    ghost inverse = { λ key. record { bits = bits_of_key key } };

    ghost inverse_ok = { λ p h i. record { bits = bits_again p.bits i } };
}

impl PackedKey {
    /// A key, packed: that of a name, or of one of the first 65,535 versions.
    pub(crate) fn of(key: Key) -> Option<PackedKey>
        ensures { result ≡ when (is_packable key) key }
    {
        match key {
            Key::Coop(id) => Some(PackedKey {
                bits: id.stamp() * 65536 + id.site() as u64,
            }),
            Key::Admin(version) => {
                if version >= 65535 {
                    return None;
                }
                Some(PackedKey {
                    bits: version as u64 + 1,
                })
            }
        }
    }

    /// The key.
    pub(crate) fn key(self) -> Key
        ensures { result ≡ self }
    {
        if 0 < self.bits && self.bits < 65536 {
            return Key::Admin(self.bits as u32 - 1);
        }
        match Name::read(self.bits / 65536, (self.bits % 65536) as u16) {
            Some(name) => Key::Coop(name),
            None => unreachable!(),
        }
    }
}
