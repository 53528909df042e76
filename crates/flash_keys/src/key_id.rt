ghost use Rattle.std.specs.Prelude.{◌≡◌, ◌+◌, ◌*◌, ◌<◌};

/// Names the bytes of one key in a `KeyStore`: its size class in the top three bits, and the index of its
/// cell in that class below.
#[derive(Clone, Copy, Debug, Drop, PartialEq, Eq)]
pub struct KeyId {
    pub number: u32,
}

// The id of a cell of a class.
pub fn id_of(class: u32, index: u32) -> KeyId
    requires class { class < 8 }
    requires index { index < 536870912 }
    ensures { result.number ≡ class * 536870912 + index }
{
    KeyId {
        number: class * 0x2000_0000 + index,
    }
}
