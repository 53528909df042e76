ghost use Rattle.std.specs.Prelude.{◌^◌, ◌<◌, ℕ, List};
ghost use Rattle.flash_crc.specs.Bytes.{IsBytes};
ghost use Rattle.flash_crc.specs.Crc32c.{crc32c as checksum_of};

/// The checksum of any bytes has 32 bits. It does nothing.
pub fn fits_32_bits()
    ensures { (bytes : List ℕ) → IsBytes bytes → checksum_of bytes < 2 ^ 32 }
{}
