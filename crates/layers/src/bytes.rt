// Numbers of 64 bits in eight bytes, high byte first.
ghost use Rattle.std.specs.Prelude.{◌≡◌, length};
ghost use Rattle.steps.specs.Bytes.{from_bytes, to_bytes};

// The number that eight bytes are.
pub fn read_u64(bytes: &[u8]) -> u64
    requires { length bytes.now ≡ 8 }
    ensures { result ≡ from_bytes bytes.now }
{
    u64::from_be_bytes(bytes.try_into().unwrap())
}

// Writes x to eight bytes.
pub fn write_u64(bytes: &mut [u8], x: u64)
    requires { length bytes.old ≡ 8 }
    ensures { bytes.new ≡ to_bytes 8 x }
{
    bytes.copy_from_slice(&x.to_be_bytes());
}
