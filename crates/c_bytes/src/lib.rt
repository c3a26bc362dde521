// Numbers as eight bytes, the least significant first.
#![tactic(auto)]

ghost use Rattle.std.specs.Prelude.{◌≡◌, length};
ghost use Rattle.c_bytes.specs.Bytes.{number_bytes, bytes_of};

// How many bytes a number has.
pub const NUMBER_BYTES: usize = 8;

// The eight bytes of a number.
pub fn put_number(z: i64, part: &mut [u8])
    requires { length part.old ≡ number_bytes }
    ensures { part.new ≡ bytes_of z }
{
    part.copy_from_slice(&z.to_le_bytes());
}
