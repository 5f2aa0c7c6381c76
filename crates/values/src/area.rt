ghost use Rattle.std.specs.Prelude.{◌≡◌, length, is_ok, if◌then◌else◌, ◌==◌, nat_eq};

// An area has another length than what is to be written into it.
#[derive(Clone, Copy, Debug, PartialEq, Eq)]
pub struct WrongLength;

// Writes bytes over an area of just their number. Any other area is refused, and stays as it is.
pub fn write_over(bytes: &[u8], area: &mut [u8]) -> Result<(), WrongLength>
    ensures answer { is_ok result ≡ (length area.old == length bytes.now) }
    ensures area { area.new ≡ (if nat_eq (length area.old) (length bytes.now) then bytes.now else area.old) }
{
    if area.len() != bytes.len() {
        return Err(WrongLength);
    }
    area.copy_from_slice(bytes);
    Ok(())
}
