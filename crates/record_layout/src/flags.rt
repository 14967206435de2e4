// Flags as bytes, one byte a flag. The loops have no early exit, so that many bytes go at once.
ghost use Rattle.std.specs.Prelude.{◌≡◌, ◌+◌, ◌≤◌, length};
ghost use Rattle.std.proofs.lemmas.List.Edits.{sets};
ghost use Rattle.edge.specs.Bytes.{are_flags, flags_at, flag_bytes};

// Whether every byte is 0 or 1: the highest one tells.
pub(crate) fn are_flags(bytes: &[u8]) -> bool
    ensures { result ≡ are_flags bytes.now }
{
    let mut highest = 0;
    for byte in bytes {
        highest = highest.max(*byte);
    }
    highest <= 1
}

// The flags from a place on, as a set.
pub(crate) fn flags<const N: usize>(bytes: &[u8], from: usize) -> [bool; N]
    requires { from + N ≤ length bytes.now }
    ensures { result ≡ flags_at bytes.now from N }
{
    let mut flags = [false; N];
    for (slot, flag) in flags.iter_mut().enumerate() {
        *flag = bytes[from + slot] == 1;
    }
    flags
}

// Writes a set's flags from a place on.
// Bytes and a place: the clause `sets` speaks of all the bytes, and what stands beside the flags stays.
pub(crate) fn put_flags(flags: &[bool], bytes: &mut [u8], from: usize)
    requires { from + length flags.now ≤ length bytes.old }
    ensures { bytes.new ≡ sets bytes.old from (flag_bytes flags.now) }
{
    for (slot, flag) in flags.iter().enumerate() {
        bytes[from + slot] = *flag as u8;
    }
}
