// Numbers as bytes, the lowest byte first. Each width is made of two of the one below, so that no proof has more than one divisor; a wider number's place
// has a narrower type, so that no sum of places wraps. What is behind the end reads as 0, and nothing is written there.
// One generic function is no plainer: it would need a trait that names the half, the place and the divisor of each width.
ghost use Rattle.std.specs.Prelude.{◌≡◌, ◌<◌, get_or, set};
ghost use Rattle.std.proofs.lemmas.List.Edits.{sets};
ghost use Rattle.edge.specs.Bytes.{two_at, four_at, eight_at, two, four, eight};

// No from_le_bytes: the clauses say what is read and written across the end (`two_at`, `sets`), and an array of bytes has no end to cross.
fn byte_at(bytes: &[u8], at: usize) -> u8
    ensures { result ≡ get_or bytes.now at 0 }
{
    bytes.get(at).copied().unwrap_or(0)
}

pub fn read_2(bytes: &[u8], at: u32) -> u32
    ensures { (result ≡ two_at bytes.now at) × (result < 65536) }
{
    let first = at as usize;
    (byte_at(bytes, first) as u32) + 256 * (byte_at(bytes, first + 1) as u32)
}

pub fn read_4(bytes: &[u8], at: u16) -> u64
    ensures { (result ≡ four_at bytes.now at) × (result < 4294967296) }
{
    let first = at as u32;
    (read_2(bytes, first) as u64) + 65536 * (read_2(bytes, first + 2) as u64)
}

pub fn read_8(bytes: &[u8], at: u8) -> u64
    ensures { result ≡ eight_at bytes.now at }
{
    let first = at as u16;
    read_4(bytes, first) + 4294967296 * read_4(bytes, first + 4)
}

// No get_mut: it is as long, and lends a byte where a store is enough.
pub fn put_1(bytes: &mut [u8], at: usize, byte: u8)
    ensures { bytes.new ≡ set bytes.old at byte }
{
    if at < bytes.len() {
        bytes[at] = byte;
    }
}

pub fn put_2(bytes: &mut [u8], at: u32, number: u16)
    ensures { bytes.new ≡ sets bytes.old at (two number) }
{
    let first = at as usize;
    put_1(bytes, first, (number % 256) as u8);
    put_1(bytes, first + 1, (number / 256) as u8);
}

pub fn put_4(bytes: &mut [u8], at: u16, number: u32)
    ensures { bytes.new ≡ sets bytes.old at (four number) }
{
    let first = at as u32;
    put_2(bytes, first, (number % 65536) as u16);
    put_2(bytes, first + 2, (number / 65536) as u16);
}

pub fn put_8(bytes: &mut [u8], at: u8, number: u64)
    ensures { bytes.new ≡ sets bytes.old at (eight number) }
{
    let first = at as u16;
    put_4(bytes, first, (number % 4294967296) as u32);
    put_4(bytes, first + 4, (number / 4294967296) as u32);
}
