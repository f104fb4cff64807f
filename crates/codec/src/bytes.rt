// Numbers as bytes, the lowest first, and zero bytes: read from a place, written over one.
// Writers take the buffer with a place: to lend a part out would need clauses on how it comes back.
ghost use Rattle.std.specs.Prelude.{◌≡◌, [], ◌∷◌, ◌+◌, ◌≤◌, ◌<◌, length, replicate, eqb};
ghost use Rattle.std.specs.List.{list_all};
ghost use Rattle.protocol.specs.Runs.{u16_width, u32_width, u16_at, u32_at};
ghost use Rattle.codec.specs.Bytes.{le16, le32, zeros};
ghost use Rattle.codec.specs.Lists.{part, put};

// "little-endian"
pub fn get16(b: &[u8], at: usize) -> u16
    requires { at + u16_width ≤ length b.now }
    ensures { result ≡ u16_at b.now at }
{
    u16::from_le_bytes([b[at], b[at + 1]])
}

pub fn get32(b: &[u8], at: usize) -> u32
    requires { at + u32_width ≤ length b.now }
    ensures { result ≡ u32_at b.now at }
{
    u32::from_le_bytes([b[at], b[at + 1], b[at + 2], b[at + 3]])
}

// The N bytes from a place on, as an array.
#[tactic(auto, unfolding(crate::specs::Lists::part))]
pub fn array_at<const N: usize>(b: &[u8], at: usize) -> &[u8; N]
    requires { at + N ≤ length b.now }
    ensures { result.now ≡ part b.now at N }
{
    b[at..at + N].as_array().unwrap()
}

// Writes src over the bytes of image from at on.
#[tactic(auto, using(crate::specs::Lists::lent))]
pub fn put_bytes(image: &mut [u8], at: usize, src: &[u8])
    requires { at + length src.now ≤ length image.old }
    ensures { image.new ≡ put image.old at src.now }
{
    image[at..at + src.len()].copy_from_slice(src);
}

#[tactic(auto, using(crate::specs::Lists::put_one))]
pub fn put8(image: &mut [u8], at: usize, n: u8)
    requires { at < length image.old }
    ensures { image.new ≡ put image.old at (n ∷ []) }
{
    image[at] = n;
}

pub fn put16(image: &mut [u8], at: usize, n: u16)
    requires { at + u16_width ≤ length image.old }
    ensures { image.new ≡ put image.old at (le16 n) }
{
    put_bytes(image, at, &n.to_le_bytes());
}

pub fn put32(image: &mut [u8], at: usize, n: u32)
    requires { at + u32_width ≤ length image.old }
    ensures { image.new ≡ put image.old at (le32 n) }
{
    put_bytes(image, at, &n.to_le_bytes());
}

// Writes n zero bytes.
#[tactic(auto, using(crate::specs::Lists::lent))]
pub fn put_zeros(image: &mut [u8], at: usize, n: usize)
    requires { at + n ≤ length image.old }
    ensures { image.new ≡ put image.old at (replicate n 0) }
{
    image[at..at + n].fill(0);
}

fn all_zero(part: &[u8]) -> bool
    ensures { result ≡ list_all (λ x. eqb x 0) part.now }
{
    part.iter().all(|&x| x == 0)
}

// Whether the n bytes from at on are zero.
#[tactic(auto, using(crate::specs::Bytes::zeros_all))]
pub fn are_zero(b: &[u8], at: usize, n: usize) -> bool
    requires { at + n ≤ length b.now }
    ensures { result ≡ zeros b.now at n }
{
    all_zero(&b[at..at + n])
}

// Sets every byte to zero.
pub fn clear(image: &mut [u8])
    ensures { image.new ≡ replicate (length image.old) 0 }
{
    image.fill(0);
}
