//! Bits from bytes.

ghost use Rattle.std.specs.Prelude.{◌≡◌, ◌+◌, ◌^◌, ◌≤◌, ◌<◌, ◌++◌, length};
ghost use Rattle.position_pack.specs.Bits as bits;
ghost use Rattle.position_pack.specs.Bits.{bits_of};
ghost use Rattle.position_pack.specs.lemmas.Streams.{left, IsReader};

/// How far bytes are read: `next` of them, of whose bits the last `count` are held.
#[derive(Drop)]
pub struct Reader {
    pub next: usize,
    pub held: u64,
    pub count: u32,
}

/// The number of the next bits, this many, the most significant first.
pub fn take(bytes: &[u8], reader: &mut Reader, width: u32) -> u32
    requires reader { IsReader bytes.now reader.old }
    requires width { width ≤ 32 }
    requires enough { width ≤ length (left bytes.now reader.old) }
    ensures reader { IsReader bytes.now reader.new }
    ensures low { result < 2 ^ width }
    ensures bits { left bytes.now reader.old ≡ bits_of width result ++ left bytes.now reader.new }
{
    let mut next = reader.next;
    let mut held = reader.held;
    let mut count = reader.count;
    while count < width {
        held = held * 256 + u64::from(bytes[next]);
        next += 1;
        count += 8;
    }
    let behind = count - width;
    let value = (held >> behind) as u32;
    reader.next = next;
    reader.held = held % (1 << behind);
    reader.count = behind;
    value
}

/// The number that bits of the bytes spell: this many bits, from a place on; bits past the last byte are left out.
pub fn number_at(bytes: &[u8], place: usize, width: u32) -> u32
    requires place { place ≤ 65536 }
    requires width { width ≤ 32 }
    ensures { result ≡ bits.number_at place width bytes.now }
{
    let mut number = 0;
    for index in place..place + width as usize {
        if index / 8 < bytes.len() {
            number = number * 2 + u32::from(bytes[index / 8]) / (1 << (7 - index % 8)) % 2;
        }
    }
    number
}
