// Numbers of any width up to 32 bits, read from bytes, the most significant bit first.
ghost use Rattle.std.specs.Prelude.{◌≡◌, ◌+◌, ◌*◌, ◌≤◌, length};
ghost use Rattle.layout.specs.Bits.{field};

// The number in `width` bits from bit `from` on.
pub fn bits(src: &[u8], from: usize, width: usize) -> u32
    requires within { from + width ≤ 8 * length src.now }
    requires narrow { (width ≤ 32) × (from ≤ 160) }
    ensures answer { result ≡ field src.now from width }
{
    let first = from / 8;
    let end = (from + width).div_ceil(8);
    let mut word = 0u64;
    for byte in &src[first..end] {
        word = word << 8 | *byte as u64;
    }
    ((word >> (8 * end - from - width)) & ((1 << width) - 1)) as u32
}
