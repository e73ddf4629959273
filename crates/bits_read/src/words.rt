// Fields cut out of words of up to eight bytes.
ghost use Rattle.std.specs.Prelude.{◌≡◌, ◌+◌, ◌-◌, ◌*◌, ◌/◌, ◌%◌, ◌^◌, ◌≤◌, ◌<◌, length};
ghost use Rattle.bits.specs.Bits.{field_at};

// The eight bytes from i on: as the compiler sees, one load.
fn eight(bytes: &[u8], i: usize) -> u64
    requires { i + 8 ≤ length bytes.now }
    ensures { result ≡ field_at bytes.now (8 * i) 64 }
{
    u64::from_be_bytes([
        bytes[i],
        bytes[i + 1],
        bytes[i + 2],
        bytes[i + 3],
        bytes[i + 4],
        bytes[i + 5],
        bytes[i + 6],
        bytes[i + 7],
    ])
}

// The bytes from first up to last, at most eight.
fn gathered(bytes: &[u8], first: usize, last: usize) -> u64
    requires first_le_last { first ≤ last }
    requires last_bound { last ≤ first + 8 }
    requires last_in_bounds { last ≤ length bytes.now }
    ensures { result ≡ field_at bytes.now (8 * first) (8 * (last - first)) }
{
    let mut acc: u64 = 0;
    for byte in &bytes[first..last] {
        acc = (acc << 8) | u64::from(*byte);
    }
    acc
}

// The bytes from first up to last, one to eight of them, at the top of a word.
fn top(bytes: &[u8], first: usize, last: usize) -> u64
    requires first_lt_last { first < last }
    requires last_bound { last ≤ first + 8 }
    requires last_in_bounds { last ≤ length bytes.now }
    ensures { result ≡ field_at bytes.now (8 * first) (8 * (last - first)) * 2 ^ (64 - 8 * (last - first)) }
{
    gathered(bytes, first, last) << (64 - 8 * (last - first))
}

// The width bits of a word behind its highest skip.
pub fn cut(word: u64, skip: usize, width: usize) -> u64
    requires le_width { 1 ≤ width }
    requires width_bound { width ≤ 42 }
    requires width_bound_2 { skip + width ≤ 64 }
    ensures { result ≡ word / 2 ^ (64 - (skip + width)) % 2 ^ width }
{
    (word << skip) >> (64 - width)
}

// The eight bytes from first on, zeros behind the last where there are fewer.
pub fn ahead(bytes: &[u8], first: usize) -> u64
    requires { first < length bytes.now }
    ensures { result ≡ field_at bytes.now (8 * first) 64 }
{
    let n = bytes.len();
    if first + 8 <= n {
        return eight(bytes, first);
    }
    if 8 <= n {
        return eight(bytes, n - 8) << (8 * (first + 8 - n));
    }
    top(bytes, first, n)
}
