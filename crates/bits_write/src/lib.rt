// A writer by value: it writes fields one right after another from the first bit on, and holds back the bits of a word that is not whole yet.
#![tactic(auto)]

ghost use Rattle.std.specs.Prelude.{◌≡◌, ◌+◌, ◌*◌, ◌^◌, ◌≤◌, ◌<◌, T, length};
ghost use Rattle.bits.specs.Table.{total, times, narrow, Valid};
ghost use Rattle.bits_write.specs.Held.{Held, Out};

// The next byte, and the bits held back from it on: how many, less than a word of eight bytes, and the number that they spell.
#[derive(Clone, Copy)]
pub struct Writer {
    pub at: usize,
    pub waiting: usize,
    pub rest: u64,
    ghost ready: { Held waiting rest },
}

// The last n bytes of a word over the bytes from a place on, the most significant first.
fn out(bytes: &mut [u8], at: usize, n: usize, word: u64)
    requires n_bound { n ≤ 8 }
    requires word_bound { word < 2 ^ (8 * n) }
    requires n_in_bounds { at + n ≤ length bytes.old }
    ensures { Out bytes.old bytes.new at n word }
{
    bytes[at..at + n].copy_from_slice(&word.to_be_bytes()[8 - n..]);
}

impl Writer {
    ghost use Rattle.bits_write.specs.Written.{written_bits, Wrote, PutAll, PutItems, Finished};

    pub fn new() -> Writer
        ensures { (result.at ≡ 0) × (result.waiting ≡ 0) × (result.rest ≡ 0) }
    {
        Writer {
            at: 0,
            waiting: 0,
            rest: 0,
        }
    }

    // The value in the next width bits: a word of eight bytes that is whole now goes out.
    pub fn put(self, bytes: &mut [u8], width: usize, value: u64) -> Writer
        requires width_bound { width ≤ 42 }
        requires value_bound { value < 2 ^ width }
        requires width_bound_2 { written_bits self + width ≤ 8 * length bytes.old }
        ensures { Wrote bytes.old bytes.new self result width value }
    {
        let bits = self.waiting + width;
        if bits < 64 {
            return Writer {
                at: self.at,
                waiting: bits,
                rest: (self.rest << width) | value,
            };
        }
        let over = bits - 64;
        out(
            bytes,
            self.at,
            8,
            (self.rest << (width - over)) | (value >> over),
        );
        Writer {
            at: self.at + 8,
            waiting: over,
            rest: value & ((1u64 << over) - 1),
        }
    }

    // The values in fields of the widths ws.
    pub fn put_all(self, bytes: &mut [u8], ws: &[u8], values: &[u64]) -> Writer
        requires narrow { T (narrow ws.now) }
        requires values_len { length values.now ≡ length ws.now }
        requires valid { Valid ws.now values.now }
        requires ws_bound { written_bits self + total ws.now ≤ 8 * length bytes.old }
        ensures { PutAll bytes.old bytes.new self result ws.now values.now }
    {
        let mut p = self;
        for (w, v) in ws.iter().zip(values) {
            p = p.put(bytes, *w as usize, *v);
        }
        p
    }

    // The values in n items, each with fields of the widths ws. From place to place, not by `chunks`: these want a size that is not 0, which no clause says of ws.
    pub fn put_items(self, bytes: &mut [u8], ws: &[u8], n: usize, values: &[u64]) -> Writer
        requires narrow { T (narrow ws.now) }
        requires values_len { length values.now ≡ length (times n ws.now) }
        requires valid { Valid (times n ws.now) values.now }
        requires ws_bound { written_bits self + total (times n ws.now) ≤ 8 * length bytes.old }
        ensures { PutItems bytes.old bytes.new self result n ws.now values.now }
    {
        let mut p = self;
        let mut i = 0;
        for k in 0..n {
            let end = i + ws.len();
            p = p.put_all(bytes, ws, &values[i..end]);
            i = end;
        }
        p
    }

    // Zero bits up to the end of the byte; how many bytes are written.
    pub fn finish(self, bytes: &mut [u8]) -> usize
        requires self_bound { written_bits self ≤ 8 * length bytes.old }
        ensures { Finished bytes.old bytes.new self result }
    {
        let size = (self.waiting + 7) / 8;
        out(bytes, self.at, size, self.rest << (8 * size - self.waiting));
        self.at + size
    }
}
