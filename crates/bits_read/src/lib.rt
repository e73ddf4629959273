// Fields of bits in a byte slice, the most significant bit of each byte first, read at a cursor by value: one field, a table of them, and items.
#![tactic(auto)]

ghost use Rattle.std.specs.Prelude.{◌≡◌, ◌+◌, ◌-◌, ◌/◌, ◌%◌, ◌^◌, ◌≤◌, length};
ghost use Rattle.bits.specs.Bits.{FieldFits, FieldRead};
ghost use Rattle.bits.specs.Table.{total, times, Fit, InWord};
ghost use Rattle.bits_read.specs.Fields.{fields_laid, items_laid};

mod words;

// The position of a bit.
#[derive(Clone, Copy)]
pub struct Cursor {
    pub at: usize,
}

// A field that was read, and where the next one is.
#[derive(Clone, Copy)]
pub struct Field {
    pub value: u64,
    pub next: Cursor,
}

// Items in a row: the bits that the fields of each take, and how many items there are.
#[derive(Clone, Copy)]
pub struct Items {
    pub bits: usize,
    pub count: usize,
}

impl Cursor {
    // The cursor at the first bit.
    pub fn first() -> Cursor
        ensures { result.at ≡ 0 }
    {
        Cursor { at: 0 }
    }

    // A field of width bits here, and the cursor behind it.
    pub fn field(self, value: u64, width: usize) -> Field
        requires { self.at + width ≤ 2 ^ 60 }
        ensures { (result.value ≡ value) × (result.next.at ≡ self.at + width) }
    {
        let end = self.at + width;
        Field {
            value,
            next: Cursor { at: end },
        }
    }

    // The field of width bits here.
    pub fn read_field(self, bytes: &[u8], width: usize) -> Field
        requires { FieldFits bytes.now self.at width }
        ensures { FieldRead bytes.now self.at width result.value result.next.at }
    {
        let word = words::ahead(bytes, self.at / 8);
        self.field(words::cut(word, self.at % 8, width), width)
    }

    // The field of width bits here, in a word.
    fn cut(self, word: u64, width: usize) -> Field
        requires le_width { (1 ≤ width) × (width ≤ 42) }
        requires width_bound { self.at + width ≤ 64 }
        ensures { (result.value ≡ word / 2 ^ (64 - (self.at + width)) % 2 ^ width) × (result.next.at ≡ self.at + width) }
    {
        self.field(words::cut(word, self.at, width), width)
    }

    // The fields of the widths ws from here on, so many bits, which lie in one word of eight bytes, into out from a place on; the cursor behind them. The word is read once, and each field cut out of it; the loop counts the word's bits, and ends where theirs do.
    pub fn read_fields(
        self,
        bytes: &[u8],
        ws: &[u8],
        bits: usize,
        out: &mut [u64],
        to: usize,
    ) -> Cursor
        requires in_word { InWord bytes.now self.at ws.now }
        requires bits_value { bits ≡ total ws.now }
        requires ws_in_bounds { to + length ws.now ≤ length out.old }
        ensures at_value { result.at ≡ self.at + total ws.now }
        ensures out_after { out.new ≡ fields_laid bytes.now self ws.now to out.old }
    {
        let first = self.at / 8;
        let word = words::ahead(bytes, first);
        let mut c = Cursor { at: self.at % 8 };
        let end = c.at + bits;
        for (i, w) in ws.iter().enumerate() {
            let f = c.cut(word, *w as usize);
            out[to + i] = f.value;
            c = f.next;
            // true at the last field alone: without this test the compiler unrolls the loop, and reading long lists takes a fifth longer
            if c.at == end {
                break;
            }
        }
        Cursor { at: self.at + bits }
    }

    // The fields of items from here on, each with fields of the widths ws, into out from a place on; the cursor behind them.
    pub fn read_items(
        self,
        bytes: &[u8],
        ws: &[u8],
        items: Items,
        out: &mut [u64],
        to: usize,
    ) -> Cursor
        requires fit { Fit bytes.now self.at (times items.count ws.now) }
        requires bits_value { items.bits ≡ total ws.now }
        requires le_bits { (1 ≤ items.bits) × (items.bits ≤ 57) }
        requires ws_in_bounds { to + length (times items.count ws.now) ≤ length out.old }
        ensures at_value { result.at ≡ self.at + total (times items.count ws.now) }
        ensures out_after { out.new ≡ items_laid bytes.now self items ws.now to out.old }
    {
        let mut c = self;
        let mut at = to;
        for k in 0..items.count {
            c = c.read_fields(bytes, ws, items.bits, out, at);
            at += ws.len();
        }
        c
    }
}
