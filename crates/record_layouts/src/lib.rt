// The record layouts as tables, a row a kind, and what the code looks up in them.
#![tactic(auto)]

ghost use Rattle.std.specs.Prelude.{◌≡◌, ◌≤◌, ◌<◌, length};
ghost use Rattle.record_layouts.specs.Layout.{layouts, lists, widths};
ghost use Rattle.record_layouts.specs.Parts.{start_of, kinds, parts, rules, lows, highs, row_of, row_at, Placed};

// How many kinds the tables have, 0 among them, which is none. A kind stays a number, not an enum: question 1 asks of any number whether
// it is a kind, and a row of the tables is found by it (what may not change: the clauses of `part_at` and of `record_checks::is_kind`).
pub const KINDS: u64 = 10;

// The fields of every part of every kind, part after part: a kind's head, then an item of each of its lists. What is no kind has none. Three tables, not one of a struct, since a reader and a writer of bits take a slice of widths alone. Their widths in bits,
static WIDTHS: [u8; 59] = [
    4, // opening
    1, // leap
    14, // DR Factor
    14, // Forecast Pool Requirement
    4, // registration
    6, // registration id
    4, // seller
    3, // area
    3, // zone
    2, // product
    17, // committed kW
    17, // rate
    4, // LSE
    4, // LSE id
    20, // obligation kW
    4, // event
    3, // area
    4, // month
    2, // period
    5, // deficits
    7, // entries
    4, // deficit: seller
    20, // deficit kW
    6, // entry: registration
    17, // reduction kW
    4, // test
    3, // zone
    2, // product
    4, // month
    5, // deficits
    7, // entries
    4, // deficit: seller
    20, // deficit kW
    6, // entry: registration
    17, // reduction kW
    4, // close
    4, // month
    4, // clearing
    6, // registration id
    17, // price
    17, // cleared kW
    4, // event of two reductions
    3, // area
    4, // month
    5, // deficits
    7, // entries
    4, // deficit: seller
    20, // deficit kW
    6, // entry: registration
    17, // on-peak reduction kW
    17, // off-peak reduction kW
    4, // retest
    4, // seller
    3, // zone
    2, // product
    4, // month
    7, // entries
    6, // entry: registration
    17, // reduction kW
];

// their lowest permitted values,
static LOWS: [u32; 59] = [
    1, // opening
    0, // leap
    1, // DR Factor
    1, // Forecast Pool Requirement
    2, // registration
    0, // registration id
    0, // seller
    0, // area
    0, // zone
    0, // product
    1, // committed kW
    0, // rate
    3, // LSE
    0, // LSE id
    1, // obligation kW
    4, // event
    0, // area
    1, // month
    1, // period
    0, // deficits
    1, // entries
    0, // deficit: seller
    1, // deficit kW
    0, // entry: registration
    0, // reduction kW
    5, // test
    0, // zone
    0, // product
    1, // month
    0, // deficits
    1, // entries
    0, // deficit: seller
    1, // deficit kW
    0, // entry: registration
    0, // reduction kW
    6, // close
    1, // month
    7, // clearing
    0, // registration id
    0, // price
    1, // cleared kW
    8, // event of two reductions
    0, // area
    1, // month
    0, // deficits
    1, // entries
    0, // deficit: seller
    1, // deficit kW
    0, // entry: registration
    0, // on-peak reduction kW
    0, // off-peak reduction kW
    9, // retest
    0, // seller
    0, // zone
    0, // product
    1, // month
    1, // entries
    0, // entry: registration
    0, // reduction kW
];

// and their highest.
static HIGHS: [u32; 59] = [
    1, // opening
    1, // leap
    12000, // DR Factor
    12000, // Forecast Pool Requirement
    2, // registration
    63, // registration id
    15, // seller
    7, // area
    7, // zone
    2, // product
    100000, // committed kW
    100000, // rate
    3, // LSE
    15, // LSE id
    1000000, // obligation kW
    4, // event
    7, // area
    12, // month
    3, // period
    16, // deficits
    64, // entries
    15, // deficit: seller
    1000000, // deficit kW
    63, // entry: registration
    100000, // reduction kW
    5, // test
    7, // zone
    2, // product
    12, // month
    16, // deficits
    64, // entries
    15, // deficit: seller
    1000000, // deficit kW
    63, // entry: registration
    100000, // reduction kW
    6, // close
    15, // month
    7, // clearing
    63, // registration id
    100000, // price
    100000, // cleared kW
    8, // event of two reductions
    7, // area
    12, // month
    16, // deficits
    64, // entries
    15, // deficit: seller
    1000000, // deficit kW
    63, // entry: registration
    100000, // on-peak reduction kW
    100000, // off-peak reduction kW
    9, // retest
    15, // seller
    7, // zone
    2, // product
    12, // month
    64, // entries
    63, // entry: registration
    100000, // reduction kW
];

// Where the fields of a part stand in the tables, from start up to end; the bits that they take; the place of the part's count among the numbers of its head, 0 for a head; and which of its fields are its first and its second reduction, 0 where it has none, as `Placed` says it.
#[derive(Clone, Copy)]
pub struct Part {
    pub start: usize,
    pub end: usize,
    pub bits: usize,
    pub count: usize,
    pub reduction: usize,
    pub second: usize,
}

pub fn widths_of_parts() -> &'static [u8; 59]
    ensures { result.now ≡ widths rules }
{
    &WIDTHS
}

pub fn lows_of_parts() -> &'static [u32; 59]
    ensures { result.now ≡ lows rules }
{
    &LOWS
}

pub fn highs_of_parts() -> &'static [u32; 59]
    ensures { result.now ≡ highs rules }
{
    &HIGHS
}

// The first part of each kind, and the end of the parts.
static FIRSTS: [usize; 11] = [0, 1, 2, 3, 4, 7, 10, 11, 12, 15, 17];

// The first part of a kind; past the last kind, the end of the parts.
fn first_of(kind: usize) -> usize
    requires { kind ≤ length layouts }
    ensures { result ≡ start_of kinds kind }
{
    FIRSTS[kind]
}

// How many lists a kind has.
#[tactic(auto, using(crate::specs::PartLaws::first_next))]
pub fn lists_of(kind: usize) -> usize
    requires { kind < length layouts }
    ensures { result ≡ length (lists kind) }
{
    first_of(kind + 1) - first_of(kind) - 1
}

fn row(start: usize, end: usize, bits: usize, count: usize, reduction: usize, second: usize) -> Part
    ensures { result ≡ row_of start end bits count reduction second }
{
    Part {
        start,
        end,
        bits,
        count,
        reduction,
        second,
    }
}

// The parts in order. A match, not a table of `Part`: a constant's value cannot call `row`, and a literal of six named fields takes eight lines a part, so that a table is no plainer.
#[tactic(auto, unfolding(crate::specs::Parts::join, crate::specs::Parts::start_of, crate::specs::Parts::kinds, crate::specs::Parts::parts, crate::specs::Parts::fields_in))]
fn row_at(part: usize) -> Part
    requires { part < length parts }
    ensures { result ≡ row_at part }
{
    match part {
        0 => row(0, 0, 0, 0, 0, 0), // no kind
        1 => row(0, 4, 33, 0, 0, 0), // opening
        2 => row(4, 12, 56, 0, 0, 0), // registration
        3 => row(12, 15, 28, 0, 0, 0), // LSE
        4 => row(15, 21, 25, 0, 0, 0), // event
        5 => row(21, 23, 24, 4, 0, 0), // its deficits
        6 => row(23, 25, 23, 5, 1, 0), // its entries
        7 => row(25, 31, 25, 0, 0, 0), // test
        8 => row(31, 33, 24, 4, 0, 0), // its deficits
        9 => row(33, 35, 23, 5, 1, 0), // its entries
        10 => row(35, 37, 8, 0, 0, 0), // close
        11 => row(37, 41, 44, 0, 0, 0), // clearing
        12 => row(41, 46, 23, 0, 0, 0), // event of two reductions
        13 => row(46, 48, 24, 3, 0, 0), // its deficits
        14 => row(48, 51, 40, 4, 1, 2), // its entries
        15 => row(51, 57, 24, 0, 0, 0), // retest
        _ => row(57, 59, 23, 5, 1, 0), // its entries
    }
}

// Part 0 of a kind is its head, part i + 1 its list i.
pub fn part_at(kind: usize, i: usize) -> Part
    requires kind_in_bounds { kind < length layouts }
    requires i_in_bounds { i ≤ length (lists kind) }
    ensures { Placed kind i result }
{
    row_at(first_of(kind) + i)
}
