// Numbers compared with lowest and highest values: one by one, in a column, in items.
ghost use Rattle.std.specs.Prelude.{◌≡◌, true, ◌+◌, ◌*◌, ◌≤◌, ◌<◌, T, length};
ghost use Rattle.bits.specs.Table.{narrow};
ghost use Rattle.record_layouts.specs.Parts.{between, within, column_within, items_within, hold_all, ColumnFits, ItemsFit};

// Is a number within its limits?
fn is_between(low: u64, high: u64, value: u64) -> bool
    ensures { result ≡ between low high value }
{
    (low..=high).contains(&value)
}

// n numbers, a stride from each other, from a place on, as `Parts.column_within` speaks of them (what may not change).
#[derive(Clone, Copy)]
struct Column {
    from: usize,
    stride: usize,
    n: usize,
}

// n items one after another, from a place on.
#[derive(Clone, Copy)]
pub struct Row {
    pub from: usize,
    pub n: usize,
}

// Is each number within its limits? By their places, since three slices in step make a nested `zip`, which is no plainer.
pub fn are_within(lows: &[u32], highs: &[u32], values: &[u64]) -> bool
    requires highs_len { length highs.now ≡ length lows.now }
    requires lows_in_bounds { length lows.now ≤ length values.now }
    ensures { result ≡ within lows.now highs.now values.now }
{
    for j in 0..lows.len() {
        if !is_between(u64::from(lows[j]), u64::from(highs[j]), values[j]) {
            return false;
        }
    }
    true
}

// Do these limits hold all numbers of so many bits?
fn hold_all(low: u64, high: u64, width: u8) -> bool
    requires { width ≤ 42 }
    ensures { result ≡ hold_all low high width }
{
    low == 0 && (1u64 << width) - 1 <= high
}

// Is each number of a column within these limits? Where they were read from fields of so many bits, limits that hold all of these need no test. From place to place, not by `step_by`: it wants a stride that is not 0, which no clause says.
fn column_within(read: bool, width: u8, low: u64, high: u64, values: &[u64], column: Column) -> bool
    requires width_bound { width ≤ 42 }
    requires column_fits { read ≡ true → ColumnFits width values.now column.from column.stride column.n }
    requires stride_in_bounds { column.n * column.stride ≤ length values.now }
    requires stride_in_bounds_2 { column.from + column.n * column.stride < length values.now + column.stride }
    ensures { result ≡ column_within low high values.now column.from column.stride column.n }
{
    if read && hold_all(low, high, width) {
        return true;
    }
    let mut p = column.from;
    for k in 0..column.n {
        if !is_between(low, high, values[p]) {
            return false;
        }
        p += column.stride;
    }
    true
}

// Is each number of a row of items within its limits? Field by field, so that the limits are looked up once.
pub fn items_within(
    read: bool,
    ws: &[u8],
    lows: &[u32],
    highs: &[u32],
    values: &[u64],
    row: Row,
) -> bool
    requires ws_len { length ws.now ≡ length lows.now }
    requires highs_len { length highs.now ≡ length lows.now }
    requires narrow { T (narrow ws.now) }
    requires items_fit { read ≡ true → ItemsFit ws.now values.now row.from row.n }
    requires lows_in_bounds { row.from + row.n * length lows.now ≤ length values.now }
    ensures { result ≡ items_within lows.now highs.now values.now row.from row.n }
{
    for j in 0..lows.len() {
        let column = Column {
            from: row.from + j,
            stride: lows.len(),
            n: row.n,
        };
        if !column_within(
            read,
            ws[j],
            u64::from(lows[j]),
            u64::from(highs[j]),
            values,
            column,
        ) {
            return false;
        }
    }
    true
}
