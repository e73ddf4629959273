// A close's statement written into a lent buffer: its front, then a line for each party.
ghost use Rattle.std.specs.Prelude.{◌≡◌, ◌+◌, ◌*◌, ◌^◌, ◌≤◌, ◌<◌, length};
ghost use Rattle.limits.specs.Limits.{parties, close_limit, statement_limit};
ghost use Rattle.year.specs.Sound.{SoundTerms, SoundAmounts};
ghost use Rattle.bits_write.specs.Written.{written_bits};
ghost use Rattle.statement.specs.Statement.{difference, seller_columns, party_lines, statement_of, issued_over};
ghost use Rattle.statement.specs.Columns.{Columns};
ghost use Rattle.statement.specs.WrittenFields.{WrittenFields, PutLine, PutLines};

use crate::{count, obliged, present};
use bits_write::Writer;
use limits::{PARTIES, SELLERS};
use year::{Amounts, Terms};

// An amount less another, in 42 bits of two's complement.
fn difference(owed: u64, billed: u64) -> u64
    requires { (owed < 2 ^ 41) × (billed < 2 ^ 41) }
    ensures { result ≡ difference owed billed }
{
    owed.wrapping_sub(billed) % (1 << 42)
}

// The sellers' amounts in columns, one after another: one list, as `Statement.seller_columns` is (what may not change).
fn columns(amounts: Amounts) -> [u64; 48]
    requires { SoundAmounts amounts }
    ensures { result ≡ seller_columns amounts }
{
    let mut columns = [0u64; 48];
    columns[..SELLERS].copy_from_slice(&amounts.compliance);
    columns[SELLERS..2 * SELLERS].copy_from_slice(&amounts.test);
    columns[2 * SELLERS..48].copy_from_slice(&amounts.credit);
    columns
}

// A party's line: its id, and its n amounts. By index: the amounts of a party stand a column apart, which no slice of one column says plainer.
fn put_line(w: Writer, out: &mut [u8], id: usize, n: usize, owed: &[u64], billed: &[u64]) -> Writer
    requires id_lt_parties { id < parties }
    requires columns { Columns n owed.now × Columns n billed.now }
    requires n_bound { written_bits w + (4 + 42 * n) ≤ 8 * length out.old }
    ensures { PutLine out.old out.new w result n owed.now billed.now id }
{
    let mut r = w.put(out, 4, id as u64);
    for k in 0..n {
        let place = PARTIES * k + id;
        r = r.put(out, 42, difference(owed[place], billed[place]));
    }
    r
}

// The lines of the marked parties.
fn put_lines(
    w: Writer,
    out: &mut [u8],
    marks: [bool; PARTIES],
    n: usize,
    owed: &[u64],
    billed: &[u64],
) -> Writer
    requires columns { Columns n owed.now × Columns n billed.now }
    requires parties_bound { written_bits w + (4 + 42 * n) * parties ≤ 8 * length out.old }
    ensures { PutLines out.old out.new w result marks n owed.now billed.now }
{
    let mut r = w;
    for (id, marked) in marks.iter().enumerate() {
        if *marked {
            r = put_line(r, out, id, n, owed, billed);
        }
    }
    r
}

// The lines of the marked sellers, then those of the marked LSEs.
fn put_parties(
    w: Writer,
    out: &mut [u8],
    sellers: [bool; PARTIES],
    lses: [bool; PARTIES],
    owed: Amounts,
    billed: Amounts,
) -> Writer
    requires sound_amounts { SoundAmounts owed × SoundAmounts billed }
    requires w_bound { written_bits w + 2816 ≤ 8 * length out.old }
    ensures { WrittenFields out.old out.new w result (party_lines sellers lses owed billed) }
{
    let lines = put_lines(w, out, sellers, 3, &columns(owed), &columns(billed));
    put_lines(lines, out, lses, 1, &owed.lse, &billed.lse)
}

// The statement's bits, at the start of a buffer that has room for the largest; how many bytes they take.
pub fn write_statement(
    terms: Terms,
    month: u64,
    owed: Amounts,
    billed: Amounts,
    bytes: &mut [u8],
) -> usize
    requires sound_terms { SoundTerms terms }
    requires month_le_close_limit { month ≤ close_limit }
    requires sound_amounts { SoundAmounts owed }
    requires sound_amounts_2 { SoundAmounts billed }
    requires statement_limit_in_bounds { statement_limit ≤ length bytes.old }
    ensures leaves { bytes.new ≡ issued_over terms month owed billed bytes.old }
    ensures writes { result ≡ length (statement_of terms month owed billed) }
{
    let sellers = present(terms);
    let lses = obliged(terms);
    let front = [month, count(sellers), count(lses)];
    let w = Writer::new().put_all(bytes, &[4, 5, 5], &front);
    put_parties(w, bytes, sellers, lses, owed, billed).finish(bytes)
}
