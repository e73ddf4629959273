// A whole record file billed: each record's number, and the statements one after another.
#![tactic(auto)]

ghost use Rattle.bill_file.specs.Billed.{FileLeaves};

// How many records are answered, the bytes consumed, and the bytes of statements.
#[derive(Clone, Copy)]
pub struct Totals {
    pub answered: usize,
    pub used: usize,
    pub written: usize,
}

// Bills a record file from a new book: up to its end, an answer that ends it, or the end of the numbers. The index is the count of answers.
pub fn bill(records: &[u8], numbers: &mut [u64], statements: &mut [u8]) -> Totals
    ensures { FileLeaves records.now numbers statements result }
{
    let mut year = book::new_book();
    let mut used: usize = 0;
    let mut written: usize = 0;
    for answered in 0..numbers.len() {
        if used == records.len() {
            return Totals {
                answered,
                used,
                written,
            };
        }
        let posted = book::post(&mut year, &records[used..], &mut statements[written..]);
        let number = book::number_of(posted);
        numbers[answered] = number;
        used += book::used_of(posted);
        written += book::written_of(posted);
        if record_file::ends(number) {
            return Totals {
                answered: answered + 1,
                used,
                written,
            };
        }
    }
    Totals {
        answered: numbers.len(),
        used,
        written,
    }
}
