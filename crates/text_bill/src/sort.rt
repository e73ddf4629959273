// A sort of parties in a statement.
ghost use Rattle.std.specs.Prelude.{◌≤◌};

// The line of each: its letter, and how many amounts behind the id.
#[derive(Clone, Copy)]
pub struct Sort {
    pub letter: u8,
    pub amounts: usize,
    pub ghost few: { amounts ≤ 3 },
}
