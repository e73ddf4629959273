// The questions from 6 on, put to a record of any kind.
#![tactic(auto)]

ghost use Rattle.std.specs.Prelude.{◌≡◌};
ghost use Rattle.ids.specs.Ids.{at};
ghost use Rattle.year.specs.declared.Listing.{Listing};
ghost use Rattle.year_cells.specs.Layout.{listing_at, year_in};
ghost use Rattle.record_heads.specs.Within.{Within};
ghost use Rattle.refusals.specs.Numbers.{answered};
ghost use Rattle.question_list.specs.Questions.{number_in};

use limits::STATEMENT_BYTES;
use question_event_and_test::{ask_event, ask_test};
use question_list::ask_open;
use question_retest::ask_retest;
use question_setup::{ask_clearing, ask_lse, ask_registration};
use record_heads::{CloseHead, Head};
use refusals::Refusal;
use year_cells::{LISTING_WIDTH, YearCells};

// The questions put to a close.
fn ask_close(year: &YearCells, c: CloseHead, room: usize) -> Result<(), Refusal>
    ensures { (l : Listing) → answered result ≡ number_in (year_in year.now.cells) (Head.Close c) l room }
{
    ask_open(year)?;
    refusals::ask(
        c.month == year_cells::closed(&year.cells) + 1,
        Refusal::NotNextMonth,
    )?;
    refusals::ask(STATEMENT_BYTES <= room, Refusal::NoRoom)
}

// The questions from 6 on, put to a record of any kind. The listing is a row by id.
pub fn ask(
    year: &YearCells,
    head: Head,
    listing: &[u64; LISTING_WIDTH],
    room: usize,
) -> Result<(), Refusal>
    requires within { Within head }
    ensures { answered result ≡ number_in (year_in year.now.cells) head (listing_at (at listing.now)) room }
{
    match head {
        Head::Opening(_) => refusals::ask(!year_cells::opened(&year.cells), Refusal::Opening),
        Head::Registration(r) => ask_registration(&year.cells, r),
        Head::Lse(j) => ask_lse(&year.cells, j),
        Head::Event(e) => ask_event(year, e, listing),
        Head::Test(t) => ask_test(year, t, listing),
        Head::Close(c) => ask_close(year, c, room),
        Head::Clearing(c) => ask_clearing(&year.cells, c),
        Head::Retest(t) => ask_retest(year, t, listing),
    }
}
