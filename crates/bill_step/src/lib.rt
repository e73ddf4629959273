// One record of the bill program: taken, and its answer printed.
#![tactic(auto)]

ghost use Rattle.std.specs.Prelude.{◌≡◌, ◌+◌};
ghost use Rattle.book.specs.Takes.{Takes};
ghost use Rattle.bill_step.specs.Answer.{Ready};
ghost use Rattle.bill_step.specs.Step.{Prints};

use book::Posted;
use refusals::Refused;
use year_cells::YearCells;

// What goes from record to record beside the year: the next record's position, and the place behind what is printed.
#[derive(Clone, Copy)]
pub struct Course {
    pub position: u64,
    pub at: usize,
}

// The call's answer, and how it goes on.
#[derive(Clone, Copy)]
pub struct Answered {
    pub posted: Result<Posted, Refused>,
    pub next: Course,
}

// Takes the record at the front of the bytes, and prints its report.
pub fn step(
    year: &mut YearCells,
    course: Course,
    bytes: &[u8],
    statement: &mut [u8],
    out: &mut [u8],
) -> Answered
    requires ready { Ready course bytes.now statement.old out.old }
    ensures posts { Takes year bytes.now statement result.posted }
    ensures prints { Prints year bytes.now statement out course result.next }
    ensures counts { result.next.position ≡ course.position + 1 }
{
    let position = course.position;
    // a number, for `answer_lines`
    let kind = bytes[0] >> 4;
    let posted = book::post(year, bytes, statement);
    let number = book::number_of(posted);
    let at = text_bill::answer_lines(position, kind, number, statement, out, course.at);
    let next = Course {
        position: position + 1,
        at,
    };
    Answered { posted, next }
}
