// An amount a seller, allotted over its registrations: sixteen allotments side by side in five rows of the working table.
ghost use Rattle.std.specs.Prelude.{◌+◌, ◌≤◌, ◌<◌};
ghost use Rattle.limits.specs.Limits.{sellers};
ghost use Rattle.allotment.specs.Stepper.{Asks};
ghost use Rattle.settle_table.specs.Places.{allotment_width, size};
ghost use Rattle.settle_table.specs.Allotments.{stepper, Shared};

use crate::Work;
use allotment::Allotment;
use limits::SELLERS;

// The rows: the sums of all weights, then the amounts, the weights passed, the last quotients and the divisions.
pub const AMOUNT: usize = SELLERS;

const PASSED: usize = AMOUNT + SELLERS;

const QUOTIENT: usize = PASSED + SELLERS;

const DIVISIONS: usize = QUOTIENT + SELLERS;

pub const ALLOTMENT_WIDTH: usize = DIVISIONS + SELLERS;

// The share of seller s's next weight, in the rows from p on.
pub fn share(work: &mut Work, p: usize, s: usize, weight: u64) -> u64
    requires within { (p + allotment_width ≤ size) × (s < sellers) }
    requires asks { Asks (stepper p work.old s) weight }
    ensures { Shared p s weight work.old work.new result }
{
    let before = Allotment {
        amount: crate::get(work, p + AMOUNT, s),
        total: crate::get(work, p, s),
        passed: crate::get(work, p + PASSED, s),
        quotient: crate::get(work, p + QUOTIENT, s),
        divisions: crate::get(work, p + DIVISIONS, s),
    };
    let share = before.share(weight);
    let next = share.next;
    crate::put(work, p + PASSED, s, next.passed);
    crate::put(work, p + QUOTIENT, s, next.quotient);
    crate::put(work, p + DIVISIONS, s, next.divisions);
    share.value
}
