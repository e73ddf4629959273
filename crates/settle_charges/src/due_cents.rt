// A charge to date, from its due month on.
ghost use Rattle.std.specs.Prelude.{cond, ◌≡◌, ◌*◌, ◌/◌, ◌≤◌, leb};
ghost use Rattle.calendar.specs.Calendar.{due};

// The charge to date in cents, once the due month is reached.
pub fn cents(product: u64, month: u64, k: u64, days: u64, daily: u64) -> u64
    requires month_bound { month ≤ 12 }
    requires days_bound { days ≤ 366 }
    requires daily_bound { daily ≤ 14400000000 }
    ensures { result ≡ cond (leb (due product month) k) (daily * days / 1000) 0 }
{
    let from = calendar::due_month(product, month);
    if from <= k { daily * days / 1000 } else { 0 }
}
