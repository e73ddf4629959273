// The year after an opening, a registration, an LSE or a clearing, which all come before the first event, test or close: a step lays a row.
ghost use Rattle.std.specs.Prelude.{◌≡◌, true, false, ◌≤◌, ◌<◌};
ghost use Rattle.limits.specs.Limits.{registrations, lses, clearing_limit, nominated_limit, obligation_limit, rate_limit};
ghost use Rattle.year.specs.Year.{clearings_of};
ghost use Rattle.year.specs.Steps.{with_opening, with_registration, with_lse, with_clearing};
ghost use Rattle.year.specs.Sound.{SoundRegistration, Factors};
ghost use Rattle.year_cells.specs.Layout.{year_in};

use year::Registration;
use year_cells::{
    CLEARING_WIDTH, CLEARINGS_PLACE, OBLIGATIONS_PLACE, OPENED_PLACE, REGISTRATION_WIDTH,
    REGISTRATIONS_PLACE, YearCells, lay,
};

// An opening: the year's leap mark and factors.
pub fn add_opening(year: &mut YearCells, leap: u64, factor: u64, requirement: u64)
    requires factors { Factors leap factor requirement }
    ensures { year_in year.new.cells ≡ with_opening (year_in year.old.cells) leap factor requirement }
{
    lay(
        &mut year.cells,
        OPENED_PLACE,
        &[1, leap, factor, requirement],
    );
}

// One more registration, before any event, test or close. Its kilowatts are `units::Nominated`; the cells hold their number.
pub fn add_registration(year: &mut YearCells, id: usize, r: Registration)
    requires year_value { (year_in year.old.cells).started ≡ false }
    requires id_lt_registrations { id < registrations }
    requires known_value { r.known ≡ true }
    requires sound_registration { SoundRegistration r }
    ensures { year_in year.new.cells ≡ with_registration (year_in year.old.cells) id r }
{
    let committed = r.committed;
    let row = [1, r.seller, r.area, r.zone, r.product, committed.0, r.rate];
    lay(
        &mut year.cells,
        REGISTRATIONS_PLACE + REGISTRATION_WIDTH * id,
        &row,
    );
}

// One more LSE's obligation.
pub fn add_lse(year: &mut YearCells, id: usize, kw: u64)
    requires id_lt_lses { id < lses }
    requires kw_le_obligation_limit { kw ≤ obligation_limit }
    ensures { year_in year.new.cells ≡ with_lse (year_in year.old.cells) id kw }
{
    lay(&mut year.cells, OBLIGATIONS_PLACE + id, &[kw]);
}

// One more clearing of a registration that has fewer than four.
pub fn add_clearing(year: &mut YearCells, id: usize, price: u64, kw: u64)
    requires id_lt_registrations { id < registrations }
    requires id_bound { (clearings_of (year_in year.old.cells) id).count < clearing_limit }
    requires price_le_rate_limit { price ≤ rate_limit }
    requires le_kw { 1 ≤ kw }
    requires kw_le_nominated_limit { kw ≤ nominated_limit }
    ensures { year_in year.new.cells ≡ with_clearing (year_in year.old.cells) id price kw }
{
    let old = year_cells::clearings_at(&year.cells, id);
    let count = old.count;
    let value = old.value;
    let cleared = old.kw;
    let row = [count + 1, value + price * kw, cleared + kw];
    lay(&mut year.cells, CLEARINGS_PLACE + CLEARING_WIDTH * id, &row);
}
