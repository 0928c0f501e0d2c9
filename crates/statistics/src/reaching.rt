// The greatest length in a unit, by the room for it.
ghost use Rattle.std.specs.Prelude.{◌≡◌, ◌*◌, ◌<◌, ◌≤◌, not, ◌&&◌, leb, eqb};
ghost use Rattle.statistics.specs.Tallies.{most_units, units_in, reach};

// How many of its units an object has at most, by the edition. A number, as `words::edition` gives it: an enum would be
// made for one comparison.
pub(crate) fn most_units(edition: u8) -> usize
    ensures { (result ≡ most_units edition) × (result ≤ 1023) }
{
    if edition == 0 {
        return 1023;
    }
    511
}

// The units that there is room for, and an object may have. That the unit is above 0 is a clause here and in others: it
// is one of four constants, and a type would wrap a number that is read once.
fn units_in(room: usize, unit: usize, units: usize) -> usize
    requires { 0 < unit }
    ensures { (result ≡ units_in room unit units) × (result ≤ units) }
{
    (room / unit).min(units)
}

// Whether these are too few: an object whose unit is not 8 has more than half as many units as it may have.
fn is_short(count: usize, unit: usize, units: usize) -> bool
    requires { count ≤ 1023 }
    ensures { result ≡ (not (eqb unit 8) && leb (2 * count) units) }
{
    if unit == 8 {
        return false;
    }
    2 * count <= units
}

// The greatest length that they make.
pub(crate) fn reach(room: usize, unit: usize, units: usize) -> usize
    requires { (0 < unit) × (unit ≤ 64) × (units ≤ 1023) }
    ensures { result ≡ reach room unit units }
{
    let count = units_in(room, unit, units);
    if is_short(count, unit, units) {
        return 0;
    }
    count * unit
}
