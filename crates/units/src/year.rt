// The year that a day lies in.
ghost use Rattle.std.specs.Prelude.{◌≡◌};
ghost use Rattle.units.specs.Years.{is_in_year, day_in, year_at};

use calendar::utils::year_of_day;
use weeks::yearinfo::Year;

// Whether a day lies in a year.
// Not by the `contains` of a range: its end is a sum, which could wrap.
pub fn covers(year: Year, day: u64) -> bool
    ensures { result ≡ is_in_year year day }
{
    if day < year.first {
        return false;
    }
    let place = day - year.first;
    if year.long { place < 366 } else { place < 365 }
}

// A day as a u32; 0 where it is far out of range.
// No Option: the clause `day_in` has a number for every day.
fn day_in(day: u64) -> u32
    ensures { result ≡ day_in day }
{
    if 4194304 <= day {
        return 0;
    }
    day as u32
}

// The year of a day.
pub fn year_at(day: u64) -> u32
    ensures { result ≡ year_at day }
{
    year_of_day(day_in(day))
}
