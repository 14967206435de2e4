// Places of a year's tables: the days of a year from 0 on, and the seven days after it.
ghost use Rattle.std.specs.Prelude.{◌≡◌, ◌+◌, ◌-◌};
ghost use Rattle.calendar.specs.Calendar.{days_of};
ghost use Rattle.nths.specs.Masks.{year_day_at, year_length_at};

pub fn days_of(long: bool) -> usize
    ensures { result ≡ days_of long }
{
    if long { 366 } else { 365 }
}

// The day of the year, counted from 1; past the year's end that of the next year.
pub fn year_day(long: bool, place: usize) -> usize
    ensures { result ≡ year_day_at long place }
{
    let length = days_of(long);
    if place < length {
        return place + 1;
    }
    place - length + 1
}

// The same from the year's end, where the last day is 1; past the next year's end it is 0.
pub fn year_day_from_end(long: bool, nextlong: bool, place: usize) -> usize
    ensures { result ≡ year_length_at long nextlong place + 1 - year_day_at long place }
{
    let length = days_of(long);
    if place < length {
        return length - place;
    }
    let end = days_of(nextlong) + length;
    end.saturating_sub(place)
}
