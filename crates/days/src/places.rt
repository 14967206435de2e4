// The weekday at a place of a year's tables, and the next.
ghost use Rattle.std.specs.Prelude.{◌≡◌, ◌+◌, ◌%◌, ◌<◌};
ghost use Rattle.calendar.specs.Calendar.{weekday};

// The weekday at a place of the year with this first day.
pub(crate) fn weekday_at(first: u64, place: usize) -> usize
    requires { place < 373 }
    ensures { result ≡ weekday (first + place) }
{
    ((first % 7 + place as u64) % 7) as usize
}

// The weekday after another.
pub(crate) fn next_weekday(weekday: usize) -> usize
    requires { weekday < 7 }
    ensures { result ≡ (weekday + 1) % 7 }
{
    if weekday < 6 { weekday + 1 } else { 0 }
}
