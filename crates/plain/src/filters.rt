// Whether BYMONTH has a month.
ghost use Rattle.std.specs.Prelude.{◌≡◌};
ghost use Rattle.plain.specs.DaySets.{has_month};

// A number that is no month is in no list.
pub fn has_month(bymonth: &[bool; 12], month: u8) -> bool
    ensures { result ≡ has_month bymonth.now month }
{
    (1..=12).contains(&month) && bymonth[month as usize - 1]
}
