// The seconds of a unit.
ghost use Rattle.std.specs.Prelude.{◌≡◌, ◌/◌};
ghost use Rattle.rule.specs.Moves.{ticks};

use rule::rrule::Frequency;

// The seconds of a period below DAILY; of a day otherwise.
// Not 86400 / ticks_of(freq): a period asks for it, and a division costs more.
pub fn unit_of(freq: Frequency) -> u64
    ensures { result ≡ 86400 / ticks freq }
{
    match freq {
        Frequency::Yearly | Frequency::Monthly | Frequency::Weekly | Frequency::Daily => 86400,
        Frequency::Hourly => 3600,
        Frequency::Minutely => 60,
        Frequency::Secondly => 1,
    }
}
