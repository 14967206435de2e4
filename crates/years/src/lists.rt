// Which day lists a rule has.
ghost use Rattle.std.specs.Prelude.{◌≡◌};
ghost use Rattle.years.specs.Info.{asked_of};

use basics::lists::{has_nth, is_empty};
use rule::rrule::Rule;

// Which day lists a rule has, and whether BYDAY has entries with n not 0.
#[derive(Clone, Copy)]
pub struct Asked {
    pub month: bool,
    pub monthday: bool,
    pub yearday: bool,
    pub weekno: bool,
    pub day: bool,
    pub nth: bool,
}

pub fn asked_lists(rule: &Rule) -> Asked
    ensures { result ≡ asked_of rule.now }
{
    Asked {
        month: !is_empty(&rule.bymonth),
        monthday: !is_empty(&rule.bymonthday),
        yearday: !is_empty(&rule.byyearday),
        weekno: !is_empty(&rule.byweekno),
        day: !is_empty(&rule.byday),
        nth: has_nth(&rule.byday),
    }
}
