// The sets that a record holds of its lists: one flag for each slot.
ghost use Rattle.std.specs.Prelude.{◌≡◌, length};
ghost use Rattle.rule.specs.Lists.{is_empty};
ghost use Rattle.rule.specs.Records.{has_nth};

// Whether a set is empty: all flags are read, with no early exit, so that the time is short and always the same.
pub fn is_empty(flags: &[bool]) -> bool
    ensures { result ≡ is_empty flags.now }
{
    let mut found = false;
    for flag in flags {
        found = found | *flag;
    }
    !found
}

// Whether BYDAY's set has an entry with n not 0.
pub fn has_nth(byday: &[bool; 749]) -> bool
    ensures { result ≡ has_nth byday.now }
{
    !is_empty(&byday[..371]) | !is_empty(&byday[378..])
}
