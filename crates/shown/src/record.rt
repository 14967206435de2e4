// A record whole, with its fresh cursor.
use crate::ShownCursor;
use basics::rrule::fresh;
use rule::rrule::Rule;
use std::fmt;

#[derive(Clone, Copy)]
pub struct ShownRecord<'a>(pub &'a Rule);

impl<'a> fmt::Display for ShownRecord<'a> {
    fn fmt<W: fmt::Write>(&self, f: &mut fmt::Formatter<W>) -> fmt::Result {
        let rule = self.0;
        let freq = rule.freq as u8;
        write!(
            f,
            " freq={freq} interval={} wkst={} start={}",
            rule.interval, rule.wkst, rule.start
        )?;
        if let Some(count) = rule.count {
            write!(f, " count={count}")?;
        }
        if let Some(until) = rule.until {
            write!(f, " until={until}")?;
        }
        write_sets(rule, f)?;
        write!(f, " {}", ShownCursor(fresh(rule)))
    }
}

fn write_sets<W: fmt::Write>(rule: &Rule, f: &mut fmt::Formatter<W>) -> fmt::Result {
    write_set("bymonth", &rule.bymonth, f)?;
    write_set("bymonthday", &rule.bymonthday, f)?;
    write_set("byyearday", &rule.byyearday, f)?;
    write_set("byweekno", &rule.byweekno, f)?;
    write_set("byday", &rule.byday, f)?;
    write_set("byhour", &rule.byhour, f)?;
    write_set("byminute", &rule.byminute, f)?;
    write_set("bysecond", &rule.bysecond, f)?;
    write_set("bysetpos", &rule.bysetpos, f)
}

// A set that isn't empty: the number of its flags, and from which slot to which.
fn write_set<W: fmt::Write>(name: &str, flags: &[bool], f: &mut fmt::Formatter<W>) -> fmt::Result {
    let Some(first) = flags.iter().position(|flag| *flag) else {
        return Ok(());
    };
    let last = flags.iter().rposition(|flag| *flag).unwrap_or(first);
    let count = flags.iter().filter(|flag| **flag).count();
    write!(f, " {name}={count}@{first}..{last}")
}
