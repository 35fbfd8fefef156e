//! The words of files of a self-test that aren't of their form, or break a rule.

ghost use Rattle.std.specs.Prelude.{◌≡◌, ◌++◌, OnOk, decimal, codes};
ghost use Rattle.bb_read.specs.Lines.{form_words, rule_words};

use crate::refusal::FormRefusal;
use crate::spelled::put_counted;
use std::alloc::{AllocError, Global};

/// Appends the words of a file that isn't of its form.
pub(crate) fn put_form_words(
    alloc: Global,
    line: &mut Vec<u8>,
    refusal: &FormRefusal,
) -> Result<(), AllocError>
    ensures { OnOk result (line.new.items ≡ line.old.items ++ form_words refusal.now) }
{
    match refusal {
        FormRefusal::TooLong => line.extend_from_slice(b"too long"),
        FormRefusal::Line(number) => put_counted(alloc, line, b"line ", u64::from(*number)),
    }
}

/// Appends the words of a rule that isn't met.
pub(crate) fn put_rule(
    alloc: Global,
    line: &mut Vec<u8>,
    rule: u8,
    place: u32,
) -> Result<(), AllocError>
    ensures { OnOk result (line.new.items ≡ line.old.items ++ rule_words rule place) }
{
    put_counted(alloc, line, b"rule ", u64::from(rule))?;
    put_counted(alloc, line, b" at ", u64::from(place))
}
