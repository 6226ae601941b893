//! How a test of a rule fails.
ghost use Rattle.std.specs.Prelude.{◌≡◌};
ghost use Rattle.cert_rules.specs.Faults.{unless as unless_lem, unless_none as unless_none_lem};
ghost use Rattle.cert_state.specs.Shown.{shown_fault};

use cert_rules::Rule;

/// The first rule that fails, the address at which it does, and the two values that don't fit.
#[derive(Clone, Copy)]
pub struct Fault {
    pub rule: Rule,
    pub address: u16,
    pub left: i128,
    pub right: i128,
}

/// The fault, where the test fails.
pub fn unless(holds: bool, rule: Rule, address: u16, left: i128, right: i128) -> Option<Fault>
    ensures { shown_fault result ≡ unless_lem holds rule address left right }
{
    if holds {
        None
    } else {
        Some(Fault {
            rule,
            address,
            left,
            right,
        })
    }
}

/// The fault, where a number was found that there should not be.
pub fn unless_none(found: Option<u32>, rule: Rule, address: u16) -> Option<Fault>
    ensures { shown_fault result ≡ unless_none_lem found rule address }
{
    match found {
        None => None,
        Some(number) => Some(Fault {
            rule,
            address,
            left: number as i128,
            right: 0,
        }),
    }
}
