//! The names by which reports tell the rules of certificates.
ghost use Rattle.std.specs.Prelude.{◌≡◌};
ghost use Rattle.job_files.specs.Rules.{rule_text};

use cert_rules::Rule;

/// The name of a rule.
pub fn rule_name(rule: Rule) -> &'static str
    ensures { result.now ≡ rule_text rule }
{
    match rule {
        Rule::Board => "Board",
        Rule::Boot => "Boot",
        Rule::Order => "Order",
        Rule::Head => "Head",
        Rule::Budget => "Budget",
        Rule::Gap => "Gap",
        Rule::Turns => "Turns",
        Rule::Form => "Form",
        Rule::Set => "Set",
        Rule::Place => "Place",
        Rule::Fresh => "Fresh",
        Rule::Writes => "Writes",
        Rule::Keep => "Keep",
        Rule::Call => "Call",
        Rule::Limit => "Limit",
        Rule::Edge => "Edge",
        Rule::Stretch => "Stretch",
        Rule::Range => "Range",
        Rule::Spent => "Spent",
    }
}
