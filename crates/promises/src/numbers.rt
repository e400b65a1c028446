// The numbers that documents 01 and 02 give the rules.
ghost use Rattle.std.specs.Prelude.{◌≡◌};
ghost use Rattle.promises.specs.Numbers.{rule_number};

use rules::verdict::Rule;

// The paper's number of a rule.
pub fn rule_number(x: Rule) -> u32
    ensures { result ≡ rule_number x }
{
    match x {
        Rule::Range => 1,
        Rule::Order => 2,
        Rule::Opened => 3,
        Rule::Precharge => 4,
        Rule::Rc => 5,
        Rule::Rrd => 6,
        Rule::Faw => 7,
        Rule::Rcd => 8,
        Rule::Distance => 9,
        Rule::End => 10,
        Rule::Refresh => 11,
        Rule::Rfc => 12,
    }
}
