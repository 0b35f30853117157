// Which rule the front of the right text asks for.
ghost use Rattle.std.specs.Prelude.{◌≡◌, ◌+◌, ◌≤◌, ◌∷◌, length};
ghost use Rattle.machine.specs.Scan.{rule as rule_for};
ghost use Rattle.scan.specs.Fronts.{width};

use code::Code;
use machine::Rule;
use signs::Signs;

// What a `#` with the text behind it asks for.
fn opening<C: Code>(signs: &Signs<C>, rest: &[u8]) -> Rule
    ensures value { (inside : _) → result ≡ rule_for C.Code.meaning inside (C.Code.meaning.named 35 ∷ rest.now) }
    ensures within { width result ≤ length rest.now + 1 }
{
    if rest.starts_with(&[signs.sharp, signs.less]) {
        Rule::OpenPassive
    } else if rest.starts_with(&[signs.less]) {
        Rule::OpenActive
    } else {
        Rule::Other
    }
}

pub fn rule_at_front<C: Code>(signs: &Signs<C>, inside: bool, right: &[u8]) -> Rule
    ensures value { result ≡ rule_for C.Code.meaning inside right.now }
    ensures within { 1 ≤ length right.now → width result ≤ length right.now }
{
    let [first, rest @ ..] = right else {
        return Rule::Other;
    };
    let first = *first;
    if first == signs.end_of_line {
        Rule::EndOfLine
    } else if first == signs.at {
        Rule::Escape
    } else if first == signs.sharp {
        opening(signs, rest)
    } else if first == signs.less {
        Rule::Bracket
    } else if inside && first == signs.semicolon {
        Rule::Separator
    } else if inside && first == signs.greater {
        Rule::Close
    } else {
        Rule::Other
    }
}
