// The questions that are asked of a call at its entry.
ghost use Rattle.std.specs.Prelude.{◌≡◌, ◌≤◌, not, length, MatchResult, Some, None};
ghost use Rattle.code.specs.Meaning.{ranked};
ghost use Rattle.machine.specs.Texts.{Text, first_place};
ghost use Rattle.refusal.specs.Numbers.{number_of};
ghost use Rattle.ttm.specs.Entering.{Admitted, areas_of};
ghost use Rattle.machine.specs.Calls.{turned_away, look, expand};

use code::Code;
use machine::Limits;
use refusal::Refusal;
use signs::Signs;

// The most steps that may be allowed.
const MOST_STEPS: usize = 1_000_000;

// Is this byte a character or the end of line?
fn is_ranked<C: Code>(signs: &Signs<C>, byte: u8) -> bool
    ensures { result ≡ ranked C.Code.meaning byte }
{
    signs.code.is_character(byte) || byte == signs.end_of_line
}

// The place of the first byte of a source that is neither a character nor an end of line.
pub(crate) fn foreign_place<C: Code>(signs: &Signs<C>, source: &[u8]) -> Option<usize>
    ensures { result ≡ first_place (λ b. not (ranked C.Code.meaning b)) source.now }
{
    for (place, byte) in source.iter().enumerate() {
        if !is_ranked(signs, *byte) {
            return Some(place);
        }
    }
    None
}

// Are the areas of an expansion long enough, and is the allowance in range?
pub(crate) fn admit_expansion(
    limits: Limits,
    store: usize,
    scan: usize,
    print: usize,
    allowance: usize,
) -> Result<(), Refusal>
    ensures { (source : Text) → MatchResult result (λ _. Admitted limits allowance source (areas_of store scan print)) (λ e. (turned_away limits (expand allowance source (areas_of store scan print)) ≡ Some e) × (number_of e ≤ 12)) }
{
    if store < limits.store || scan < limits.scan || print < limits.print {
        return Err(Refusal::AreaTooShort);
    }
    if allowance > MOST_STEPS {
        return Err(Refusal::AllowanceOutOfRange);
    }
    Ok(())
}

// Is the area of a look long enough?
pub(crate) fn admit_look(limits: Limits, store: usize) -> Result<(), Refusal>
    ensures { (name : Text) → MatchResult result (λ _. (turned_away limits (look name store) ≡ None) × (limits.store ≤ store)) (λ e. turned_away limits (look name store) ≡ Some e) }
{
    if store < limits.store {
        return Err(Refusal::AreaTooShort);
    }
    Ok(())
}
