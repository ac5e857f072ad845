// The two macros. A macro is lent the whole list with the count of used rules, and writes behind them. The public calls are width and
// spacing. The list comes as its words and the count used, not as a RuleList of crate rules: that only reads, and a macro writes. The sets,
// the distance and the reason are parameters, as docs/STATEMENTS.md and the C interface name them.
ghost use Rattle.std.specs.Prelude.{length};
ghost use Rattle.plane.specs.Answers.{number, value};
ghost use Rattle.rules.specs.Vetting.{ListLength};
ghost use Rattle.macros.specs.Expansion.{Widened, Spaced, Appended};
ghost use Rattle.macros.specs.Both.{rules_of_both};

use crate::pairs::Pairs;
pub use crate::pairs::{Made, put_rule};
use crate::wanted::{Spacing, Width};
use plane::answer::Refusal;
use rules::list::list_tests;

// Appends the rules of one product of sets, and of another one, to those used, or says no where there is no room (7).
fn append(rules: &mut [u16], used: usize, one: Pairs, two: Option<Pairs>) -> Result<usize, Refusal>
    requires { ListLength (length rules.old) used }
    ensures { Appended rules.old used (rules_of_both one two) (number result) (value result) rules.new }
{
    let more = one.count() + two.map_or(0, Pairs::count);
    if rules.len() / 8 - used < more {
        return Err(Refusal::Full);
    }
    let next = one.put(rules, used);
    Ok(match two {
        Some(two) => two.put(rules, next),
        None => next,
    })
}

// Appends the width rules of a set to a list, or says no with 1, 2, 4 or 7.
pub fn width(
    rules: &mut [u16],
    used: usize,
    t: u16,
    set: u16,
    d: u16,
    reason: u16,
) -> Result<usize, Refusal>
    ensures { Widened rules.old used t set d reason (number result) (value result) rules.new }
{
    list_tests(rules.len(), used, t)?;
    let wanted = Width { t, set, d, reason };
    if !wanted.is_sound() {
        return Err(Refusal::NoRule);
    }
    append(rules, used, wanted.pairs(), None)
}

// Appends the spacing rules of two sets to a list, or says no with 1, 2, 4 or 7.
#[tactic(auto, using(crate::proofs::Spaces::spaceable, crate::proofs::Expands::listed))]
pub fn spacing(
    rules: &mut [u16],
    used: usize,
    t: u16,
    a: u16,
    b: u16,
    d: u16,
    touch: u16,
    reason: u16,
) -> Result<usize, Refusal>
    ensures { Spaced rules.old used t a b d touch reason (number result) (value result) rules.new }
{
    list_tests(rules.len(), used, t)?;
    let wanted = Spacing {
        t,
        a,
        b,
        d,
        touch,
        reason,
    };
    if !wanted.is_sound() {
        return Err(Refusal::NoRule);
    }
    let there = wanted.half();
    let back = if a == b {
        None
    } else {
        Some(wanted.exchanged().half())
    };
    append(rules, used, there, back)
}
