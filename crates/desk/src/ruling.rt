// The commands that add rules: rule, width and spacing. T is the material's.
ghost use Rattle.std.specs.Prelude.{true, [], ◌∷◌, ◌≡◌, ◌≤◌, ℕ};
ghost use Rattle.macros.specs.Macros.{width, width_sound, spacing, spacing_sound};
ghost use Rattle.rules.specs.Words.{sound};
ghost use Rattle.desk.specs.Answers.{told, may_rule};
ghost use Rattle.desk.specs.Model.{kinds_of, added};

use crate::state::{Desk, Refused};
use macros::macros::{put_rule, spacing, width};
use plane::answer::Refusal;
use replies::reply::Reply;
use rules::rule::Rule;

// Rules are not taken after a paint.
fn may_rule(painted: bool) -> Result<(), Refused>
    ensures { result ≡ may_rule painted }
{
    if painted {
        return Err(Refused::OutOfTurn);
    }
    Ok(())
}

impl Desk {
    // rule: one rule put behind the used ones.
    #[tactic(auto, using(crate::proofs::Rulings::full_comes))]
    pub fn add_rule(&mut self, r: Rule) -> Result<Reply, Refused>
        requires { kinds_of self.old.model ≤ 16 }
        ensures { self.old.model.ready ≡ true → (line : ℕ) → (self.new.model, told result line) ≡ added self.old.model line (sound (kinds_of self.old.model) r) (r ∷ []) }
    {
        if !r.is_sound(self.material[3]) {
            return Err(Refused::By(Refusal::NoRule));
        }
        if 512 <= self.used {
            return Err(Refused::By(Refusal::Full));
        }
        may_rule(self.painted)?;
        put_rule(&mut self.rules, self.used, r);
        self.used += 1;
        Ok(Reply::Ok)
    }

    // width S d reason: the macro's rules behind the used ones. Its refusals go before that after a paint, when the used rules stay as they
    // are, whatever was written behind them.
    pub fn add_width(&mut self, set: u16, d: u16, reason: u16) -> Result<Reply, Refused>
        ensures { self.old.model.ready ≡ true → (line : ℕ) → (self.new.model, told result line) ≡ added self.old.model line (width_sound (kinds_of self.old.model) set d) (width (kinds_of self.old.model) set d reason) }
    {
        let used = width(&mut self.rules, self.used, self.material[3], set, d, reason)?;
        may_rule(self.painted)?;
        self.used = used;
        Ok(Reply::Ok)
    }

    // spacing A B d touch reason: the same.
    pub fn add_spacing(
        &mut self,
        a: u16,
        b: u16,
        d: u16,
        touch: u16,
        reason: u16,
    ) -> Result<Reply, Refused>
        ensures { self.old.model.ready ≡ true → (line : ℕ) → (self.new.model, told result line) ≡ added self.old.model line (spacing_sound (kinds_of self.old.model) a b d touch) (spacing (kinds_of self.old.model) a b d touch reason) }
    {
        let t = self.material[3];
        let used = spacing(&mut self.rules, self.used, t, a, b, d, touch, reason)?;
        may_rule(self.painted)?;
        self.used = used;
        Ok(Reply::Ok)
    }
}
