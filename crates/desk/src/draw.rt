// The commands that change the picture: new and paint.
ghost use Rattle.std.specs.Prelude.{true, ◌≡◌, ℕ};
ghost use Rattle.desk.specs.Answers.{told};
ghost use Rattle.desk.specs.Model.{opened, painted_by};

use crate::state::{Desk, Refused};
use drawing::create::create;
use drawing::painting::paint;
use plane::tile::Area;
use replies::reply::Reply;

impl Desk {
    // new W H T: starts afresh, with no rules and no paint.
    pub fn new_window(&mut self, w: u16, h: u16, t: u16) -> Result<Reply, Refused>
        ensures { (line : ℕ) → (self.new.model, told result line) ≡ opened self.old.model line w h t }
    {
        create(
            &mut self.material,
            &mut self.errors,
            &mut self.waiting,
            w,
            h,
            t,
        )?;
        self.used = 0;
        self.ready = true;
        self.painted = false;
        Ok(Reply::Ok)
    }

    // paint: the area of the material, and the area waiting.
    pub fn paint(&mut self, a: Area, kind: u16) -> Result<Reply, Refused>
        ensures { self.old.model.ready ≡ true → (line : ℕ) → (self.new.model, told result line) ≡ painted_by self.old.model line a kind }
    {
        paint(
            &mut self.material,
            &self.errors,
            &mut self.waiting,
            &mut self.work,
            a,
            kind,
        )?;
        self.painted = true;
        Ok(Reply::Ok)
    }
}
