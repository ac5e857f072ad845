// What the desk holds, and why a command is refused.
ghost use Rattle.std.specs.Prelude.{◌≡◌};
ghost use Rattle.desk.specs.declared.state.Refused.TheVariants.{By};
ghost use Rattle.desk.specs.Answers.{refused_number};
ghost use Rattle.desk.specs.Model.{blank};

use plane::answer::Refusal;
use std::marker::Model;

// Three tables with room for 400 tiles, a working room as long, a list with room for 512 rules, and how many of them are used; was a `new`
// accepted, and a paint since? A contract sees a Desk as its model (specs/Model), in which of the list only the used rules count, and nothing of
// the working room; beside it stand those words (Known), as Copy asks. Two flags and no enum of three stages, since `answer` promises of a desk
// with any two.
#[derive(Clone, Copy)]
pub struct Desk {
    pub material: [u16; 3604],
    pub errors: [u16; 3604],
    pub waiting: [u16; 3604],
    pub work: [u16; 3604],
    pub rules: [u16; 4096],
    pub used: usize,
    pub ready: bool,
    pub painted: bool,
}

impl Model for Desk {
    ghost use Rattle.desk.specs.Model.{Known};

    ghost Value = { Known };

    ghost use Rattle.desk.specs.Kept.{known_of, Kept, desk_of};

    ghost view = { known_of };

    ghost invariant = { Kept };

    ghost inverse = { desk_of };
}

// Why a command is refused: by the call that it makes, since it is out of turn, or since it is no command.
#[derive(Clone, Copy, PartialEq, Eq)]
pub enum Refused {
    By(Refusal),
    OutOfTurn,
    Unknown,
}

impl From<Refusal> for Refused {
    ghost from_gives = { λ why e. e ≡ By why };

    fn from(why: Refusal) -> Refused {
        Refused::By(why)
    }
}

// The number that the reply names.
impl From<Refused> for u8 {
    ghost from_gives = { λ e n. n ≡ refused_number e };

    fn from(e: Refused) -> u8 {
        match e {
            Refused::By(why) => why as u8,
            Refused::OutOfTurn => 8,
            Refused::Unknown => 9,
        }
    }
}

impl Desk {
    // A desk before any command.
    #[tactic(auto, unfolding(crate::specs::Model::blank))]
    pub fn new() -> Desk
        ensures { result.model ≡ blank }
    {
        Desk {
            material: [0; 3604],
            errors: [0; 3604],
            waiting: [0; 3604],
            work: [0; 3604],
            rules: [0; 4096],
            used: 0,
            ready: false,
            painted: false,
        }
    }
}
