// The public call Roll: questions 1 to 8, then the commands one after the other.
ghost use Rattle.std.specs.Prelude.{◌≡◌, [], ◌∷◌, ◌++◌, ◌+◌, length};
ghost use Rattle.grid.specs.Layer.{layer_of, size_of};
ghost use Rattle.grid.specs.Questions.{first_no};
ghost use Rattle.grid.specs.Plain.{plain};
ghost use Rattle.held.specs.Questions.{held_questions};
ghost use Rattle.roll.specs.Commands.{roll_answer};
ghost use Rattle.roll.specs.Roll.{outcome, run_from, roll_of};
ghost use Rattle.roll.specs.Steps.{stepped, step_on, step_of, Runnable};

use super::command::{Command, ask_roll, command_at};
use edit::{pin, remove, slide};
use grid::{Answer, Layer, Refusal, Refused, Size};

// Why a roll is refused: the question that was answered no, its place, and the commands done before.
#[derive(Clone, Copy)]
pub struct RollRefused {
    pub question: Refusal,
    pub place: usize,
    pub done: usize,
}

// Questions 1 to 8 are put before any command is done.
impl From<Refused> for RollRefused {
    ghost from_gives = { λ no refused. refused ≡ record { question = no.question; place = no.place; done = 0 } };

    fn from(no: Refused) -> RollRefused {
        RollRefused {
            question: no.question,
            place: no.place,
            done: 0,
        }
    }
}

// A command is done, and the next one starts at a byte or none is left; or one of its questions is answered no.
type Step = Result<Option<usize>, Refused>;

// On to a byte, if an edit is answered yes.
fn step_on(answer: Answer, after: usize) -> Step
    ensures { result ≡ step_on answer after }
{
    answer?;
    Ok(Some(after))
}

// The command at a byte. After question 8 there is one. A pin does not depend on the samples.
fn run_command(layer: Layer, table: &mut [u16], roll: &[u8], at: usize, t: u8) -> Step
    requires { Runnable (plain layer) table.old roll.now at }
    ensures { stepped result table.new ≡ step_of (plain layer.entry) t roll.now at table.old }
{
    let Some(command) = command_at(roll, at) else {
        return Err(Refusal::Malformed.at(at));
    };
    let after = at + command.width();
    match command {
        Command::Slide(stick, offset) => step_on(slide(layer, table, at, stick, offset, t), after),
        Command::Remove(stick) => step_on(remove(layer, table, at, stick, t), after),
        Command::Pin(stick) => step_on(pin(layer.size, table, at, stick), after),
        Command::End => Ok(None),
    }
}

// The commands of a roll that passed question 8, each on the table that those before it left.
fn run(layer: Layer, table: &mut [u16], roll: &[u8], t: u8) -> Result<usize, RollRefused>
    requires { Runnable (plain layer) table.old roll.now 0 }
    ensures { outcome result table.new ≡ run_from (plain layer.entry) t roll.now (length roll.now + 1) 0 0 table.old }
{
    let mut at: usize = 0;
    let mut done: usize = 0;
    loop {
        match run_command(layer, table, roll, at, t) {
            Ok(Some(next)) => {
                at = next;
                done += 1;
            }
            Ok(None) => return Ok(done),
            Err(Refused { question, place }) => {
                return Err(RollRefused {
                    question,
                    place,
                    done,
                });
            }
        }
    }
}

// Questions 1 to 8.
fn ask_all(size: Size, bitmap: &[u8], table: &[u16], roll: &[u8]) -> Answer
    ensures { result ≡ first_no (held_questions (layer_of size bitmap.now) table.now ++ (roll_answer roll.now ∷ [])) }
{
    held::ask_layer_held(size, bitmap, table)?;
    ask_roll(roll)
}

// Applies the edits of a roll to a held layer, up to the first that is refused. The whole roll passes question 8 before an edit is made.
pub fn roll(
    w: u16,
    h: u16,
    bitmap: &[u8],
    table: &mut [u16],
    commands: &[u8],
    t: u8,
) -> Result<usize, RollRefused>
    ensures { outcome result table.new ≡ roll_of (layer_of (size_of w h) bitmap.now) t commands.now table.old }
{
    let size = Size {
        width: w as usize,
        height: h as usize,
    };
    ask_all(size, bitmap, table, commands)?;
    run(Layer { size, bitmap }, table, commands, t)
}
