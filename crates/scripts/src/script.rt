// What a case asks for: commands of six numbers each, and the calls that they stand for.
//
// 0 to 3    Fetch, Start, Complete, Release by the worker named
// 4         begin
// 5         print the lists
// 6         P workers try each of Complete, Start, Fetch, Release
// 7 to 9    turns: each the first accepted of Release, Fetch, Start, Complete, until as many steps are accepted as are
//           named, or P turns accept nothing; 7 prints accepted steps, 8 refused ones too, 9 none
//
// The numbers behind it are P, K, a worker, the stride to the next worker modulo P, and the steps.
ghost use Rattle.std.specs.Prelude.{◌<◌};

use task::Step;

// In the order in which each worker tries them by command 6.
const IN_EVERY: [Step; 4] = [Step::Complete, Step::Start, Step::Fetch, Step::Release];

// In the order in which a turn tries them.
const IN_TURN: [Step; 4] = [Step::Release, Step::Fetch, Step::Start, Step::Complete];

// A call that a command stands for.
#[derive(Clone, Copy)]
pub enum Call {
    Begin,
    Lists,
    Step(Step),
}

// Which answers of turns are printed.
#[derive(Clone, Copy)]
pub enum Printed {
    Accepted,
    All,
    Nothing,
}

#[derive(Clone, Copy)]
pub enum What {
    Call(Call),
    Every,
    Turns(Printed),
}

// A number that no command starts with: the script ends there.
#[derive(Clone, Copy)]
pub struct NoCommand;

impl TryFrom<u32> for What {
    type Error = NoCommand;

    fn try_from(number: u32) -> Result<What, NoCommand> {
        Ok(match number {
            0 => What::Call(Call::Step(Step::Fetch)),
            1 => What::Call(Call::Step(Step::Start)),
            2 => What::Call(Call::Step(Step::Complete)),
            3 => What::Call(Call::Step(Step::Release)),
            4 => What::Call(Call::Begin),
            5 => What::Call(Call::Lists),
            6 => What::Every,
            7 => What::Turns(Printed::Accepted),
            8 => What::Turns(Printed::All),
            9 => What::Turns(Printed::Nothing),
            _ => return Err(NoCommand),
        })
    }
}

#[derive(Clone, Copy)]
pub struct Command {
    pub what: What,
    pub p: u32,
    pub k: u32,
    pub worker: u32,
    pub stride: u32,
    pub steps: u32,
}

impl Command {
    // Whether the command prints an answer.
    pub fn prints(self, accepted: bool) -> bool {
        match self.what {
            What::Turns(Printed::Nothing) => false,
            What::Turns(Printed::Accepted) => accepted,
            _ => true,
        }
    }

    fn next_worker(self, worker: u32) -> u32 {
        let next = worker.wrapping_add(self.stride);
        if next < self.p {
            return next;
        }
        next.wrapping_sub(self.p)
    }
}

// How far a script has come: the command that stands and the words behind it, whose turn it is, how many steps have been tried in
// it, how many are still to be accepted, and after how many turns without one the command ends.
#[derive(Clone, Copy)]
pub struct At<'a> {
    pub command: Command,
    pub worker: u32,
    behind: &'a [u32],
    tried: usize,
    steps: u32,
    turns: u32,
    ghost in_turn: { tried < 4 },
}

impl<'a> At<'a> {
    // At the start of a script's first command, if it has one.
    pub fn start(script: &'a [u32]) -> Option<At<'a>> {
        let [what, p, k, worker, stride, steps, behind @ ..] = script else {
            return None;
        };
        let command = Command {
            what: What::try_from(*what).ok()?,
            p: *p,
            k: *k,
            worker: *worker,
            stride: *stride,
            steps: *steps,
        };
        Some(At {
            command,
            worker: command.worker,
            behind,
            tried: 0,
            steps: command.steps,
            turns: command.p,
        })
    }

    pub fn call(self) -> Call {
        match self.command.what {
            What::Call(call) => call,
            What::Every => Call::Step(IN_EVERY[self.tried]),
            What::Turns(_) => Call::Step(IN_TURN[self.tried]),
        }
    }

    // Goes to the next worker's turn.
    fn turn(&mut self) {
        self.worker = self.command.next_worker(self.worker);
        self.tried = 0;
    }

    // Goes to the start of the command behind, if there is one.
    fn enter_next(&mut self) -> bool {
        let Some(next) = At::start(self.behind) else {
            return false;
        };
        *self = next;
        true
    }

    // Goes on after a turn that has accepted a step.
    fn gone(&mut self) -> bool {
        if self.steps <= 1 {
            return self.enter_next();
        }
        self.steps -= 1;
        self.turns = self.command.p;
        self.turn();
        true
    }

    // Goes on after all four steps of a turn.
    fn passed(&mut self) -> bool {
        if self.turns <= 1 {
            return self.enter_next();
        }
        self.turns -= 1;
        self.turn();
        true
    }

    // Goes on after a call; not behind the last command.
    // kept: with an Option<At> as the result, a call that is refused at once takes 3 % more instructions
    pub fn after(&mut self, accepted: bool) -> bool {
        match self.command.what {
            What::Call(_) => self.enter_next(),
            What::Turns(_) if accepted => self.gone(),
            _ if self.tried < 3 => {
                self.tried += 1;
                true
            }
            _ => self.passed(),
        }
    }
}
