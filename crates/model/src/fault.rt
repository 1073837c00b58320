// Why a call refuses: number, part and task.
ghost use Rattle.std.specs.Prelude.{◌≡◌, Some};
ghost use Rattle.model.specs.Faults.{number, word, part_number, part_word, fault};
ghost use Rattle.model.specs.Shown.{shown_fault};

use std::fmt;

#[derive(Clone, Copy, PartialEq, Eq, Debug)]
pub enum Refusal {
    // no tasks, more than sixteen, or numbers of tasks that disagree
    Size = 1,
    // a field outside its limits
    Range = 2,
    // an entry out of its order
    Order = 3,
    // the task has no window
    Overload = 4,
    // the bound is above the deadline
    Late = 5,
    // the book's table was refused
    Unfit = 6,
    // no command, a task that the table does not have, or an idling of 0 ticks
    Unread = 7,
    // no room for another job, or a tick beyond the last
    Full = 8,
    // more releases than the arrival curve allows
    Crowd = 9,
    // no unfinished job of the task
    Absent = 10,
    // another job holds the processor
    Held = 11,
    // an unfinished job is more urgent
    Behind = 12,
    // the sections do not allow the mark
    Section = 13,
}

#[derive(Clone, Copy, PartialEq, Eq, Debug)]
pub enum Part {
    Arrivals = 1,
    Order = 2,
    Sections = 3,
    Table = 4,
    Book = 5,
}

// The task of a fault that means none. It is a number and no Option, since the format of a fault says 255.
pub const NO_TASK: u8 = 255;

#[derive(Clone, Copy, PartialEq, Eq, Debug)]
pub struct Fault {
    pub refusal: Refusal,
    pub part: Part,
    pub task: u8,
}

// A refusal and a part have numbers and words of their own, so a trait over both would say no more.
impl Refusal {
    pub fn number(self) -> u8
        ensures { result ≡ number self }
    {
        self as u8
    }

    pub fn word(self) -> &'static str
        ensures { result.now ≡ word self }
    {
        match self {
            Refusal::Size => "size",
            Refusal::Range => "range",
            Refusal::Order => "order",
            Refusal::Overload => "overload",
            Refusal::Late => "late",
            Refusal::Unfit => "unfit",
            Refusal::Unread => "unread",
            Refusal::Full => "full",
            Refusal::Crowd => "crowd",
            Refusal::Absent => "absent",
            Refusal::Held => "held",
            Refusal::Behind => "behind",
            Refusal::Section => "section",
        }
    }
}

impl Part {
    pub fn number(self) -> u8
        ensures { result ≡ part_number self }
    {
        self as u8
    }

    pub fn word(self) -> &'static str
        ensures { result.now ≡ part_word self }
    {
        match self {
            Part::Arrivals => "arrivals",
            Part::Order => "order",
            Part::Sections => "sections",
            Part::Table => "table",
            Part::Book => "book",
        }
    }
}

impl Fault {
    pub fn new(refusal: Refusal, part: Part, task: u8) -> Fault
        ensures { result ≡ fault refusal part task }
    {
        Fault {
            refusal,
            part,
            task,
        }
    }
}

impl fmt::Display for Fault {
    ghost output = { λ f. Some (shown_fault f) };

    fn fmt<W: fmt::Write>(&self, f: &mut fmt::Formatter<W>) -> fmt::Result {
        let number = self.refusal.number();
        let word = self.refusal.word();
        let part = self.part.number();
        let name = self.part.word();
        let task = self.task;
        write!(f, "{number} {word}, part {part} {name}, task {task}")
    }
}
