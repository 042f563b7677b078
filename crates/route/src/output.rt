// What is printed, and receipts of it that no other module can make: who holds one has had it printed.
ghost use Rattle.std.specs.Prelude.{[], ◌≡◌, Err};
ghost use Rattle.desk_lines.specs.Through.{AnswersPart};
ghost use Rattle.desk.specs.Answers.{answer_bytes};
ghost use Rattle.desk.specs.Through.{Says};

use desk::Reached;
use plan::PlanTables;
use units::Refusal;

// The line of this refusal is printed.
#[derive(Clone, Copy)]
pub struct PrintedRefusal {
    why: Refusal,
}

// The answers are printed up to this byte of the input, where the line with this number begins.
#[derive(Clone, Copy)]
pub struct PrintedAnswers {
    at: usize,
    line: u64,
}

impl PrintedAnswers {
    // Nothing yet.
    pub fn none() -> PrintedAnswers
        ensures at { result.at ≡ 0 }
        ensures line { result.line ≡ 1 }
    {
        PrintedAnswers { at: 0, line: 1 }
    }

    // The byte up to which the answers are printed.
    pub fn at(self) -> usize
        ensures { result ≡ self.at }
    {
        self.at
    }

    // The number of the line there.
    pub fn line(self) -> u64
        ensures { result ≡ self.line }
    {
        self.line
    }
}

// The one place where the program prints. What becomes of the bytes there is not known.
fn print(rt: &impl Print, bytes: &[u8]) {
    let _ = rt.write_all(bytes);
}

// Prints the line of a refusal.
pub fn print_refusal(rt: &impl Print, why: Refusal, line: &[u8]) -> PrintedRefusal
    requires { line.now ≡ answer_bytes (Err why) [] }
    ensures { result.why ≡ why }
{
    print(rt, line);
    PrintedRefusal { why }
}

// Prints the answers of the lines from there to the place reached.
pub fn print_answers(
    rt: &impl Print,
    tables: PlanTables,
    input: &[u8],
    printed: PrintedAnswers,
    reached: Reached,
    answers: &[u8],
) -> PrintedAnswers
    requires { AnswersPart (Says tables.contacts.now tables.contact_count tables.ranges.now tables.range_count) input.now tt printed.at printed.line tt reached.at reached.number answers.now }
    ensures at { result.at ≡ reached.at }
    ensures line { result.line ≡ reached.number }
{
    print(rt, answers);
    PrintedAnswers {
        at: reached.at,
        line: reached.number,
    }
}
