// The report of a search: from the words of a command line and the bytes on an input to the text on an output.
ghost use Rattle.std.specs.Prelude.{◌≡◌, ◌<◌, ◌≤◌, ℕ, List, Err, length, map, string_bytes, IfOk, IfErr, MatchResult, is_ok, if◌then◌else◌};
ghost use Rattle.std.specs.Process.{exit_status};
ghost use Rattle.rules.specs.declared.refusal.Refusal.TheVariants.{NoPlace};
ghost use Rattle.planner.specs.declared.error.PlanError.TheVariants.{Refused};
ghost use Rattle.planner.specs.Answers.{Unanswered};
ghost use Rattle.programs.specs.Chosen.{chosen, wrong_text};
ghost use Rattle.programs.specs.Printed.{line as line_of, IsOn, Writes};
ghost use Rattle.programs.specs.Reported.{settings_of, ByPolicy, ByOrder, ReportOf};

use crate::input::job;
use crate::options::{GroupOrder, Options, Restarts, read};
use crate::output::{line, write};
use branching::{FewestFirst, Geometric, LastConflict, Order, Steady};
use planner::error::PlanError;
use planner::report::{Report, explain};
use planner::solve::LONGEST_JOB;
use rules::refusal::Refusal;
use std::alloc::Global;
use std::io;
use std::io::{Read, Write};
use std::process::ExitCode;

// The report by the policy that was chosen.
fn explain_by<O: Order>(
    heap: Global,
    job: &[u8],
    order: &mut O,
    options: Options,
) -> Result<Report, PlanError>
    ensures { MatchResult result (ByPolicy options job.now O.Order.meaning (O.Order.held order.old) options.restarts) (Unanswered job.now (settings_of options)) }
{
    match options.restarts {
        Restarts::Geometric => {
            explain(heap, job, order, &mut Geometric::new(), options.settings())
        }
        Restarts::Steady(cutoff) => explain(
            heap,
            job,
            order,
            &mut Steady::new(cutoff),
            options.settings(),
        ),
    }
}

// The report by the order and the policy that were chosen.
fn explain_as_told(heap: Global, job: &[u8], options: Options) -> Result<Report, PlanError>
    ensures long { 65536 < length job.now → result ≡ Err (Refused (NoPlace 65536)) }
    ensures short { length job.now ≤ 65536 → MatchResult result (ByOrder options job.now options.order) (Unanswered job.now (settings_of options)) }
{
    if job.len() > LONGEST_JOB {
        return Err(PlanError::Refused(Refusal::NoPlace(LONGEST_JOB)));
    }
    match options.order {
        GroupOrder::Fewest => explain_by(heap, job, &mut FewestFirst, options),
        GroupOrder::Last(k) => explain_by(
            heap,
            job,
            &mut LastConflict::new(k, FewestFirst),
            options,
        ),
    }
}

// Writes the report of the bytes that the input still has, by these options. An error is that of the input, of the output, or want of memory.
pub fn report<R: Read, W: Write>(
    heap: Global,
    options: Options,
    input: &mut R,
    output: &mut W,
) -> io::Result<()>
    ensures { (bytes : List ℕ) × IsOn (R.remaining input.old) bytes × Writes (ReportOf options bytes) (W.contents output.old) (W.contents output.new) result }
{
    let job = job(heap, input)?;
    let report = line(heap, explain_as_told(heap, job.as_slice(), options))?;
    write(output, report.as_bytes())
}

// What the program does with the words of its command line: it writes the report by the options that they choose, or it reads nothing and tells in one line what is wrong with them.
pub fn run<R: Read, W: Write, E: Write>(
    heap: Global,
    words: &[String],
    input: &mut R,
    output: &mut W,
    errors: &mut E,
) -> io::Result<ExitCode>
    ensures reports { IfOk (chosen (map (λ w. string_bytes w) words.now)) (λ o. (bytes : List ℕ) × IsOn (R.remaining input.old) bytes × Writes (ReportOf o bytes) (W.contents output.old) (W.contents output.new) result) }
    ensures silent { IfOk (chosen (map (λ w. string_bytes w) words.now)) (λ _. errors.new ≡ errors.old) }
    ensures tells { IfErr (chosen (map (λ w. string_bytes w) words.now)) (λ w. Writes (λ text. text ≡ line_of (wrong_text w)) (E.contents errors.old) (E.contents errors.new) result) }
    ensures idle { IfErr (chosen (map (λ w. string_bytes w) words.now)) (λ _. (input.new ≡ input.old) × (output.new ≡ output.old)) }
    ensures status { IfOk result (λ s. exit_status s ≡ (if is_ok (chosen (map (λ w. string_bytes w) words.now)) then 0 else 2)) }
{
    match read(words) {
        Ok(options) => {
            report(heap, options, input, output)?;
            Ok(ExitCode::SUCCESS)
        }
        Err(wrong) => {
            let told = format!(in heap; "{wrong}\n")?;
            write(errors, told.as_bytes())?;
            Ok(ExitCode::from(2))
        }
    }
}
