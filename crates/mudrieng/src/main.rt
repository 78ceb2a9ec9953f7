// Reads a job and prints what its sheet is worth, and a way to saw it.
#![tactic(auto)]

ghost use Rattle.mudrieng.specs.Jobs.{numbers_named, pieces_named};
ghost use Rattle.std.specs.Prelude.{◌≡◌, ℕ, ◌*◌, ◌<◌, ◌≤◌, true, length, IfOk, None};
ghost use Rattle.ways.specs.Nodes.{node_ok};
ghost use Rattle.ways.specs.Refusals.{sheet_fault, pieces_fault};
ghost use Rattle.ways.specs.View.{pieces_of};

mod faults;
mod jobs;
mod shown;

use faults::Fault;
use jobs::Job;
use saw::{Done, saw};
use shown::Shown;
use std::alloc::Global;
use std::process::ExitCode;
use std::{env, fs, io};
use ways::{Pieces, Refusal, Sheet};
use worths::sheet_worth;

// What keeps a job from being sawn goes to standard error, and then the program ends with status 1.
fn main(rt: HostRuntime) -> ExitCode {
    match run(&rt) {
        Ok(()) => ExitCode::SUCCESS,
        Err(fault) => {
            let _ = rt.eprintln(fault);
            ExitCode::FAILURE
        }
    }
}

fn run(rt: &HostRuntime) -> Result<(), Fault> {
    let text = job_text(rt)?;
    let answer = answer(rt.alloc(), text.as_str())?;
    rt.print(answer)?;
    Ok(())
}

// The job from the file that is named, or from standard input.
fn job_text(rt: &HostRuntime) -> io::Result<String> {
    let mut args = env::args(rt)?;
    let _program = args.next();
    match args.next() {
        Some(path) => fs::read_to_string(rt, path.as_str()),
        None => io::read_to_string(rt.alloc(), rt.stdin()),
    }
}

// What is printed for a job: what its sheet is worth, and the way that `saw` leaves. So far that is scrap, whatever the sheet is
// worth.
fn answer(heap: Global, text: &str) -> Result<String, Fault> {
    let job = Job::read(heap, text)?;
    let numbers = job.numbers(heap)?;
    let (sheet, pieces) = accepted(&job, numbers.as_slice())?;
    let worth = sheet_worth(sheet, &pieces);
    let mut room = vec![in heap; 0u16; sheet.room()]?;
    let count = left(sheet, numbers.as_slice(), room.as_mut_slice());
    let way = Shown {
        nodes: &room.as_slice()[..4 * count],
        pieces: job.pieces.as_slice(),
    };
    Ok(format!(in heap; "worth {worth}\n{way}")?)
}

// How many nodes `saw` leaves in the room.
#[tactic(auto, using(ways::proofs::Taken::taken))]
fn left(sheet: Sheet, numbers: &[u32], room: &mut [u16]) -> usize
    requires sheet { sheet_fault sheet.wide sheet.high sheet.blade ≡ None }
    requires pieces { pieces_fault numbers.now ≡ None }
    requires room { 8 * (sheet.wide * sheet.high) ≤ length room.old }
    ensures some { 0 < result }
    ensures within { 4 * result ≤ length room.new }
    ensures later { (k : ℕ) → k < result → node_ok room.new result k ≡ true }
{
    let done = saw(
        sheet.wide() as u64,
        sheet.high() as u64,
        sheet.blade() as u64,
        numbers,
        room,
    );
    match done {
        Done::Sawn(nodes, _) => nodes as usize,
        Done::Refused(_) => unreachable(),
    }
}

// The sheet and the pieces of a job, or the first refusal that applies, wherever in the text it stands.
#[tactic(auto, using(crate::proofs::Taking::pieces_numbered))]
fn accepted(job: &Job, numbers: &[u32]) -> Result<(Sheet, Pieces), Refusal>
    requires { numbers.now ≡ numbers_named job.now.pieces.items }
    ensures { IfOk result (λ s. (sheet_fault s.0.wide s.0.high s.0.blade ≡ None) × (pieces_fault numbers.now ≡ None) × (pieces_of s.1 ≡ pieces_named job.now.pieces.items)) }
{
    let sheet = job
        .sheet
        .map(|line| Sheet::new(line.wide, line.high, line.blade))
        .transpose()?;
    let pieces = Pieces::try_from(numbers)?;
    match (job.unread, sheet) {
        (Some(refusal), _) => Err(refusal),
        (None, Some(sheet)) => Ok((sheet, pieces)),
        // No line is for the sheet.
        (None, None) => Err(Refusal::Line(job.lines)),
    }
}

#[cfg(test)]
mod tests;
