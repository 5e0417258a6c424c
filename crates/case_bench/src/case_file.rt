//! Carries out whole case files.
use crate::bench::Bench;
use crate::device::Copied;
use crate::program::Program;
use crate::tries::Loop;
use case_text::lines::{Line, written_out};
use case_text::trouble::{Trouble, amiss};
use std::alloc::Global;

/// How much of a case file was carried out.
#[derive(Clone, Copy)]
pub struct Count {
    /// How many cases the file has.
    pub cases: u32,
    /// How often the program was run.
    pub runs: u32,
}

/// Carries out each case of a file with this text, up to the first trouble. It is a trouble if the file has no case, or
/// if a case has no run.
pub fn run_file<P: Program>(program: &P, alloc: Global, text: &str) -> Result<Count, Trouble> {
    let lines = written_out(alloc, text)?;
    let mut count = Count { cases: 0, runs: 0 };
    for case in lines.chunk_by(|_, next| !is_case(next)) {
        let runs = run_case(program, alloc, case)?;
        count.cases = count.cases.saturating_add(1);
        count.runs = count.runs.saturating_add(runs);
    }
    if count.cases == 0 {
        return Err(amiss(1, format!(in alloc; "there is no case")));
    }
    Ok(count)
}

fn is_case(line: &Line) -> bool {
    line.text.starts_with("case ")
}

fn is_loop(line: &Line) -> bool {
    line.text.starts_with("for ")
}

/// Carries out a case: the lines above its loops once, and the lines below for each try of each loop. The result is how
/// often the program was run.
fn run_case<P: Program>(program: &P, alloc: Global, case: &[Line]) -> Result<u32, Trouble> {
    let Some((name, lines)) = case.split_first() else {
        return Ok(0);
    };
    if !is_case(name) {
        let why = format!(in alloc; "this line stands before the first case");
        return Err(amiss(name.number, why));
    }
    let mut bench = Bench::new(alloc)?;
    let above = lines.iter().take_while(|line| !is_loop(line)).count();
    bench.carry_out(program, lines.get(..above).unwrap_or(&[]))?;
    let lines = lines.get(above..).unwrap_or(&[]);
    let loops = lines.iter().take_while(|line| is_loop(line)).count();
    let tried = lines.get(loops..).unwrap_or(&[]);
    if loops > 0 {
        let device = Copied::of(alloc, &bench.host)?;
        for line in lines.iter().take(loops) {
            Loop::of(alloc, line)?.run(program, &mut bench, &device, tried)?;
        }
    }
    if bench.runs == 0 {
        return Err(amiss(name.number, format!(in alloc; "this case has no run")));
    }
    Ok(bench.runs)
}
