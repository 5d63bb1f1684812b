// A shelf of the collection.
use crate::trial::Trial;
use std::{fs, io};
use verdicts::count::Case;

// The names in a folder, sorted.
pub(crate) fn names_in(rt: &HostRuntime, folder: &str) -> io::Result<Vec<String>> {
    let mut names: Vec<String> = fs::read_dir(rt, folder)?
        .map(|entry| -> io::Result<String> {
            Ok(String::from_str(rt.alloc(), entry?.file_name())?)
        })
        .try_collect(rt.alloc())?;
    names.sort()?;
    Ok(names)
}

// Runs a schedule. Where it does not come to its report, what it came to is printed.
fn run_schedule(rt: &HostRuntime, shelf: &str, name: &str) -> anyhow::Result<Trial> {
    let heap = rt.alloc();
    let schedule = fs::read(rt, format!(in heap; "{shelf}/{name}.schedule")?)?;
    let told = fs::read(rt, format!(in heap; "{shelf}/{name}.report")?)?;
    let trial = Trial::of(heap, &schedule, told)?;
    if !trial.passes() {
        let text = String::from_utf8_lossy(heap, trial.came.as_slice())?;
        println!(rt; "{shelf}/{name} differs: the carrier comes to")?;
        print!(rt; "{text}")?;
    }
    Ok(trial)
}

pub(crate) fn run_shelf(rt: &HostRuntime, shelf: &str) -> anyhow::Result<Vec<Trial>> {
    let mut trials = Vec::new(rt.alloc());
    let names = names_in(rt, shelf)?;
    for name in &names {
        if let Some(schedule) = name.as_str().strip_suffix(".schedule") {
            trials.push(run_schedule(rt, shelf, schedule)?)?;
        }
    }
    Ok(trials)
}
