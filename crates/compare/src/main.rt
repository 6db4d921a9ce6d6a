// Programs and damaged texts from a seed, put to the toolkit and to a second reader and interpreter of another make.
#![tactic(auto)]

mod answer;
mod damage;
mod dice;
mod examples;
mod generate;
mod pair;
mod plan;
mod reading;
mod second;
mod spelling;
mod tally;
mod tree;
mod trial;
mod trouble;
mod verdicts;

use anyhow::bail;
use generate::Generator;
use std::alloc::Global;
use std::env;
use std::process::ExitCode;
use tally::Tally;
use trial::{Failure, compare_examples, compare_generated};
use trouble::Stop;

// How the program is called.
const USAGE: &str = "usage: compare [COUNT [SEED]]";

// How many programs there are where nothing else is asked for.
const COUNT: u64 = 4_000;

// Which seed is taken where no other is asked for.
const SEED: u64 = 20_260_101;

// Where the comparison ends with an error, what there is to say of it has been said: status 1 is all that is added.
fn main(rt: HostRuntime) -> ExitCode {
    match compare(&rt) {
        Ok(()) => ExitCode::SUCCESS,
        Err(_) => ExitCode::FAILURE,
    }
}

// Makes the comparisons, and prints what they came to.
fn compare(rt: &HostRuntime) -> anyhow::Result<()> {
    let Some(settings) = Settings::from_arguments(rt) else {
        rt.eprintln(USAGE)?;
        bail!("no such settings");
    };
    let tally = match settings.compare_all(rt.alloc()) {
        Ok(tally) => tally,
        Err(Stop::Said(difference)) => {
            println!(rt; "{difference}")?;
            bail!("a difference");
        }
        Err(Stop::Trouble(trouble)) => {
            eprintln!(rt; "{trouble}")?;
            bail!("no comparison");
        }
    };
    println!(rt; "{tally}differences 0")?;
    if settings.count >= COUNT && !tally.is_full() {
        rt.println("a fault or a refusal never came")?;
        bail!("not every outcome came");
    }
    Ok(())
}

// How many programs are asked for, and from which seed.
#[derive(Clone, Copy)]
struct Settings {
    count: u64,
    seed: u64,
}

impl Settings {
    // What the arguments of the call say; none where they are something else.
    fn from_arguments(rt: &HostRuntime) -> Option<Settings> {
        let mut words = env::args(rt).ok()?;
        let _program = words.next();
        let count = number_or(words.next(), COUNT)?;
        let seed = number_or(words.next(), SEED)?;
        words.next().is_none().then_some(Settings { count, seed })
    }

    // The table, and then so many programs from a seed.
    fn compare_all(self, heap: Global) -> Result<Tally, Failure> {
        let mut tally = Tally::default();
        compare_examples(heap, &mut tally)?;
        let mut generator = Generator::new(heap, self.seed);
        for _ in 0..self.count {
            compare_generated(&mut generator, &mut tally)?;
        }
        Ok(tally)
    }
}

// The number that a word says, or another one where there is no word.
fn number_or(word: Option<String>, otherwise: u64) -> Option<u64> {
    word.map_or(Some(otherwise), |word| word.as_str().parse::<u64>().ok())
}
