// The words of the command, and the lines that are printed.
use crate::forms::{FORMS, Form};
use crate::rounds::play;
use anyhow::{Result, bail};
use coll_model::Kind;
use std::alloc::Global;
use std::io::Write;

// The word for all forms.
const ALL: &str = "all";

// How large the collection is made, and how many rounds come then.
#[derive(Clone, Copy)]
struct Plan {
    size: u64,
    rounds: u64,
}

fn plan_of(size: &str, rounds: &str) -> Result<Plan> {
    let size = size.parse::<u64>()?;
    let rounds = rounds.parse::<u64>()?;
    Ok(Plan { size, rounds })
}

// Plays the rounds of one form, and writes the line of its counts.
fn play_form<W: Write>(
    alloc: Global,
    word: &str,
    kind: Kind,
    form: Form,
    plan: Plan,
    out: &mut W,
) -> Result<()> {
    let played = play(alloc, kind, form, plan.size, plan.rounds)?;
    writeln!(
        out,
        "{word}: {} at first, {} rounds, {} found, {} at last",
        plan.size, plan.rounds, played.found, played.at_last
    )?;
    Ok(())
}

// Plays the form of the word, or all. Tells whether there is one.
fn play_forms<W: Write>(alloc: Global, asked: &str, plan: Plan, out: &mut W) -> Result<bool> {
    let mut known = false;
    for (word, kind, form) in FORMS {
        if asked == ALL || asked == word {
            play_form(alloc, word, kind, form, plan, out)?;
            known = true;
        }
    }
    Ok(known)
}

/// Plays what the words ask for: a form, a size, and a number of rounds.
pub fn run<W: Write>(alloc: Global, words: &[String], out: &mut W) -> Result<()> {
    if let [form, size, rounds] = words {
        let plan = plan_of(size, rounds)?;
        if play_forms(alloc, form, plan, out)? {
            return Ok(());
        }
    }
    bail!("usage: provider_bench FORM SIZE ROUNDS, where FORM may be all")
}
