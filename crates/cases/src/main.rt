//! Documents with the answers that they must get. The words of the program name files, each with the cases of one
//! subject. The program prints each case that is answered otherwise, and of each file how many cases it has.
#![tactic(auto)]

mod answers;
mod cases;
mod words;

use crate::cases::{Line, all_tried, cases_among};
use crate::words::{Words, lines_of};
use std::{env, fs, io};

/// Tries the cases of a file, prints those that are answered otherwise, and gives how many there are.
fn cases_of(rt: &HostRuntime, known: &str, name: &str) -> io::Result<usize> {
    let file = fs::read_to_string(rt, name)?;
    let lines = lines_of(rt.alloc(), &file)?;
    let mut words = Words::new(rt.alloc(), known)?;
    let found = all_tried(rt.alloc(), &mut words, &lines)?;
    for (at, (line, found)) in lines.iter().zip(found.iter()).enumerate() {
        if *found == Line::Wrong {
            let number = at.saturating_add(1);
            println!(rt; "{name}:{number}: wrong: {line}")?;
        }
    }
    Ok(cases_among(&found))
}

fn main(rt: HostRuntime) -> io::Result<()> {
    let known = fs::read_to_string(&rt, "words.txt")?;
    for name in env::args(&rt)?.skip(1) {
        let count = cases_of(&rt, &known, &name)?;
        println!(rt; "{name}: {count} cases")?;
    }
    Ok(())
}
