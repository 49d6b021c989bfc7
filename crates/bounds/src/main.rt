// How old can a shown value be? For each connection of each settings list in a list of calls, the bound that is proved
// on the age of a value shown at its end.
#![tactic(auto)]

use endpoint::Reason;
use std::io;
use text::Line;
use text::answer::{put_check, put_wrong};
use text::bounds::put_bounds;
use text::lines::{Lines, front};

// The text that `put` puts.
fn print<F: FnOnce(&mut [u8]) -> usize>(rt: &impl Print, put: F) -> io::Result<()>
    requires { F.IsAlwaysCallable put }
{
    let mut out = [0; 4096];
    let n = put(&mut out);
    rt.write_all(front(&out, n))
}

// A line for each connection, or what loading would answer.
fn print_list(rt: &impl Print, list: &[u32]) -> io::Result<()> {
    if !settings::is_list(list) {
        return print(rt, |out| put_check(out, u8::from(Reason::Settings)));
    }
    for i in 0..list.len() / 7 {
        let s = settings::settings_at(list, i as u8);
        print(rt, |out| put_bounds(out, s))?;
    }
    Ok(())
}

fn load(rt: &impl Print, line: &[u8]) -> io::Result<()> {
    let mut words = [0; 450];
    let n = text::hex::settings_in(line, &mut words);
    print_list(rt, &words[..n])
}

// One line, without its newline. Calls other than loading print nothing.
fn run(rt: &impl Print, place: u64, line: &[u8]) -> io::Result<()> {
    match text::parse::parse(line) {
        Some(Line::Load) => load(rt, line),
        Some(_) => Ok(()),
        None => print(rt, |out| put_wrong(out, place)),
    }
}

// A proved loop has to end, and nothing says that the input does: the turns count up to a number that no input reaches.
// The loop stands in replay too: a public function of text would have a contract, and none can say what is printed.
fn main(rt: HostRuntime) -> io::Result<()> {
    let mut stdin = rt.stdin();
    let mut lines = Lines::new();
    for _ in 0..u64::MAX {
        lines.read_on(&mut stdin)?;
        if let Some(line) = lines.whole() {
            run(&rt, lines.input.place, line)?;
        }
        if lines.input.ended {
            break;
        }
    }
    Ok(())
}
