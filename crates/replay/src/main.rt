// Runs the public calls as standard input says, a command a line, and prints each answer with every word lent.
#![tactic(auto)]

mod answers;
mod commands;
mod figure;
mod lent;
mod line;
mod output;

ghost use Rattle.std.specs.Prelude.{◌≤◌, length};

use lent::Lent;
use output::Output;
use std::io::Read;

// Runs every line, up to the first that is no command.
fn run(input: &[u8], out: &mut Output<'_>) {
    let mut lent = Lent::new();
    for (k, line) in input.split_inclusive(|byte| *byte == b'\n').enumerate() {
        let ran = match line {
            [command @ .., b'\n'] => commands::run(command, &mut lent, out),
            _ => None,
        };
        if ran.is_none() {
            out.put_bad((k as u64).saturating_add(1));
            return;
        }
    }
}

// Reads until the list is full, the input ends or a read fails, and answers how many bytes came.
fn read_full(rt: &HostRuntime, buf: &mut [u8]) -> usize
    ensures { result ≤ length buf.new }
{
    let mut stdin = rt.stdin();
    let mut done = 0;
    while done < buf.len() {
        match stdin.read(&mut buf[done..]) {
            Ok(more) if more != 0 => done += more,
            _ => break,
        }
    }
    done
}

fn main(rt: HostRuntime) {
    let mut input = [0u8; 65537];
    let count = read_full(&rt, &mut input);
    if count > 65536 {
        let _ = rt.println("bad 0");
        return;
    }
    let mut out = Output::new(&rt);
    run(&input[..count], &mut out);
    out.flush();
}
