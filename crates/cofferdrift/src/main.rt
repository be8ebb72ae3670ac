// cofferdrift: one act on sequent files. It prints one line: `ok ..`, `refused NUMBER at PLACE: ..`, or `misuse: ..`.
#![tactic(auto)]

mod files;
mod requests;
mod words;

fn main(rt: HostRuntime) {
    // A write that fails changes no answer.
    let _ = match requests::run(&rt) {
        Ok(answer) => println!(rt; "{answer}"),
        Err(fault) => println!(rt; "{fault}"),
    };
}
