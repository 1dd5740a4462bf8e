// The console: a script of calls on standard input, the answer to each line on standard output.
#![tactic(auto)]

mod answers;
mod asked;
mod fields;
mod grouped;
mod held;
mod lives;
mod out;
mod places;
mod plain;
mod recorded;
mod run;
mod script;
mod setting;
mod showing;
mod subjects;

fn main(rt: HostRuntime) {
    let mut log = [0u64; 20500];
    let mut chunk = [0u8; 4096];
    let mut page = [0u8; 4096];
    run::run(
        &mut rt.stdin(),
        &mut rt.stdout(),
        &mut log,
        &mut chunk,
        &mut page,
    );
}
