// Calls every function that no other Rattle code calls, the exported ones and a few beside, accepted and refused, and
// compares what each leaves with what is expected: every byte of a heap and of a buffer, every word of accounts. It
// prints a line for each function.
#![tactic(auto)]

mod answers;
mod calls;
mod comparing;
mod counts;
mod images;
mod lending;
mod moving;
mod opening;
mod performing;
mod queues;
mod replaying;
mod reports;
mod starting;
mod stores;
mod telling;
mod writing;

fn main() {
    calls::all();
    opening::all();
    writing::all();
    lending::all();
    images::all();
    moving::all();
    queues::all();
    reports::all();
    counts::all();
    stores::all();
    replaying::all();
}
