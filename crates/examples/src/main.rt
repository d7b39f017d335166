// Document 01's worked examples, run. The program's input is a page with a blank for each answer; it copies the page and writes into each blank what a call answered.
#![tactic(auto)]

mod logs;
mod page;
mod records;
mod rounds;
mod signings;
mod trays;

fn main() {
    records::all();
    trays::all();
    rounds::all();
    logs::all();
    signings::all();
    page::copy();
}
