// Reads a schedule from standard input and writes what the rehearsal prints; where that cannot be written, standard error is told so.
// One byte more than a schedule may have is read, so that a file too long is seen.
#![tactic(auto)]

fn main() {
    let mut input = [0u8; schedule::SCHEDULE_MOST + 1];
    let got = io::read_full(0, &mut input);
    let mut output = [0u8; report::TEXT_MOST];
    let length = rehearsal::rehearsal(&input[..got], &mut output).unwrap_or(0);
    if !io::write_all(1, &output[..length]) {
        io::write_all(2, b"rehearse: the output could not be written\n");
    }
}
