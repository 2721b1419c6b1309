// Document 01's program: reads a panel file with one f64 a node behind it from standard input, and
// prints the current density of each panel. 2,825 bytes are the longest input that is accepted; one
// byte more decides that an input is too long. Input that cannot be read counts as ended.
#![tactic(auto)]

fn main() {
    let mut input = [0u8; 2826];
    let n = io::read_full(0, &mut input);
    let mut output = [0u8; 7054];
    let k = density_text::density_text(&input[..n], &mut output);
    io::write_all(1, &output[..k]);
}
