// Replays a script of calls from standard input over an empty serializable store, and prints the answers. Everything but reading and writing is
// `script::replay`; one byte more than a script may have is read, so that a longer one is seen to be so. The out buffer is as long as any script's output can
// be, which crate `outputs` proves.
#![tactic(auto)]
// Standard input and standard output, by their numbers.
const STDIN_FILENO: i32 = 0;

const STDOUT_FILENO: i32 = 1;

fn run(input: &mut [u8], out: &mut [u8]) {
    let n = io::read_full(STDIN_FILENO, input);
    let end = script::replay(&input[..n], out);
    io::write_all(STDOUT_FILENO, &out[..end]);
}

fn main() {
    let mut input = [0u8; 32769];
    let mut out = [0u8; 819225];
    run(&mut input, &mut out);
}
