// Reads a tariff bill file from standard input, books it into an empty ledger, and prints the answer.

#![tactic(auto)]

use std::io;

fn main(rt: HostRuntime) -> io::Result<()> {
    let mut input = [0u8; 65537];
    let n = inputs::read_full(&mut rt.stdin(), &mut input);
    let mut out = [0u8; 72];
    let length = desk_answer::write_answer(&input[..n], &mut out);
    rt.write_all(&out[..length])
}
