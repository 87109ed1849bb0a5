// What programs read: the bytes of an input, as far as there is room for them.

#![tactic(auto)]

ghost use Rattle.std.specs.Prelude.{take};
ghost use Rattle.std.specs.Counts.{IsPrefixLen};
ghost use Rattle.std.specs.Io.KnownBytes.{Consumes};

use std::io::Read;

// Reads until the bytes are full, or the input ends or fails, and returns how many were read: they stand at the start, in the order in which the input gave them.
// A `while`: how many reads it takes is the input's.
pub fn read_full<R: Read>(input: &mut R, bytes: &mut [u8]) -> usize
    ensures within { IsPrefixLen result bytes.new }
    ensures in_order { Consumes (R.remaining input.old) (R.remaining input.new) (take result bytes.new) }
{
    let mut done = 0;
    while done < bytes.len() {
        let Ok(n) = input.read(&mut bytes[done..]) else {
            break;
        };
        if n == 0 {
            break;
        }
        done += n;
    }
    done
}
