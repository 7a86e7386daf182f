// What the programs read: a reader's bytes, as those of standard input, until it ends or the lent buffer is full.

#![tactic(auto)]

ghost use Rattle.io.specs.Counts.{IsPrefixLen};

use std::io::{Read, Result};

// How many bytes were read, and whether a read failed before the end.
// Stays: what may not change: `read_all` promises how many bytes there are where a read failed too; and an `io::Error` has
// no equality.
#[derive(Debug, Drop)]
pub struct Input {
    pub length: usize,
    pub ended: Result<()>,
}

// Reads until the buffer is full or the input ends.
// Stays: the new form is no plainer: the input's end ends the loop, and no count.
pub fn read_all<R: Read>(reader: &mut R, buf: &mut [u8]) -> Input
    ensures { IsPrefixLen result.length buf.new }
{
    let mut done = 0;
    while done < buf.len() {
        match reader.read(&mut buf[done..]) {
            Ok(0) => {
                return Input {
                    length: done,
                    ended: Ok(()),
                };
            }
            Ok(more) => done += more,
            Err(error) => {
                return Input {
                    length: done,
                    ended: Err(error),
                };
            }
        }
    }
    Input {
        length: done,
        ended: Ok(()),
    }
}
