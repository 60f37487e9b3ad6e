// The smallest machine, whose output is its input.
ghost use Rattle.std.specs.Prelude.{◌≤◌};

use file_run::{Machine, PIECE, Step};

/// Gives what it was fed.
#[derive(Drop)]
pub struct CopyMachine {
    bytes: [u8; PIECE],
    len: usize,
    taken: u64,
    ended: bool,
    ghost few: { len ≤ 4096 },
}

impl CopyMachine {
    ghost use Rattle.std.specs.Prelude.{◌≡◌, false};

    /// A machine to which nothing was done.
    pub fn new() -> CopyMachine
        ensures { (result.taken ≡ 0) × (result.ended ≡ false) }
    {
        CopyMachine {
            bytes: [0; PIECE],
            len: 0,
            taken: 0,
            ended: false,
        }
    }
}

impl Machine for CopyMachine {
    ghost use Rattle.std.specs.Prelude.{◌+◌};
    ghost use Rattle.desk_rows.specs.Copy.{copy_next, Copies};

    ghost Becomes = { λ start events m. Copies events m.taken m.ended };

    ghost inputs = { λ m. 1 };

    ghost next = { λ m. copy_next m.len m.ended };

    ghost left = { λ m. m.len };

    ghost reach = { λ m input. m.taken + 4096 };

    fn step(&self) -> Step {
        if self.len > 0 {
            return Step::Give;
        }
        if self.ended {
            return Step::End;
        }
        Step::Read {
            input: 0,
            least: 1,
            most: PIECE as u64,
        }
    }

    fn feed(&mut self, _input: usize, bytes: &[u8]) -> usize {
        let count = bytes.len().min(PIECE);
        let mut piece = [0; PIECE];
        piece[..count].copy_from_slice(&bytes[..count]);
        self.bytes = piece;
        self.len = count;
        self.taken += count as u64;
        count
    }

    fn end_input(&mut self, _input: usize, _bytes: &[u8]) {
        self.ended = true;
    }

    fn give(&mut self, out: &mut [u8]) -> usize {
        let count = self.len;
        out[..count].copy_from_slice(&self.bytes[..count]);
        self.len = 0;
        count
    }
}
