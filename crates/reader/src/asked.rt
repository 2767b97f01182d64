// What a reader is asked for, and what it then makes of a frame. `have` is how many frames are collected, and no place in `frame`.
ghost use Rattle.std.specs.Prelude.{◌≤◌};

use crate::tally::Why;

// The command, whether echoes are thrown away, and how many frames are wanted: "n over 85" is a bad state.
#[derive(Clone, Copy, Debug, PartialEq, Eq)]
pub(crate) struct Asked {
    pub command: u8,
    pub strict: bool,
    pub wanted: usize,
    ghost few: { wanted ≤ 85 },
}

impl Asked {
    ghost use Rattle.std.specs.Prelude.{◌≡◌, ◌+◌, ◌<◌, ◌&&◌, ◌==◌, true, IfErr, if◌then◌else◌};
    ghost use Rattle.wire.specs.Bytes.{byte_at};
    ghost use Rattle.rules.specs.Rules.{sum_right, judge, restarts, span};
    ghost use Rattle.reader.specs.View.{config_of, fate, reason};

    // "number 1 in byte 4 drops all collected frames"; "With n = 1 the number is not read"
    fn restarts(self, frame: &[u8; 13]) -> bool
        ensures { result ≡ restarts (config_of self) frame.now }
    {
        1 < self.wanted && frame[4] == 1
    }

    // How many of the collected frames stay when this one is collected.
    pub(crate) fn staying(self, frame: &[u8; 13], have: usize) -> usize
        ensures { result ≡ (if restarts (config_of self) frame.now then 0 else have) }
    {
        if self.restarts(frame) { 0 } else { have }
    }

    // Whether it has our own address, which a reader that is not strict does not look at.
    fn is_echo(self, frame: &[u8; 13]) -> bool
        ensures { result ≡ (self.strict && byte_at frame.now 1 == 0x40) }
    {
        self.strict && frame[1] == frame::HOST_ADDRESS
    }

    // What becomes of a frame with a right sum: it is collected, or its 13 bytes are discarded for a reason. While fewer than 85 are there, the next number fits in a byte.
    pub(crate) fn judge(self, frame: &[u8; 13], have: usize) -> Result<(), Why>
        requires { (have < 85) × (sum_right frame.now ≡ true) }
        ensures { (fate result ≡ judge (config_of self) have frame.now) × IfErr result (λ why. span (reason why) ≡ 13) }
    {
        if frame[2] != self.command {
            return Err(Why::Command);
        }
        // "discards an echo whole, after the command check and before the number check" (K1)
        if self.is_echo(frame) {
            return Err(Why::Echo);
        }
        // "With n = 1 the number is not read"
        if self.wanted <= 1 {
            return Ok(());
        }
        // "a number other than collected + 1", where a restart drops those collected
        if frame[4] != (self.staying(frame, have) + 1) as u8 {
            return Err(Why::Number);
        }
        Ok(())
    }
}
